// Times in milliseconds and in ticks, and their limits.
#![tactic(auto)]

ghost use Rattle.std.specs.Prelude.{◌≡◌, ◌*◌, ◌<◌, ◌≤◌};
ghost use Rattle.base.specs.Choice.{within};
ghost use Rattle.times.specs.Times.{tick, back, scale_allowed, timeline_allowed};

pub fn tick_of(scale: u32, m: u32) -> u64
    ensures { (result ≡ tick scale m) × (result < 18446744073709552) }
{
    u64::from(m) * u64::from(scale) / 1000
}

// The largest sum of durations is below 2^48 ticks.
pub fn ms_of(scale: u32, t: u64) -> u64
    requires { (0 < scale) × (t < 281474976710656) }
    ensures { (result ≡ back scale t) × (result ≤ t * 1000) }
{
    (t * 1000).div_ceil(u64::from(scale))
}

fn is_within(low: u64, high: u64, x: u64) -> bool
    ensures { result ≡ within low high x }
{
    (low..=high).contains(&x)
}

pub fn scale_allowed(scale: u32) -> bool
    ensures { result ≡ scale_allowed scale }
{
    is_within(1, 1000000, u64::from(scale))
}

pub fn timeline_allowed(scale: u32, t: u32) -> bool
    ensures { result ≡ timeline_allowed scale t }
{
    scale_allowed(scale)
        && is_within(1, 359999999, u64::from(t))
        && is_within(1, 4294967295, tick_of(scale, t))
}

// T, from the sum of the durations, is allowed.
pub fn total_allowed(scale: u32, total: usize) -> bool
    requires { (0 < scale) × (total < 281474976710656) }
    ensures { result ≡ timeline_allowed scale (back scale total) }
{
    let m = ms_of(scale, total as u64);
    m <= 359999999 && timeline_allowed(scale, m as u32)
}
