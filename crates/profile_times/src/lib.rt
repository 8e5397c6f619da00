// The reader of a timestamp in a payload of the tag profile: the place behind it, and its milliseconds; or the first place where no timestamp of at least `low` can have its byte.
#![tactic(auto)]

ghost use Rattle.std.specs.Prelude.{◌≡◌, true, ◌+◌, ◌<◌, ◌≤◌, length, get_or};
ghost use Rattle.profile_times.specs.Terms.{TimeIs, Told, Fits};

// At each place of hh:mm:ss.mmm>: the lowest and the highest byte.
const LOWEST: [u8; 13] = *b"00:00:00.000>";

const HIGHEST: [u8; 13] = *b"99:59:59.999>";

// The milliseconds that a step of the digit counts.
const UNITS: [u32; 13] = [
    36000000, 3600000, 0, 600000, 60000, 0, 10000, 1000, 0, 100, 10, 1, 0,
];

// And the most that the places behind it can bring.
const RESTS: [u32; 13] = [
    35999999, 3599999, 3599999, 599999, 59999, 59999, 9999, 999, 999, 99, 9, 0, 0,
];

// 0 for a byte from lo to hi, else 1.
fn out_of(lo: u8, hi: u8, b: u8) -> u8
    ensures { result ≡ 0 → (lo ≤ b) × (b ≤ hi) }
{
    u8::from(b < lo || b > hi)
}

// Whether the 13 bytes from `at` on are within their bounds. It does not end early, so that the compiler takes wide steps.
fn fits_clock(s: &[u8], at: usize) -> bool
    requires { at + 13 ≤ length s.now }
    ensures { result ≡ true → Fits s.now at 13 }
{
    let lowest = LOWEST;
    let highest = HIGHEST;
    let mut x = 0;
    for k in 0..13 {
        x |= out_of(lowest[k], highest[k], s[at + k]);
    }
    x == 0
}

// The milliseconds of 13 bytes that are within their bounds.
fn time_at(s: &[u8], at: usize) -> u32
    requires { (at + 13 ≤ length s.now) × Fits s.now at 13 }
    ensures { Told s.now at result }
{
    let lowest = LOWEST;
    let units = UNITS;
    let mut time = 0;
    for k in 0..13 {
        time += (s[at + k] - lowest[k]) as u32 * units[k];
    }
    time
}

// The timestamp byte by byte, with the first place that is amiss.
fn spell_time(s: &[u8], at: usize, low: u32) -> Result<(usize, u32), usize>
    requires { (at < length s.now) × (get_or s.now at 0 ≤ 57) × (get_or s.now at 0 ≡ 47 → ⊥) }
    ensures { TimeIs s.now at low result }
{
    let lowest = LOWEST;
    let highest = HIGHEST;
    let units = UNITS;
    let rests = RESTS;
    let mut time = 0;
    for k in 0..13 {
        let i = at + k;
        if s.len() <= i {
            return Err(i);
        }
        let b = s[i];
        let least = lowest[k];
        if b < least || highest[k] < b {
            return Err(i);
        }
        time += (b - least) as u32 * units[k];
        if time + rests[k] < low {
            return Err(i);
        }
    }
    Ok((at + 13, time))
}

// A timestamp of at least `low` milliseconds, from the byte behind its `<` on: at once if its bytes are within their bounds and it is not too low.
pub fn read_time(s: &[u8], at: usize, low: u32) -> Result<(usize, u32), usize>
    requires { (at < length s.now) × (get_or s.now at 0 ≤ 57) × (get_or s.now at 0 ≡ 47 → ⊥) }
    ensures { TimeIs s.now at low result }
{
    if 13 <= s.len() - at && fits_clock(s, at) {
        let time = time_at(s, at);
        if low <= time {
            return Ok((at + 13, time));
        }
    }
    spell_time(s, at, low)
}
