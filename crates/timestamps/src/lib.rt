// WebVTT timestamps.
#![tactic(auto)]

ghost use Rattle.std.specs.Prelude.{◌≡◌, true, [], ◌∷◌, ◌++◌, ◌+◌, ◌-◌, ◌≤◌, min, length, take, drop, get_or, Some};
ghost use Rattle.base.specs.Choice.{both, within};
ghost use Rattle.base.specs.Over.{wrote};
ghost use Rattle.decimal.specs.Decimal.{value};
ghost use Rattle.timestamps.specs.Timestamps.{front, behind, digit, shaped, minutes, minutes_ms, hours_ms, time_of, capped, answered, two, three, time_text};

use ascii::is_within;

// The digits that a text begins with: how many, and their number, up to a limit.
#[derive(Clone, Copy)]
pub struct Digits {
    pub count: usize,
    pub number: u32,
}

// The number of a digit.
pub fn number_of(b: u8) -> u32
    requires { digit b ≡ true }
    ensures { (result ≡ b - 48) × (result ≤ 9) }
{
    u32::from(b) - 48
}

fn two_digits(s: &[u8], at: usize) -> u32
    requires { (at + 2 ≤ length s.now) × (digit (get_or s.now at 0) ≡ true) × (digit (get_or s.now (at + 1) 0) ≡ true) }
    ensures { (result ≡ value (take 2 (drop at s.now))) × (result ≤ 99) }
{
    number_of(s[at]) * 10 + number_of(s[at + 1])
}

// Two digits, the first up to `most`, and a mark behind them.
fn is_pair(s: &[u8], at: usize, most: u8, mark: u8) -> bool
    requires { at + 3 ≤ length s.now }
    ensures { result ≡ both (within 48 most (get_or s.now at 0)) (both (within 48 57 (get_or s.now (at + 1) 0)) (within mark mark (get_or s.now (at + 2) 0))) }
{
    is_within(b'0', most, s[at])
        && is_within(b'0', b'9', s[at + 1])
        && is_within(mark, mark, s[at + 2])
}

fn is_thousand(s: &[u8], at: usize) -> bool
    requires { at + 3 ≤ length s.now }
    ensures { result ≡ both (within 48 57 (get_or s.now at 0)) (both (within 48 57 (get_or s.now (at + 1) 0)) (within 48 57 (get_or s.now (at + 2) 0))) }
{
    is_within(b'0', b'9', s[at])
        && is_within(b'0', b'9', s[at + 1])
        && is_within(b'0', b'9', s[at + 2])
}

// Whether the nine bytes from `at` are `mm:ss.mmm`.
fn is_minutes(s: &[u8], at: usize) -> bool
    requires { at + 9 ≤ length s.now }
    ensures { result ≡ shaped minutes (take 9 (drop at s.now)) }
{
    if !is_pair(s, at, b'5', b':') {
        return false;
    }
    if !is_pair(s, at + 3, b'5', b'.') {
        return false;
    }
    is_thousand(s, at + 6)
}

fn minutes_ms(s: &[u8], at: usize) -> u32
    requires { (at + 9 ≤ length s.now) × (shaped minutes (take 9 (drop at s.now)) ≡ true) }
    ensures { (result ≡ minutes_ms (take 9 (drop at s.now))) × (result ≤ 3599999) }
{
    let ms = two_digits(s, at + 6) * 10 + number_of(s[at + 8]);
    two_digits(s, at) * 60000 + two_digits(s, at + 3) * 1000 + ms
}

// The digits that a text begins with. A number above `most` stays `most`, so that no number of digits wraps.
pub fn read_digits(s: &[u8], most: u32) -> Digits
    requires { most ≤ 100000 }
    ensures { (result.count ≡ length (front digit s.now)) × (result.number ≡ min (value (front digit s.now)) most) }
{
    let mut number = 0;
    for (i, &b) in s.iter().enumerate() {
        if !is_within(b'0', b'9', b) {
            return Digits { count: i, number };
        }
        number = (number * 10 + number_of(b)).min(most);
    }
    Digits {
        count: s.len(),
        number,
    }
}

// The answer for a time.
fn capped_ms(t: u32) -> Option<u32>
    ensures { result ≡ Some (capped t) }
{
    Some(t.min(360000000))
}

// With hours of any number of digits in front of `mm:ss.mmm`.
fn read_long(s: &[u8]) -> Option<u32>
    ensures { result ≡ answered (hours_ms (front digit s.now) (behind digit s.now)) }
{
    let hours = read_digits(s, 100);
    let n = hours.count;
    if n < 2 {
        return None;
    }
    if s.len() - n != 10 {
        return None;
    }
    if s[n] != b':' {
        return None;
    }
    if !is_minutes(s, n + 1) {
        return None;
    }
    capped_ms(hours.number * 3600000 + minutes_ms(s, n + 1))
}

// `hh:mm:ss.mmm`, as most timestamps are.
fn read_usual(s: &[u8]) -> Option<u32>
    requires { length s.now ≡ 12 }
    ensures { result ≡ answered (hours_ms (front digit s.now) (behind digit s.now)) }
{
    if !is_pair(s, 0, b'9', b':') {
        return None;
    }
    if !is_minutes(s, 3) {
        return None;
    }
    Some(two_digits(s, 0) * 3600000 + minutes_ms(s, 3))
}

pub fn read_timestamp(s: &[u8]) -> Option<u32>
    ensures { result ≡ answered (time_of s.now) }
{
    if s.len() == 12 {
        return read_usual(s);
    }
    if s.len() != 9 {
        return read_long(s);
    }
    if !is_minutes(s, 0) {
        return None;
    }
    Some(minutes_ms(s, 0))
}

// Two digits, and a mark behind them.
fn put_pair(out: &mut [u8], at: usize, n: u32, mark: u8)
    requires { (at + 3 ≤ length out.old) × (n ≤ 99) }
    ensures { out.new ≡ wrote out.old at (two n ++ mark ∷ []) }
{
    out[at] = (48 + n / 10) as u8;
    out[at + 1] = (48 + n % 10) as u8;
    out[at + 2] = mark;
}

// Three digits.
fn put_thousand(out: &mut [u8], at: usize, n: u32)
    requires { (at + 3 ≤ length out.old) × (n ≤ 999) }
    ensures { out.new ≡ wrote out.old at (three n) }
{
    out[at] = (48 + n / 100) as u8;
    out[at + 1] = (48 + n % 100 / 10) as u8;
    out[at + 2] = (48 + n % 100 % 10) as u8;
}

// A time as `hh:mm:ss.mmm`.
pub fn put_timestamp(out: &mut [u8], at: usize, t: u32)
    requires { (at + 12 ≤ length out.old) × (t ≤ 359999999) }
    ensures { out.new ≡ wrote out.old at (time_text t) }
{
    put_pair(&mut *out, at, t / 3600000, b':');
    put_pair(&mut *out, at + 3, t / 60000 % 60, b':');
    put_pair(&mut *out, at + 6, t / 1000 % 60, b'.');
    put_thousand(&mut *out, at + 9, t % 1000);
}
