// Words in the tag profile: given bytes, and escapes. Document 02, K11. A reader answers the place behind what it read; or the first byte that no text of the profile could have there, the length of a text that ends too early.
#![tactic(auto)]

ghost use Rattle.std.specs.Prelude.{◌≡◌, ◌⊎◌, ◌+◌, ◌≤◌, ◌<◌, eqb, length, get_or, Ok};
ghost use Rattle.base.specs.Choice.{pick};
ghost use Rattle.profile.specs.Machine.{State, Amp, AmpL, lit};
ghost use Rattle.profile.specs.Readings.{Reads, Anywhere, goes_on};

// The bytes of w, one after another.
pub fn read_word(s: &[u8], at: usize, w: &[u8]) -> Result<usize, usize>
    requires { at ≤ length s.now }
    ensures { Reads Anywhere s.now at result (λ x. State.at (lit w.now x.0) x.1 x.2) goes_on }
{
    for (i, &b) in w.iter().enumerate() {
        if i >= s.len() - at || s[at + i] != b {
            return Err(at + i);
        }
    }
    Ok(at + w.len())
}

// An escape behind &l: t; or rm;
fn read_escape_l(s: &[u8], at: usize) -> Result<usize, usize>
    requires { at ≤ length s.now }
    ensures { Reads Anywhere s.now at result (λ x. State.at (AmpL x.0) x.1 x.2) goes_on }
{
    if s.len() <= at {
        return Err(at);
    }
    let b = s[at];
    match b {
        b't' => read_word(s, at + 1, b";"),
        b'r' => read_word(s, at + 1, b"m;"),
        _ => Err(at),
    }
}

// An escape behind its &, byte by byte.
fn spell_escape(s: &[u8], at: usize) -> Result<usize, usize>
    requires { at ≤ length s.now }
    ensures { Reads Anywhere s.now at result (λ x. State.at (Amp x.0) x.1 x.2) goes_on }
{
    if s.len() <= at {
        return Err(at);
    }
    let b = s[at];
    match b {
        b'a' => read_word(s, at + 1, b"mp;"),
        b'g' => read_word(s, at + 1, b"t;"),
        b'l' => read_escape_l(s, at + 1),
        b'n' => read_word(s, at + 1, b"bsp;"),
        b'r' => read_word(s, at + 1, b"lm;"),
        _ => Err(at),
    }
}

fn byte(s: &[u8], at: usize) -> u64
    requires { at < length s.now }
    ensures { (result ≡ get_or s.now at 0) × (result < 256) }
{
    u64::from(s[at])
}

// 1 for equal numbers, else 0.
fn same(x: u64, w: u64) -> usize
    ensures { (result ≡ pick (eqb x w) 1 0) × (result ≤ 1) }
{
    usize::from(x == w)
}

// The length of the escape that begins here, or 0 for none. It does not branch on what stands here: escapes follow one another in no order.
fn escape_length(s: &[u8], at: usize) -> usize
    requires { at + 5 ≤ length s.now }
    ensures { (result ≡ 0) ⊎ Reads Anywhere s.now at (Ok (at + result)) (λ x. State.at (Amp x.0) x.1 x.2) goes_on }
{
    let three = (byte(s, at) * 256 + byte(s, at + 1)) * 256 + byte(s, at + 2);
    let four = three * 256 + byte(s, at + 3);
    let five = four * 256 + byte(s, at + 4);
    let lt = same(three, 0x6C743B);
    let gt = same(three, 0x67743B);
    let amp = same(four, 0x616D703B);
    let lrm = same(four, 0x6C726D3B);
    let rlm = same(four, 0x726C6D3B);
    let nbsp = same(five, 0x6E6273703B);
    3 * (lt + gt) + 4 * (amp + lrm + rlm) + 5 * nbsp
}

// An escape behind its &: amp; gt; lt; lrm; nbsp; or rlm;
pub fn read_escape(s: &[u8], at: usize) -> Result<usize, usize>
    requires { at ≤ length s.now }
    ensures { Reads Anywhere s.now at result (λ x. State.at (Amp x.0) x.1 x.2) goes_on }
{
    if 5 <= s.len() - at {
        let n = escape_length(s, at);
        if n != 0 {
            return Ok(at + n);
        }
    }
    spell_escape(s, at)
}
