// The characters of a 3GPP text: UTF-16 after the mark FE FF, else UTF-8.
#![tactic(auto)]

ghost use Rattle.std.specs.Prelude.{◌≡◌, true, ◌+◌, ◌-◌, ◌≤◌, length};
ghost use Rattle.base.specs.Choice.{pick};
ghost use Rattle.viable.specs.FirstBad.{judged_by};
ghost use Rattle.utf8.specs.Utf8.{utf8, utf8_begun};
ghost use Rattle.utf8.specs.Strings.{starts_with};
ghost use Rattle.characters.specs.Characters.{is_tail, firsts, is_low, same_test, mark, count_by, characters_of};
ghost use Rattle.characters.specs.Counting.{firsts_in};

use ascii::{is_ascii, is_within};
use text::agreeing;
use utf8::{Rule, judge_rule};
use viable::Judged;

// 1 for a byte that begins a character of UTF-8, else 0.
#[tactic(auto, unfolding(crate::specs::Characters::is_tail))]
fn first_byte(b: u8) -> usize
    ensures { (result ≡ pick (is_tail b) 0 1) × (result ≤ 1) }
{
    usize::from(!is_within(0x80, 0xBF, b))
}

// How many of the eight bytes from i begin a character. Each is written out: the edit `eighth_not_counted` tells the eighth from the seventh.
fn count8(s: &[u8], i: usize) -> usize
    requires { i + 8 ≤ length s.now }
    ensures { (result ≡ firsts_in s.now i 8) × (result ≤ 8) }
{
    first_byte(s[i])
        + first_byte(s[i + 1])
        + first_byte(s[i + 2])
        + first_byte(s[i + 3])
        + first_byte(s[i + 4])
        + first_byte(s[i + 5])
        + first_byte(s[i + 6])
        + first_byte(s[i + 7])
}

// How many bytes from `from` on begin a character.
fn count_from(s: &[u8], from: usize) -> usize
    requires { from ≤ length s.now }
    ensures { result ≡ firsts_in s.now from (length s.now - from) }
{
    let mut n = 0;
    for i in from..s.len() {
        n += first_byte(s[i]);
    }
    n
}

// How many bytes of a text begin a character of UTF-8.
pub fn count_firsts(s: &[u8]) -> usize
    ensures { result ≡ firsts s.now }
{
    let whole = s.len() / 8 * 8;
    let mut n = 0;
    for i in (0..whole).step_by(8) {
        n += count8(s, i);
    }
    n + count_from(s, whole)
}

// Whether h is the high byte of a low surrogate.
fn is_low(h: u8) -> bool
    ensures { result ≡ is_low h }
{
    is_within(0xDC, 0xDF, h)
}

// Whether a unit with the high byte h may stand where a low surrogate is due, or not due.
fn is_expected(due: bool, h: u8) -> bool
    ensures { result ≡ same_test (is_low h) due }
{
    is_low(h) == due
}

// 1 for the high byte of a unit that begins a character of UTF-16, else 0.
fn first_unit(h: u8) -> usize
    ensures { (result ≡ pick (is_low h) 0 1) × (result ≤ 1) }
{
    usize::from(!is_low(h))
}

// The characters of UTF-16 after its mark.
fn count_utf16(s: &[u8]) -> Result<usize, usize>
    requires { starts_with mark s.now ≡ true }
    ensures { result ≡ characters_of s.now }
{
    let mut due = false;
    let mut n = 0;
    let mut i = 2;
    // What is left after the loop is judged by its last place.
    while i + 1 < s.len() {
        if !is_expected(due, s[i]) {
            return Err(i);
        }
        n += first_unit(s[i]);
        due = is_within(0xD8, 0xDB, s[i]);
        i += 2;
    }
    if i < s.len() {
        Err(if is_expected(due, s[i]) { s.len() } else { i })
    } else if due {
        Err(s.len())
    } else {
        Ok(n)
    }
}

// The characters of UTF-8.
fn count_utf8(s: &[u8]) -> Result<usize, usize>
    ensures { result ≡ count_by (judged_by utf8 utf8_begun s.now) (firsts s.now) }
{
    if is_ascii(s) {
        return Ok(s.len());
    }
    match judge_rule(s, Rule::Any) {
        Ok(()) => Ok(count_firsts(s)),
        Err(offset) => Err(offset),
    }
}

// The characters of a 3GPP text.
pub fn count_characters(s: &[u8]) -> Result<usize, usize>
    ensures { result ≡ characters_of s.now }
{
    match agreeing(s, &[0xFE, 0xFF]) {
        2 => count_utf16(s),
        // FE is in no UTF-8, but may begin the mark.
        1 => Err(1),
        _ => count_utf8(s),
    }
}
