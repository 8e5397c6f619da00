// Signed fields of 16 and 8 bits, in two's complement: a text box, and a justification.
#![tactic(auto)]

ghost use Rattle.std.specs.Prelude.{◌≡◌, ◌+◌, ◌≤◌, ◌<◌, length};
ghost use Rattle.std.specs.Int.Signed.{le_z};
ghost use Rattle.fields.specs.BigEndian.{be};
ghost use Rattle.signed.specs.Signed.{signed, signed16, signed8, ordered, justified, edges_at};
ghost use Rattle.signed.specs.Rank.{shift16};

use fields::{get8, get16};

// A text box: where its edges lie.
#[derive(Clone, Copy)]
pub struct Edges {
    pub top: i32,
    pub left: i32,
    pub bottom: i32,
    pub right: i32,
}

// The place of v in the order of signed numbers, from 0.
fn rank(v: u32) -> u32
    requires { v < 65536 }
    ensures { (result ≡ shift16 v) × (result < 65536) }
{
    if v < 32768 { v + 32768 } else { v - 32768 }
}

// Whether the field at `a` is at most the one at `b`, as signed numbers.
fn at_most(s: &[u8], a: usize, b: usize) -> bool
    requires { (a + 2 ≤ length s.now) × (b + 2 ≤ length s.now) }
    ensures { result ≡ le_z (signed16 (be 2 s.now a)) (signed16 (be 2 s.now b)) }
{
    rank(get16(s, a)) <= rank(get16(s, b))
}

// Whether the text box at `at` has top ≤ bottom and left ≤ right.
pub fn is_ordered(s: &[u8], at: usize) -> bool
    requires { at + 8 ≤ length s.now }
    ensures { result ≡ ordered s.now at }
{
    at_most(s, at, at + 4) && at_most(s, at + 2, at + 6)
}

// Whether the byte at `at` is -1, 0 or 1.
pub fn is_justified(s: &[u8], at: usize) -> bool
    requires { at < length s.now }
    ensures { result ≡ justified (be 1 s.now at) }
{
    let b = get8(s, at);
    b == 255 || b < 2
}

// A number in two's complement, `half` of whose values are negative.
#[tactic(auto, using(crate::proofs::Laws::large_fits, crate::proofs::Laws::large_kept))]
fn signed(half: u32, v: u32) -> i32
    requires { (half ≤ 32768) × (v < half + half) }
    ensures { result ≡ signed half v }
{
    if v < half {
        v as i32
    } else {
        v as i32 - (2 * half) as i32
    }
}

// The byte at `at`.
pub fn get_signed8(s: &[u8], at: usize) -> i32
    requires { at < length s.now }
    ensures { (result ≡ signed8 (be 1 s.now at)) × (be 1 s.now at < 256) }
{
    signed(128, get8(s, at))
}

// The two bytes at `at`.
pub fn get_signed16(s: &[u8], at: usize) -> i32
    requires { at + 2 ≤ length s.now }
    ensures { (result ≡ signed16 (be 2 s.now at)) × (be 2 s.now at < 65536) }
{
    signed(32768, get16(s, at))
}

// The text box at `at`.
pub fn read_edges(s: &[u8], at: usize) -> Edges
    requires { at + 8 ≤ length s.now }
    ensures { result ≡ edges_at s.now at }
{
    Edges {
        top: get_signed16(s, at),
        left: get_signed16(s, at + 2),
        bottom: get_signed16(s, at + 4),
        right: get_signed16(s, at + 6),
    }
}
