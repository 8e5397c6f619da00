// The fonts of a `tx3g` sample entry: the body of its `ftab` box.
#![tactic(auto)]

ghost use Rattle.std.specs.Prelude.{◌≡◌, ◌+◌, ◌≤◌, ◌<◌, length};
ghost use Rattle.verdict.specs.Judgement.{each};
ghost use Rattle.fields.specs.BigEndian.{be};
ghost use Rattle.bodies.specs.Bodies.{filled};
ghost use Rattle.tx3g_fonts.specs.Fonts.{after_font, font_at, font_among, has_font, font_slots, Slotted, fresh_font, judge_fonts};

use bodies::judge_end;
use fields::{get8, get16};
use verdict::{Reason, Verdict};

// The place after the font that stands at `at`.
fn pass_font(s: &[u8], at: usize) -> usize
    requires { at + 3 ≤ length s.now }
    ensures { (result ≡ after_font s.now at) × (at + 3 ≤ result) × (result ≤ at + 258) }
{
    at + 3 + get8(s, at + 2) as usize
}

// Whether one of the first `count` fonts has this ID.
fn is_among(s: &[u8], body: usize, count: u32, id: u32) -> bool
    requires { font_at s.now body count ≤ length s.now }
    ensures { result ≡ font_among s.now body count id }
{
    let mut at = body + 2;
    for _k in 0..count {
        if get16(s, at) == id {
            return true;
        }
        at = pass_font(s, at);
    }
    false
}

// Whether the table whose body begins at `body` has a font of this ID.
pub fn has_font(s: &[u8], body: usize, id: u32) -> bool
    requires { font_at s.now body (be 2 s.now body) ≤ length s.now }
    ensures { result ≡ has_font s.now body id }
{
    let count = get16(s, body);
    is_among(s, body, count, id)
}

// Enters the IDs of the fonts into slots, each at its remainder by 256, so that most are found without a search.
pub fn enter_fonts(s: &[u8], body: usize, slots: &mut [u32])
    requires { (font_at s.now body (be 2 s.now body) ≤ length s.now) × (length slots.old ≡ 256) }
    ensures { slots.new ≡ font_slots s.now body (be 2 s.now body) slots.old }
{
    let count = get16(s, body);
    let mut at = body + 2;
    for _k in 0..count {
        let id = get16(s, at);
        slots[(id % 256) as usize] = id;
        at = pass_font(s, at);
    }
}

// The same as `has_font`, where the fonts are entered in slots: they are searched only if the ID is not in its slot.
pub fn has_font_by_slots(s: &[u8], body: usize, slots: &[u32], id: u32) -> bool
    requires { (font_at s.now body (be 2 s.now body) ≤ length s.now) × Slotted s.now body slots.now × (id < 65536) }
    ensures { result ≡ has_font s.now body id }
{
    slots[(id % 256) as usize] == id || has_font(s, body, id)
}

// Whether the fonts fill the body.
fn judge_walk(s: &[u8], place: usize, body: usize, next: usize) -> Verdict
    requires { (body ≤ next) × (next ≤ length s.now) }
    ensures { result ≡ filled place (font_at s.now body (be 2 s.now body)) next }
{
    if next - body < 2 {
        return Reason::BytesMissing.refused(place);
    }
    let count = get16(s, body);
    let mut at = body + 2;
    for _k in 0..count {
        if next - at < 3 {
            return Reason::BytesMissing.refused(place);
        }
        let end = pass_font(s, at);
        if next < end {
            return Reason::BytesMissing.refused(place);
        }
        at = end;
    }
    judge_end(place, at, next)
}

// Whether the first `count` IDs are distinct.
fn judge_ids(s: &[u8], place: usize, body: usize, count: u32) -> Verdict
    requires { font_at s.now body count ≤ length s.now }
    ensures { result ≡ each (fresh_font s.now place body) count }
{
    // The slots of the fonts before k, by the ID modulo 256: an ID whose slot is free has not stood earlier.
    let mut taken = [false; 256];
    let mut at = body + 2;
    for k in 0..count {
        let id = get16(s, at);
        let slot = (id % 256) as usize;
        if taken[slot] && is_among(s, body, k, id) {
            return Reason::BadValue.refused(place);
        }
        taken[slot] = true;
        at = pass_font(s, at);
    }
    Ok(())
}

// The body of an `ftab` at `place`, from `body` to `next`.
pub fn judge_fonts(s: &[u8], place: usize, body: usize, next: usize) -> Verdict
    requires { (body ≤ next) × (next ≤ length s.now) }
    ensures { result ≡ judge_fonts s.now place body next }
{
    judge_walk(s, place, body, next)?;
    let count = get16(s, body);
    if 256 < count {
        return Reason::PastLimit.refused(place);
    }
    judge_ids(s, place, body, count)
}
