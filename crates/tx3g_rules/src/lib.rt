// The rules for the bodies of modifier boxes: fonts, ranges and order.
#![tactic(auto)]

ghost use Rattle.std.specs.Prelude.{◌≡◌, ◌+◌, ◌≤◌, length, leb};
ghost use Rattle.base.specs.Choice.{both};
ghost use Rattle.verdict.specs.Judgement.{each};
ghost use Rattle.fields.specs.BigEndian.{be};
ghost use Rattle.tx3g_fonts.specs.Fonts.{font_at, has_font, Slotted};
ghost use Rattle.tx3g_contents.specs.Contents.{styles_end, karaoke_end, content_end};
ghost use Rattle.tx3g_rules.specs.Rules.{in_range, range_fault, box_fault, wrap_fault, style_fault, judge_style, turn_fault, judge_turn, judge_records, judge_body};

use fields::{get8, get16, get32};
use signed::is_ordered;
use tx3g_contents::{KROK, STYL, TBOX, TWRP, is_ranged, judge_content};
use tx3g_fonts::{enter_fonts, has_font_by_slots};
use verdict::{Reason, Verdict};

// Whether the range at `at` has start ≤ end ≤ the character count.
fn is_range(s: &[u8], at: usize, characters: usize) -> bool
    requires { at + 4 ≤ length s.now }
    ensures { result ≡ in_range characters s.now at }
{
    let end = get16(s, at + 2);
    get16(s, at) <= end && end as usize <= characters
}

// Whether a style begins at or after the previous end, and has a range.
fn follows_style(s: &[u8], at: usize, previous: u32, characters: usize) -> bool
    requires { at + 12 ≤ length s.now }
    ensures { result ≡ both (leb previous (be 2 s.now at)) (in_range characters s.now at) }
{
    previous <= get16(s, at) && is_range(s, at, characters)
}

// The style at `at`, after one that ends at `previous`.
fn judge_style(
    e: &[u8],
    fonts: usize,
    slots: &[u32],
    s: &[u8],
    place: usize,
    previous: u32,
    at: usize,
    characters: usize,
) -> Verdict
    requires { (font_at e.now fonts (be 2 e.now fonts) ≤ length e.now) × Slotted e.now fonts slots.now × (at + 12 ≤ length s.now) }
    ensures { result ≡ style_fault (has_font e.now fonts) characters s.now place previous at }
{
    let font = get16(s, at + 4);
    if !has_font_by_slots(e, fonts, slots, font) {
        Reason::BadValue.refused(place)
    } else if follows_style(s, at, previous, characters) {
        Ok(())
    } else {
        Reason::BadRange.refused(place)
    }
}

// The styles of a `styl`, one after the other. The fonts are entered in slots first, so that a style's is mostly found at once.
fn judge_styles(
    e: &[u8],
    fonts: usize,
    s: &[u8],
    place: usize,
    body: usize,
    characters: usize,
) -> Verdict
    requires { (font_at e.now fonts (be 2 e.now fonts) ≤ length e.now) × (styles_end s.now body ≤ length s.now) }
    ensures { result ≡ each (judge_style (has_font e.now fonts) characters s.now place body) (be 2 s.now body) }
{
    // 65536 is no ID.
    let mut slots = [65536u32; 256];
    enter_fonts(e, fonts, &mut slots);
    let count = get16(s, body) as usize;
    let mut previous = 0;
    for k in 0..count {
        let at = body + 2 + k * 12;
        judge_style(e, fonts, &slots, s, place, previous, at, characters)?;
        previous = get16(s, at + 2);
    }
    Ok(())
}

// The karaoke entry at `at`, after the time `previous`.
fn judge_turn(s: &[u8], place: usize, previous: u32, at: usize, characters: usize) -> Verdict
    requires { at + 8 ≤ length s.now }
    ensures { result ≡ turn_fault characters s.now place previous at }
{
    if previous <= get32(s, at) && is_range(s, at + 4, characters) {
        Ok(())
    } else {
        Reason::BadRange.refused(place)
    }
}

// The entries of a `krok`, one after the other.
fn judge_karaoke(s: &[u8], place: usize, body: usize, characters: usize) -> Verdict
    requires { karaoke_end s.now body ≤ length s.now }
    ensures { result ≡ each (judge_turn characters s.now place body) (be 2 s.now (body + 4)) }
{
    let count = get16(s, body + 4) as usize;
    let mut previous = get32(s, body);
    for k in 0..count {
        let at = body + 6 + k * 8;
        judge_turn(s, place, previous, at, characters)?;
        previous = get32(s, at);
    }
    Ok(())
}

fn judge_range(s: &[u8], place: usize, body: usize, characters: usize) -> Verdict
    requires { body + 4 ≤ length s.now }
    ensures { result ≡ range_fault characters s.now place body }
{
    if is_range(s, body, characters) {
        Ok(())
    } else {
        Reason::BadRange.refused(place)
    }
}

fn judge_text_box(s: &[u8], place: usize, body: usize) -> Verdict
    requires { body + 8 ≤ length s.now }
    ensures { result ≡ box_fault s.now place body }
{
    if is_ordered(s, body) {
        Ok(())
    } else {
        Reason::BadRange.refused(place)
    }
}

fn judge_wrap(s: &[u8], place: usize, body: usize) -> Verdict
    requires { body + 1 ≤ length s.now }
    ensures { result ≡ wrap_fault s.now place body }
{
    if 1 < get8(s, body) {
        Reason::BadValue.refused(place)
    } else {
        Ok(())
    }
}

// The values of a body that is filled.
fn judge_records(
    e: &[u8],
    fonts: usize,
    s: &[u8],
    place: usize,
    kind: u32,
    body: usize,
    characters: usize,
) -> Verdict
    requires { (font_at e.now fonts (be 2 e.now fonts) ≤ length e.now) × (content_end s.now kind body ≤ length s.now) }
    ensures { result ≡ judge_records (has_font e.now fonts) characters s.now place kind body }
{
    match kind {
        STYL => judge_styles(e, fonts, s, place, body, characters),
        KROK => judge_karaoke(s, place, body, characters),
        TBOX => judge_text_box(s, place, body),
        TWRP => judge_wrap(s, place, body),
        _ if is_ranged(kind) => judge_range(s, place, body, characters),
        _ => Ok(()),
    }
}

// The body of a modifier box at `place`, from `body` to `next`.
pub fn judge_body(
    e: &[u8],
    fonts: usize,
    s: &[u8],
    place: usize,
    kind: u32,
    body: usize,
    next: usize,
    characters: usize,
) -> Verdict
    requires { (font_at e.now fonts (be 2 e.now fonts) ≤ length e.now) × (body ≤ next) × (next ≤ length s.now) }
    ensures { result ≡ judge_body (has_font e.now fonts) characters s.now place kind body next }
{
    judge_content(s, place, kind, body, next)?;
    judge_records(e, fonts, s, place, kind, body, characters)
}
