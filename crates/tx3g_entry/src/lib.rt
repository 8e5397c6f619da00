// The judgement of a `tx3g` sample entry.
#![tactic(auto)]

ghost use Rattle.std.specs.Prelude.{◌≡◌, List, [], ℕ, ◌≤◌, length, Ok, Some};
ghost use Rattle.fields.specs.BigEndian.{be};
ghost use Rattle.boxes.specs.Boxes.{judged, among};
ghost use Rattle.tx3g_fonts.specs.Fonts.{font_at};
ghost use Rattle.tx3g_entry.specs.Entry.{ftab, judge_fixed, justified_entry, plain_entry, in_entry, nothing_more, entry_boxes, fonts_of, end_entry, judge_entry};

use bodies::find_body;
use boxes::{Step, mark_kind, step_at, stopped_by};
use entry_head::judge_head;
use fields::get16;
use signed::{is_justified, is_ordered};
use tx3g_fonts::{has_font, judge_fonts};
use verdict::{Reason, Refusal, Verdict};

pub const TX3G: u32 = 0x74783367;

pub const FTAB: u32 = 0x66746162;

// Whether both justifications are allowed.
fn has_justification(e: &[u8]) -> bool
    requires { 46 ≤ length e.now }
    ensures { result ≡ justified_entry e.now }
{
    is_justified(e, 20) && is_justified(e, 21)
}

// Whether the default text box is ordered, and the default style begins and ends at 0.
fn has_defaults(e: &[u8]) -> bool
    requires { 46 ≤ length e.now }
    ensures { result ≡ plain_entry e.now }
{
    is_ordered(e, 26) && get16(e, 34) == 0 && get16(e, 36) == 0
}

// The fixed fields.
fn judge_fixed(e: &[u8]) -> Verdict
    ensures { result ≡ judge_fixed e.now }
{
    judge_head(e, 46, TX3G)?;
    if !has_justification(e) {
        Reason::BadValue.refused(0)
    } else if has_defaults(e) {
        Ok(())
    } else {
        Reason::BadRange.refused(0)
    }
}

// A box of an entry; `seen` says whether an `ftab` has been there.
fn judge_box(e: &[u8], seen: bool, place: usize, kind: u32, body: usize, next: usize) -> Verdict
    requires { (body ≤ next) × (next ≤ length e.now) }
    ensures { (before : List ℕ) → seen ≡ among ftab before → result ≡ in_entry e.now before place kind body next }
{
    if kind != FTAB {
        Ok(())
    } else if seen {
        Reason::KindTwice.refused(place)
    } else {
        judge_fonts(e, place, body, next)
    }
}

// The boxes of an entry.
fn judge_boxes(e: &[u8]) -> Verdict
    ensures { result ≡ judged (in_entry e.now) nothing_more [] (entry_boxes e.now) }
{
    let end = e.len();
    let mut at = 46;
    let mut seen = false;
    loop {
        let t = step_at(e, at, end);
        let Step::Box { kind, body, next } = t else {
            return stopped_by(t);
        };
        judge_box(e, seen, at, kind, body, next)?;
        seen = mark_kind(seen, kind, FTAB);
        at = next;
    }
}

// Where the body of the `ftab` begins.
pub fn find_fonts(e: &[u8]) -> Result<Option<usize>, Refusal>
    ensures { result ≡ fonts_of e.now }
{
    find_body(e, 46, FTAB)
}

// The default font, beside the fonts that stand at `fonts`.
fn judge_default(e: &[u8], fonts: usize) -> Verdict
    requires { (46 ≤ length e.now) × (font_at e.now fonts (be 2 e.now fonts) ≤ length e.now) }
    ensures { result ≡ end_entry e.now (Ok (Some fonts)) }
{
    if has_font(e, fonts, get16(e, 38)) {
        Ok(())
    } else {
        Reason::BadValue.refused(0)
    }
}

// The verdict on a sample entry.
pub fn judge_entry(e: &[u8]) -> Verdict
    ensures { result ≡ judge_entry e.now }
{
    judge_fixed(e)?;
    judge_boxes(e)?;
    let Some(fonts) = find_fonts(e)? else {
        return Reason::BoxMissing.refused(0);
    };
    judge_default(e, fonts)
}
