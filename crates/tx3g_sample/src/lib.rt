// The reading of a `tx3g` sample: its character count, or the first fault and whose it is.
#![tactic(auto)]

ghost use Rattle.std.specs.Prelude.{◌≡◌, List, ℕ, ◌+◌, ◌≤◌, length};
ghost use Rattle.verdict.specs.Verdict.{Fine};
ghost use Rattle.fields.specs.BigEndian.{be};
ghost use Rattle.tx3g_fonts.specs.Fonts.{font_at, has_font};
ghost use Rattle.tx3g_entry.specs.Entry.{judge_entry};
ghost use Rattle.tx3g_seen.specs.Seen.{Marks};
ghost use Rattle.tx3g_sample.specs.Sample.{text_end, characters_in, judge_text, in_sample, judge_modifiers, modifiers_of, judge_sample, read_sample};
ghost use Rattle.tx3g_sample.specs.Terms.{text_read};

use boxes::{Step, step_at, stopped_by};
use characters::count_characters;
use fields::get16;
use tx3g_contents::is_known;
use tx3g_entry::{find_fonts, judge_entry};
use tx3g_rules::judge_body;
use tx3g_seen::{Seen, repeats, with_kind};
use verdict::{Reason, Refusal, Verdict, bad_text_at};

// The first fault of a sample and its entry, and whose it is.
#[derive(Clone, Copy)]
pub enum Fault {
    Entry(Refusal),
    Sample(Refusal),
}

// Where the text ends, and the modifier boxes begin.
pub fn text_end(s: &[u8]) -> usize
    requires { 2 ≤ length s.now }
    ensures { (result ≡ text_end s.now) × (2 ≤ result) × (result ≤ 65537) }
{
    2 + get16(s, 0) as usize
}

// The text, whose characters are counted.
fn read_text(s: &[u8]) -> Result<usize, Refusal>
    ensures { result ≡ text_read (judge_text s.now) (characters_in s.now) }
{
    if s.len() < 2 {
        return Err(Reason::BytesMissing.fault_at(0));
    }
    let end = text_end(s);
    if s.len() < end {
        return Err(Reason::BytesMissing.fault_at(0));
    }
    count_characters(&s[2..end]).map_err(|offset| bad_text_at(0, offset))
}

// A box of a sample, after those that have been there.
fn judge_part(
    e: &[u8],
    fonts: usize,
    s: &[u8],
    seen: Seen,
    place: usize,
    kind: u32,
    body: usize,
    next: usize,
    characters: usize,
) -> Verdict
    requires { (font_at e.now fonts (be 2 e.now fonts) ≤ length e.now) × (body ≤ next) × (next ≤ length s.now) }
    ensures { (before : List ℕ) → Marks seen before → result ≡ in_sample (has_font e.now fonts) characters s.now before place kind body next }
{
    if repeats(seen, kind) {
        Reason::KindTwice.refused(place)
    } else if is_known(kind) {
        judge_body(e, fonts, s, place, kind, body, next, characters)
    } else {
        Ok(())
    }
}

// The modifier boxes from `from` on, beside the fonts that stand at `fonts` in the entry.
fn judge_modifiers(e: &[u8], fonts: usize, s: &[u8], from: usize, characters: usize) -> Verdict
    requires { font_at e.now fonts (be 2 e.now fonts) ≤ length e.now }
    ensures { result ≡ modifiers_of (has_font e.now fonts) characters s.now from }
{
    let end = s.len();
    let mut seen = Seen {
        styl: false,
        hclr: false,
        krok: false,
        dlay: false,
        tbox: false,
        twrp: false,
    };
    let mut at = from;
    loop {
        let t = step_at(s, at, end);
        let Step::Box { kind, body, next } = t else {
            return stopped_by(t);
        };
        judge_part(e, fonts, s, seen, at, kind, body, next, characters)?;
        seen = with_kind(seen, kind);
        at = next;
    }
}

// The sample beside an entry without fault, which has its fonts.
fn judge_boxes(e: &[u8], s: &[u8], characters: usize) -> Verdict
    requires { (judge_entry e.now ≡ Fine) × (2 ≤ length s.now) }
    ensures { result ≡ judge_modifiers e.now characters s.now }
{
    let Some(fonts) = find_fonts(e)? else {
        return Ok(());
    };
    judge_modifiers(e, fonts, s, text_end(s), characters)
}

// The characters of a sample beside an entry without fault; or its first fault.
fn read_beside(e: &[u8], s: &[u8]) -> Result<usize, Refusal>
    requires { judge_entry e.now ≡ Fine }
    ensures { result ≡ text_read (judge_sample e.now s.now) (characters_in s.now) }
{
    let characters = read_text(s)?;
    judge_boxes(e, s, characters)?;
    Ok(characters)
}

// The reading of a sample beside its entry: the entry is judged first.
pub fn read_sample(e: &[u8], s: &[u8]) -> Result<usize, Fault>
    ensures { result ≡ read_sample e.now s.now }
{
    judge_entry(e).map_err(Fault::Entry)?;
    read_beside(e, s).map_err(Fault::Sample)
}

// The verdict on a sample beside an entry without fault: for a track, whose entry is judged once.
pub fn judge_beside(e: &[u8], s: &[u8]) -> Verdict
    requires { judge_entry e.now ≡ Fine }
    ensures { result ≡ judge_sample e.now s.now }
{
    read_beside(e, s)?;
    Ok(())
}
