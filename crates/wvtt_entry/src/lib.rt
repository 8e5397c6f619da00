// A `wvtt` sample entry: its judgement, and what it holds.
#![tactic(auto)]

ghost use Rattle.std.specs.Prelude.{◌≡◌, not, List, [], ℕ, ◌≤◌, length, eqb};
ghost use Rattle.base.specs.Choice.{any_of, both};
ghost use Rattle.verdict.specs.Judgement.{◌gives◌at◌, ◌then◌};
ghost use Rattle.boxes.specs.Boxes.{boxes_in, judged, stopped_by, among};
ghost use Rattle.wvtt_entry.specs.Entry.{vtt_c, vlab, judge_content, in_entry, end_entry, judge_entry};
ghost use Rattle.wvtt_entry.specs.Reading.{first_body, held_by, read_entry};

use boxes::{Part, Step, mark_kind, step_at, stopped_by};
use entry_head::judge_head;
use fields::get16;
use text::{judge_configuration, judge_label};
use verdict::{Reason, Refusal, Verdict, text_at};

pub const WVTT: u32 = 0x77767474;

pub const CONFIGURATION: u32 = 0x76747443;

pub const LABEL: u32 = 0x766C6162;

// No bytes.
const NOWHERE: Part = Part { from: 0, end: 0 };

// The data reference index, and where the texts of the configuration and of the label stand, if there is a label.
#[derive(Clone, Copy)]
pub struct Entry {
    pub index: u32,
    pub configuration: Part,
    pub label: Option<Part>,
}

// The text of a box.
#[tactic(auto, unfolding(crate::specs::Entry::judge_content, boxes::specs::Boxes::part))]
fn judge_content(e: &[u8], place: usize, kind: u32, body: usize, next: usize) -> Verdict
    requires { (body ≤ next) × (next ≤ length e.now) }
    ensures { result ≡ judge_content e.now place kind body next }
{
    match kind {
        CONFIGURATION => text_at(place, judge_configuration(&e[body..next])),
        LABEL => text_at(place, judge_label(&e[body..next])),
        _ => Ok(()),
    }
}

// Whether a box of this kind has been there, of those that may be there once only.
fn repeats(kind: u32, configured: bool, labelled: bool) -> bool
    ensures { (before : List ℕ) → configured ≡ among vtt_c before → labelled ≡ among vlab before → result ≡ both (any_of (eqb kind vtt_c) (eqb kind vlab)) (among kind before) }
{
    match kind {
        CONFIGURATION => configured,
        LABEL => labelled,
        _ => false,
    }
}

// A box of an entry, after those that have been there.
fn judge_box(
    e: &[u8],
    configured: bool,
    labelled: bool,
    place: usize,
    kind: u32,
    body: usize,
    next: usize,
) -> Verdict
    requires { (body ≤ next) × (next ≤ length e.now) }
    ensures { (before : List ℕ) → configured ≡ among vtt_c before → labelled ≡ among vlab before → result ≡ in_entry e.now before place kind body next }
{
    if repeats(kind, configured, labelled) {
        return Reason::KindTwice.refused(place);
    }
    judge_content(e, place, kind, body, next)
}

// The verdict on an entry where a step gives no box.
fn end_entry(t: Step, configured: bool) -> Verdict
    ensures { result ≡ stopped_by t then (not configured gives 4 at 0) }
{
    stopped_by(t)?;
    if configured {
        Ok(())
    } else {
        Reason::BoxMissing.refused(0)
    }
}

// The boxes of an entry.
fn judge_boxes(e: &[u8]) -> Verdict
    requires { 16 ≤ length e.now }
    ensures { result ≡ judged (in_entry e.now) end_entry [] (boxes_in e.now 16 (length e.now)) }
{
    let end = e.len();
    let mut configured = false;
    let mut labelled = false;
    let mut at = 16;
    loop {
        let t = step_at(e, at, end);
        let Step::Box { kind, body, next } = t else {
            return end_entry(t, configured);
        };
        judge_box(e, configured, labelled, at, kind, body, next)?;
        configured = mark_kind(configured, kind, CONFIGURATION);
        labelled = mark_kind(labelled, kind, LABEL);
        at = next;
    }
}

// The verdict on a sample entry.
pub fn judge_entry(e: &[u8]) -> Verdict
    ensures { result ≡ judge_entry e.now }
{
    judge_head(e, 16, WVTT)?;
    judge_boxes(e)
}

// The body of the first box of a kind, among the boxes from `from` to the end.
fn find_part(e: &[u8], from: usize, wanted: u32) -> Option<Part>
    ensures { result ≡ first_body wanted (boxes_in e.now from (length e.now)) }
{
    let end = e.len();
    let mut at = from;
    loop {
        let t = step_at(e, at, end);
        let Step::Box { kind, body, next } = t else {
            return None;
        };
        if kind == wanted {
            return Some(Part {
                from: body,
                end: next,
            });
        }
        at = next;
    }
}

// What an entry without fault holds.
#[tactic(auto, unfolding(crate::specs::Reading::held_by, crate::specs::Reading::entry_boxes))]
fn read_whole(e: &[u8]) -> Entry
    requires { 16 ≤ length e.now }
    ensures { result ≡ held_by e.now }
{
    let configuration = find_part(e, 16, CONFIGURATION);
    let label = find_part(e, 16, LABEL);
    Entry {
        index: get16(e, 14),
        configuration: configuration.unwrap_or(NOWHERE),
        label,
    }
}

// What a sample entry holds, or its refusal.
#[tactic(auto, unfolding(crate::specs::Reading::read_entry))]
pub fn read_entry(e: &[u8]) -> Result<Entry, Refusal>
    ensures { result ≡ read_entry e.now }
{
    judge_entry(e)?;
    Ok(read_whole(e))
}
