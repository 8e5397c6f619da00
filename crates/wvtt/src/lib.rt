// The judgement of a WebVTT sample.
#![tactic(auto)]

ghost use Rattle.std.specs.Prelude.{◌≡◌, not, List, ◌∷◌, ℕ, suc, ◌≤◌, ◌<◌, length, eqb};
ghost use Rattle.base.specs.Choice.{pick, both};
ghost use Rattle.verdict.specs.Judgement.{◌gives◌at◌, ◌then◌};
ghost use Rattle.boxes.specs.Boxes.{stopped_by, among};
ghost use Rattle.text.specs.Rules.{identifier_text, payload_text};
ghost use Rattle.text.specs.Beginnings.{identifier_begun, payload_begun};
ghost use Rattle.wvtt.specs.Kinds.{single};
ghost use Rattle.wvtt.specs.Sample.{judge_id, judge_text, judge_body, in_cue, judge_cue, in_sample, end_counts, judge_sample};
ghost use Rattle.wvtt.specs.Seen.{Marks};

use boxes::{Step, mark_kind, pass_boxes, step_at, stopped_by};
use fields::get32;
use text::judge_identifier;
use verdict::{Reason, Verdict, text_at};

pub const VTTC: u32 = 0x76747463;

pub const VTTE: u32 = 0x76747465;

pub const VSID: u32 = 0x76736964;

pub const IDEN: u32 = 0x6964656E;

pub const CTIM: u32 = 0x6374696D;

pub const STTG: u32 = 0x73747467;

pub const PAYL: u32 = 0x7061796C;

// Which boxes of a cue have been there.
#[derive(Clone, Copy)]
pub struct Seen {
    pub vsid: bool,
    pub iden: bool,
    pub ctim: bool,
    pub sttg: bool,
    pub payl: bool,
}

// The body of a `vsid`: 4 bytes, a number below 2^31.
fn judge_id(s: &[u8], place: usize, body: usize, next: usize) -> Verdict
    requires { (body ≤ next) × (next ≤ length s.now) }
    ensures { result ≡ judge_id s.now place body next }
{
    if next - body < 4 {
        return Reason::BytesMissing.refused(place);
    }
    if 4 < next - body {
        return Reason::BadSize.refused(place);
    }
    if 0x80000000 <= get32(s, body) {
        return Reason::BadValue.refused(place);
    }
    Ok(())
}

// A text under the identifier's rule.
fn judge_line(s: &[u8], place: usize, body: usize, next: usize) -> Verdict
    requires { (body ≤ next) × (next ≤ length s.now) }
    ensures { result ≡ judge_text identifier_text identifier_begun 255 s.now place body next }
{
    if 255 < next - body {
        return Reason::PastLimit.refused(place);
    }
    text_at(place, judge_identifier(&s[body..next]))
}

// The text of a `payl`.
fn judge_payload(s: &[u8], place: usize, body: usize, next: usize) -> Verdict
    requires { (body ≤ next) × (next ≤ length s.now) }
    ensures { result ≡ judge_text payload_text payload_begun 4095 s.now place body next }
{
    if 4095 < next - body {
        return Reason::PastLimit.refused(place);
    }
    text_at(place, text::judge_payload(&s[body..next]))
}

// The body of a box of a cue.
#[tactic(auto, unfolding(crate::specs::Sample::judge_body, crate::specs::Kinds::line))]
fn judge_body(s: &[u8], place: usize, kind: u32, body: usize, next: usize) -> Verdict
    requires { (body ≤ next) × (next ≤ length s.now) }
    ensures { result ≡ judge_body s.now place kind body next }
{
    match kind {
        VSID => judge_id(s, place, body, next),
        PAYL => judge_payload(s, place, body, next),
        IDEN | CTIM | STTG => judge_line(s, place, body, next),
        _ => Ok(()),
    }
}

// A box of this kind has been there, and may be there once only.
#[tactic(auto, unfolding(crate::specs::Kinds::single, crate::specs::Kinds::line))]
fn repeats(seen: Seen, kind: u32) -> bool
    ensures { (before : List ℕ) → Marks seen before → result ≡ both (single kind) (among kind before) }
{
    match kind {
        VSID => seen.vsid,
        PAYL => seen.payl,
        IDEN => seen.iden,
        CTIM => seen.ctim,
        STTG => seen.sttg,
        _ => false,
    }
}

fn with_kind(seen: Seen, kind: u32) -> Seen
    ensures { (before : List ℕ) → Marks seen before → Marks result (kind ∷ before) }
{
    Seen {
        vsid: mark_kind(seen.vsid, kind, VSID),
        iden: mark_kind(seen.iden, kind, IDEN),
        ctim: mark_kind(seen.ctim, kind, CTIM),
        sttg: mark_kind(seen.sttg, kind, STTG),
        payl: mark_kind(seen.payl, kind, PAYL),
    }
}

// A box of a cue, after those that have been there.
fn judge_part(s: &[u8], seen: Seen, place: usize, kind: u32, body: usize, next: usize) -> Verdict
    requires { (body ≤ next) × (next ≤ length s.now) }
    ensures { (before : List ℕ) → Marks seen before → result ≡ in_cue s.now before place kind body next }
{
    if repeats(seen, kind) {
        return Reason::KindTwice.refused(place);
    }
    judge_body(s, place, kind, body, next)
}

// The verdict on a cue where a step gives no box.
fn end_cue(t: Step, payload: bool, place: usize) -> Verdict
    ensures { result ≡ stopped_by t then (not payload gives 4 at place) }
{
    stopped_by(t)?;
    if payload {
        Ok(())
    } else {
        Reason::BoxMissing.refused(place)
    }
}

// A `vttc` at `place`, whose body goes from `from` to `end`.
pub fn judge_cue(s: &[u8], place: usize, from: usize, end: usize) -> Verdict
    requires { end ≤ length s.now }
    ensures { result ≡ judge_cue s.now place from end }
{
    let mut seen = Seen {
        vsid: false,
        iden: false,
        ctim: false,
        sttg: false,
        payl: false,
    };
    let mut at = from;
    loop {
        let t = step_at(s, at, end);
        let Step::Box { kind, body, next } = t else {
            return end_cue(t, seen.payl, place);
        };
        judge_part(s, seen, at, kind, body, next)?;
        seen = with_kind(seen, kind);
        at = next;
    }
}

// A box of a sample.
#[tactic(auto, unfolding(crate::specs::Sample::in_sample))]
fn judge_box(s: &[u8], place: usize, kind: u32, body: usize, next: usize) -> Verdict
    requires { next ≤ length s.now }
    ensures { (before : List ℕ) → result ≡ in_sample s.now before place kind body next }
{
    match kind {
        VTTC => judge_cue(s, place, body, next),
        VTTE => pass_boxes(s, body, next),
        _ => Ok(()),
    }
}

// One more, if the kind is the one that is counted.
fn count_kind(count: usize, kind: u32, wanted: u32) -> usize
    requires { count < 0xFFFFFFFFFFFFFFFF }
    ensures { result ≡ pick (eqb kind wanted) (suc count) count }
{
    if kind == wanted { count + 1 } else { count }
}

// The verdict on a sample where a step gives no box.
fn end_sample(t: Step, cues: usize, empties: usize) -> Verdict
    ensures { result ≡ stopped_by t then end_counts cues empties }
{
    stopped_by(t)?;
    match (cues, empties) {
        (0, 0) => Reason::BoxMissing.refused(0),
        (_, 0) | (0, 1) => Ok(()),
        _ => Reason::NotAlone.refused(0),
    }
}

// The verdict on a sample.
pub fn judge_sample(s: &[u8]) -> Verdict
    ensures { result ≡ judge_sample s.now }
{
    let end = s.len();
    let mut at = 0;
    let mut cues: usize = 0;
    let mut empties: usize = 0;
    loop {
        let t = step_at(s, at, end);
        let Step::Box { kind, body, next } = t else {
            return end_sample(t, cues, empties);
        };
        judge_box(s, at, kind, body, next)?;
        cues = count_kind(cues, kind, VTTC);
        empties = count_kind(empties, kind, VTTE);
        at = next;
    }
}
