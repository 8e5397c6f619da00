// The cues of a WebVTT sample, one by one from left to right.
#![tactic(auto)]

ghost use Rattle.std.specs.Prelude.{◌≡◌, ◌≤◌, length};
ghost use Rattle.boxes.specs.Boxes.{boxes_in, stopped_by};
ghost use Rattle.wvtt_cues.specs.Cues.{with_id, if_whole, inner_of, cue_by, next_cue, placed};
ghost use Rattle.wvtt_cues.specs.Terms.{ended, places_of};

use boxes::{Part, Step, step_at, stopped_by};
use fields::get32;
use verdict::{Refusal, Verdict};
use wvtt::{IDEN, PAYL, STTG, VSID, VTTC};

// A cue: its ID, if it is named, and where its three texts stand.
#[derive(Clone, Copy)]
pub struct Parts {
    // `named` beside `id`, and 0 where there is no ID: so the C interface gives them
    pub named: bool,
    pub id: u32,
    pub identifier: Part,
    pub settings: Part,
    pub payload: Part,
}

// Where the bodies of a cue's boxes stand.
#[derive(Clone, Copy)]
pub struct Places {
    pub vsid: Part,
    pub iden: Part,
    pub sttg: Part,
    pub payl: Part,
}

// The part of the box at hand, if it is of the kind that is wanted.
#[tactic(auto, unfolding(crate::specs::Cues::placed))]
fn place_part(part: Part, kind: u32, wanted: u32, from: usize, end: usize) -> Part
    ensures { result ≡ placed kind wanted from end part }
{
    if kind == wanted {
        Part { from, end }
    } else {
        part
    }
}

// The places with the box at hand.
fn place_box(places: Places, kind: u32, from: usize, end: usize) -> Places
    ensures { result ≡ places_of places kind from end }
{
    Places {
        vsid: place_part(places.vsid, kind, VSID, from, end),
        iden: place_part(places.iden, kind, IDEN, from, end),
        sttg: place_part(places.sttg, kind, STTG, from, end),
        payl: place_part(places.payl, kind, PAYL, from, end),
    }
}

// The cue whose boxes stand at these places.
#[tactic(auto, unfolding(crate::specs::Cues::with_id))]
fn name_parts(s: &[u8], places: Places) -> Parts
    requires { places.vsid.end ≤ length s.now }
    ensures { result ≡ with_id s.now places.vsid places.iden places.sttg places.payl }
{
    let vsid = places.vsid;
    let named = vsid.from <= vsid.end && vsid.end - vsid.from == 4;
    Parts {
        named,
        id: if named { get32(s, vsid.from) } else { 0 },
        identifier: places.iden,
        settings: places.sttg,
        payload: places.payl,
    }
}

// The cue whose box's body goes from `from` to `end`.
pub fn read_parts(s: &[u8], from: usize, end: usize) -> Result<Parts, Refusal>
    requires { end ≤ length s.now }
    ensures { result ≡ inner_of s.now (boxes_in s.now from end) }
{
    let nowhere = Part { from: 0, end: 0 };
    let mut places = Places {
        vsid: nowhere,
        iden: nowhere,
        sttg: nowhere,
        payl: nowhere,
    };
    let mut at = from;
    loop {
        let t = step_at(s, at, end);
        let Step::Box { kind, body, next } = t else {
            stopped_by(t)?;
            return Ok(name_parts(s, places));
        };
        places = place_box(places, kind, body, next);
        at = next;
    }
}

// The first cue of a sample from a place on where a box begins. A sample that `judge_sample` refuses may give cues all the same, up to the first refused header.
pub fn next_cue(s: &[u8], from: usize) -> Result<Option<(Parts, usize)>, Refusal>
    ensures { result ≡ next_cue s.now (boxes_in s.now from (length s.now)) }
{
    let end = s.len();
    let mut at = from;
    loop {
        let step = step_at(s, at, end);
        let Step::Box { kind, body, next } = step else {
            stopped_by(step)?;
            return Ok(None);
        };
        if kind == VTTC {
            let parts = read_parts(s, body, next)?;
            return Ok(Some((parts, next)));
        }
        at = next;
    }
}
