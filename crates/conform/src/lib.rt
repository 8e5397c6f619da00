// The check of a track against a list of cue records. It writes nothing.
#![tactic(auto)]

ghost use Rattle.std.specs.Prelude.{◌≡◌, List, ℕ, ◌+◌, ◌≤◌, ◌<◌, length};
ghost use Rattle.base.specs.Choice.{same_list};
ghost use Rattle.verdict.specs.Verdict.{Fine};
ghost use Rattle.times.specs.Times.{tick};
ghost use Rattle.timeline.specs.Cues.{same_body};
ghost use Rattle.timeline.specs.Checking.{standing, none_left, whole, matches, check};
ghost use Rattle.records.specs.Records.{count, start_ms, end_ms, texts_end, piece, identifier_of, settings_of, payload_of};
ghost use Rattle.cues.specs.List.{body_of, cue_of, cues_of, Sound};
ghost use Rattle.wvtt_cues.specs.Cues.{text_of, held_by, sample_cues};
ghost use Rattle.wvtt_cues.specs.Walk.{Within, Inside, held_from};
ghost use Rattle.track.specs.Track.{track_of, judge_track};
ghost use Rattle.conform.specs.Window.{Ended, Started, Later, Rises, Pooled, Reached, Around, stand_of, Finds};
ghost use Rattle.conform.specs.Conformance.{answered, track_verdict, of_track, checked};

use boxes::Part;
use compare::same_bytes;
use cues::judge_list;
use records::{
    end_ms, identifier_length, payload_length, payload_offset, settings_length, settings_offset,
    source_id, start_ms, text_offset,
};
use table::{duration_at, size_at};
use times::tick_of;
use track::judge_track;
use verdict::{Reason, Refusal, Verdict};
use wvtt_cues::{Parts, next_cue};

// Whose fault it is that the track does not show the list's cues.
#[derive(Clone, Copy)]
pub enum Fault {
    List(Refusal),
    Track(Refusal),
}

// The ticks of a sample: from `begin` to before `end`.
#[derive(Clone, Copy)]
pub struct Stretch {
    pub begin: u64,
    pub end: u64,
}

// The records that a sample is held against: those before `first` have ended, those from `last` on start later.
#[derive(Clone, Copy)]
pub struct Window {
    pub first: usize,
    pub last: usize,
}

// How a record stands to a stretch: it runs at no tick of it, at each, or at some only.
#[derive(Clone, Copy)]
pub enum Stand {
    Out,
    Whole,
    Partly,
}

// The n bytes of the pool from a place are the text of a part.
fn same_text(pool: &[u8], from: usize, n: usize, s: &[u8], part: Part) -> bool
    requires { (from + n ≤ length pool.now) × Within (length s.now) part }
    ensures { result ≡ same_list (piece pool.now from n) (text_of s.now part) }
{
    same_bytes(&pool[from..from + n], &s[part.from..part.end])
}

// The three texts of record i, each against a part of a sample.
fn same_identifier(records: &[u8], pool: &[u8], i: usize, s: &[u8], part: Part) -> bool
    requires { (i < count records.now) × (texts_end records.now i ≤ length pool.now) × Within (length s.now) part }
    ensures { result ≡ same_list (identifier_of records.now pool.now i) (text_of s.now part) }
{
    let from = text_offset(records, i) as usize;
    let n = identifier_length(records, i) as usize;
    same_text(pool, from, n, s, part)
}

fn same_settings(records: &[u8], pool: &[u8], i: usize, s: &[u8], part: Part) -> bool
    requires { (i < count records.now) × (texts_end records.now i ≤ length pool.now) × Within (length s.now) part }
    ensures { result ≡ same_list (settings_of records.now pool.now i) (text_of s.now part) }
{
    let from = settings_offset(records, i);
    let n = settings_length(records, i) as usize;
    same_text(pool, from, n, s, part)
}

fn same_payload(records: &[u8], pool: &[u8], i: usize, s: &[u8], part: Part) -> bool
    requires { (i < count records.now) × (texts_end records.now i ≤ length pool.now) × Within (length s.now) part }
    ensures { result ≡ same_list (payload_of records.now pool.now i) (text_of s.now part) }
{
    let from = payload_offset(records, i);
    let n = payload_length(records, i) as usize;
    same_text(pool, from, n, s, part)
}

// Record i has the ID and the three texts of a cue that a sample holds.
fn same_cue(records: &[u8], pool: &[u8], i: usize, s: &[u8], parts: Parts) -> bool
    requires { (i < count records.now) × (texts_end records.now i ≤ length pool.now) × Inside (length s.now) parts }
    ensures { result ≡ same_body (body_of records.now pool.now i) (held_by s.now parts) }
{
    parts.named
        && source_id(records, i) == parts.id
        && same_identifier(records, pool, i, s, parts.identifier)
        && same_settings(records, pool, i, s, parts.settings)
        && same_payload(records, pool, i, s, parts.payload)
}

fn start_tick(scale: u32, records: &[u8], i: usize) -> u64
    requires { i < count records.now }
    ensures { result ≡ tick scale (start_ms records.now i) }
{
    tick_of(scale, start_ms(records, i))
}

fn end_tick(scale: u32, records: &[u8], i: usize) -> u64
    requires { i < count records.now }
    ensures { result ≡ tick scale (end_ms records.now i) }
{
    tick_of(scale, end_ms(records, i))
}

// How a record that starts before the end of a stretch stands to it.
fn stand_of(scale: u32, records: &[u8], i: usize, x: Stretch) -> Stand
    requires { (i < count records.now) × (tick scale (start_ms records.now i) < x.end) }
    ensures { (pool : List ℕ) → stand_of result ≡ standing (cue_of scale records.now pool i) x.begin x.end }
{
    let end = end_tick(scale, records, i);
    if end <= x.begin {
        Stand::Out
    } else if x.begin < start_tick(scale, records, i) || end < x.end {
        Stand::Partly
    } else {
        Stand::Whole
    }
}

// The next cue of a sample is record i's.
fn take_cue(records: &[u8], pool: &[u8], i: usize, s: &[u8], at: usize) -> Option<usize>
    requires { (i < count records.now) × (texts_end records.now i ≤ length pool.now) }
    ensures { Finds whole (body_of records.now pool.now i) s.now at result }
{
    let (parts, next) = next_cue(s, at).ok()??;
    if same_cue(records, pool, i, s, parts) {
        Some(next)
    } else {
        None
    }
}

// Record i, held against a sample from a place on.
fn match_record(
    scale: u32,
    records: &[u8],
    pool: &[u8],
    i: usize,
    s: &[u8],
    at: usize,
    x: Stretch,
) -> Option<usize>
    requires { (i < count records.now) × (texts_end records.now i ≤ length pool.now) × (tick scale (start_ms records.now i) < x.end) }
    ensures { Finds (standing (cue_of scale records.now pool.now i) x.begin x.end) (body_of records.now pool.now i) s.now at result }
{
    match stand_of(scale, records, i, x) {
        Stand::Out => Some(at),
        Stand::Whole => take_cue(records, pool, i, s, at),
        Stand::Partly => None,
    }
}

// No cue is left in a sample from a place on. Three arms: an or-pattern tells the proof of the last one too little.
fn none_left(s: &[u8], at: usize) -> bool
    ensures { result ≡ none_left (held_from s.now at) }
{
    match next_cue(s, at) {
        Ok(Some(_)) => false,
        Ok(None) => true,
        // a track without fault has no refusal here
        Err(_) => true,
    }
}

// A sample holds what it should over its stretch.
fn match_sample(
    scale: u32,
    records: &[u8],
    pool: &[u8],
    s: &[u8],
    window: Window,
    x: Stretch,
) -> bool
    requires { Pooled records.now pool.now × Around scale records.now window x }
    ensures { result ≡ matches (cues_of scale records.now pool.now) x.begin x.end (sample_cues s.now) }
{
    let mut at = 0;
    for i in window.first..window.last {
        let met = match_record(scale, records, pool, i, s, at, x);
        let Some(next) = met else {
            return false;
        };
        at = next;
    }
    none_left(s, at)
}

// From `first` on, past the records that have ended by tick b.
fn skip_ended(scale: u32, records: &[u8], first: usize, b: u64) -> usize
    requires { (first ≤ count records.now) × Ended scale records.now first b }
    ensures { (result ≤ count records.now) × Ended scale records.now result b }
{
    let n = records.len() / 24;
    for i in first..n {
        if b < end_tick(scale, records, i) {
            return i;
        }
    }
    n
}

// From `last` on, to the first record that starts at tick e or later.
fn pass_started(scale: u32, records: &[u8], last: usize, e: u64) -> usize
    requires { (last ≤ count records.now) × Started scale records.now last e × Rises scale records.now }
    ensures { (result ≤ count records.now) × Started scale records.now result e × Later scale records.now result e }
{
    let n = records.len() / 24;
    for i in last..n {
        if e <= start_tick(scale, records, i) {
            return i;
        }
    }
    n
}

// The window, moved on to a stretch.
fn move_window(scale: u32, records: &[u8], window: Window, x: Stretch) -> Window
    requires { (x.begin ≤ x.end) × Reached scale records.now window x.begin × Rises scale records.now }
    ensures { Around scale records.now result x }
{
    let first = skip_ended(scale, records, window.first, x.begin);
    let last = pass_started(scale, records, window.last, x.end);
    Window { first, last }
}

// The samples of a track without fault, against a list without fault.
fn check_samples(
    scale: u32,
    t: u32,
    records: &[u8],
    pool: &[u8],
    table: &[u8],
    samples: &[u8],
) -> Verdict
    requires { Sound scale t records.now pool.now × (judge_track table.now samples.now ≡ Fine) }
    ensures { result ≡ answered (check (cues_of scale records.now pool.now) (tick scale t) (track_of table.now samples.now)) }
{
    let limit = tick_of(scale, t);
    let rows = table.len() / 8;
    let mut window = Window { first: 0, last: 0 };
    let mut begin = 0;
    let mut at = 0;
    for i in 0..rows {
        let end = begin + u64::from(duration_at(table, i));
        if limit < end {
            return Reason::Differs.refused(i);
        }
        let after = at + size_at(table, i);
        let x = Stretch { begin, end };
        window = move_window(scale, records, window, x);
        if !match_sample(scale, records, pool, &samples[at..after], window, x) {
            return Reason::Differs.refused(i);
        }
        begin = end;
        at = after;
    }
    if begin < limit {
        return Reason::Differs.refused(rows);
    }
    Ok(())
}

// The track, beside a list without fault; then each sample against the list.
#[tactic(auto, unfolding(crate::specs::Conformance::track_verdict))]
fn check_beside(
    scale: u32,
    t: u32,
    records: &[u8],
    pool: &[u8],
    table: &[u8],
    samples: &[u8],
) -> Verdict
    requires { Sound scale t records.now pool.now }
    ensures { result ≡ track_verdict scale t records.now pool.now table.now samples.now }
{
    judge_track(table, samples)?;
    check_samples(scale, t, records, pool, table, samples)
}

// The check: the list, then the track, then each sample against the list.
#[tactic(auto, unfolding(crate::specs::Conformance::checked))]
pub fn check_track(
    scale: u32,
    t: u32,
    records: &[u8],
    pool: &[u8],
    table: &[u8],
    samples: &[u8],
) -> Result<(), Fault>
    ensures { result ≡ checked scale t records.now pool.now table.now samples.now }
{
    judge_list(scale, t, records, pool).map_err(Fault::List)?;
    check_beside(scale, t, records, pool, table, samples).map_err(Fault::Track)
}
