// Converting a `tx3g` track: the samples with text left as dense cue records and pool. One pass over the samples judges the cues and measures them, another writes them.
#![tactic(auto)]

ghost use Rattle.std.specs.Prelude.{◌≡◌, true, List, ℕ, min, ◌+◌, ◌*◌, ◌≤◌, ◌<◌, eqb, length};
ghost use Rattle.base.specs.Choice.{pick};
ghost use Rattle.base.specs.Over.{over};
ghost use Rattle.verdict.specs.Verdict.{Fine};
ghost use Rattle.times.specs.Times.{back, scale_allowed};
ghost use Rattle.records_write.specs.Records.{records_of, pool_of};
ghost use Rattle.tx3g_entry.specs.Entry.{judge_entry};
ghost use Rattle.tx3g_sample.specs.Sample.{judge_sample};
ghost use Rattle.tx3g_payload.specs.Statements.{has_zero};
ghost use Rattle.tx3g_payload_write.specs.Sample.{payload_in};
ghost use Rattle.tx3g_payload_write.specs.Terms.{MadeIs};
ghost use Rattle.tx3g_stock.specs.Stock.{judge_stock};
ghost use Rattle.tx3g_convert.specs.Convert.{has_text, stock_cues, judge_told, convert_room, convert_of, out_of};
ghost use Rattle.tx3g_convert.specs.Terms.{told, Ruled, past_limits, Sized, behind_of, Low, turn_by, MeasuredIs, Fitting, records_with, pool_with, Ready};

use cues::{bad_times, judge_content};
use records_write::put_cue;
use table::{duration_at, size_at};
use times::{ms_of, scale_allowed, total_allowed};
use tx3g_entry::judge_entry;
use tx3g_payload_write::make_payload;
use tx3g_stock::{Counts, count_stock, judge_stock};
use tx3g_tidy::{put_tidy, tidy_length};
use verdict::{Reason, Refusal, Verdict};

// A cue list that was written.
#[derive(Clone, Copy)]
pub struct CueList {
    pub cues: usize,
    pub records: usize,
    pub pool: usize,
    pub t: u32,
    pub dropped: Counts,
}

// Whose fault it is that there is no list.
#[derive(Clone, Copy)]
pub enum Fault {
    Entry(Refusal),
    Track(Refusal),
    // The records or the pool lent are too short.
    Room(Refusal),
}

// Behind some samples: the sum of their durations, the number of their cues, and the bytes of their texts.
#[derive(Clone, Copy)]
struct State {
    tick: usize,
    cues: usize,
    size: usize,
}

const START: State = State {
    tick: 0,
    cues: 0,
    size: 0,
};

// The time of a tick; 100 hours where it is more.
fn ms_at(scale: u32, tick: usize) -> u32
    requires { (0 < scale) × (tick < 281474976710656) }
    ensures { result ≡ min (back scale tick) 360000000 }
{
    ms_of(scale, tick as u64).min(360000000) as u32
}

// The state behind a sample with a payload of n bytes; one without has no cue.
fn behind(state: State, duration: usize, n: usize) -> State
    requires { Low state duration × (n ≤ 4095) }
    ensures { result ≡ behind_of state duration n }
{
    State {
        tick: state.tick + duration,
        cues: state.cues + usize::from(0 < n),
        size: state.size + n,
    }
}

// 1 for a zero byte, else 0.
fn zero_mark_of(b: u8) -> u8
    ensures { result ≡ pick (eqb b 0) 1 0 }
{
    u8::from(b == 0)
}

// Whether a zero byte is among them. It does not end early, so that the compiler takes wide steps.
fn has_zero(s: &[u8]) -> bool
    ensures { result ≡ has_zero s.now }
{
    let mut x = 0;
    for &b in s {
        x |= zero_mark_of(b);
    }
    x != 0
}

// Whether a cue with a payload of n bytes is one too many, or its payload too long.
fn past_limits(state: State, n: usize) -> bool
    ensures { result ≡ past_limits state.cues n }
{
    1024 <= state.cues || 4095 < n
}

// Judges the cue of sample i, by the length n of a payload that keeps its rule.
fn judge_cue(scale: u32, state: State, duration: usize, i: usize, n: usize) -> Verdict
    requires { (0 < scale) × Low state duration }
    ensures { (p : List ℕ) → Sized state.cues n p → result ≡ judge_told true scale state.cues state.tick i (told duration p) }
{
    if past_limits(state, n) {
        return Reason::PastLimit.refused(i);
    }
    let start = ms_at(scale, state.tick);
    let end = ms_at(scale, state.tick + duration);
    if bad_times(scale, 359999999, start, end) {
        return Reason::BadTime.refused(i);
    }
    Ok(())
}

// Judges the cue of sample i, by its payload of n bytes in the buffer, in which a zero byte alone can be bad.
fn judge_made(scale: u32, state: State, duration: usize, i: usize, buf: &[u8], n: usize) -> Verdict
    requires { (0 < scale) × Low state duration × (length buf.now ≡ 4128) }
    ensures { (p old : List ℕ) → MadeIs p old buf.now n → Ruled p → result ≡ judge_told true scale state.cues state.tick i (told duration p) }
{
    if past_limits(state, n) || !has_zero(&buf[0..n]) {
        return judge_cue(scale, state, duration, i, n);
    }
    let start = ms_at(scale, state.tick);
    let end = ms_at(scale, state.tick + duration);
    judge_content(scale, 359999999, 0, start, end, b"", b"", &buf[0..n], i)
}

// Judges sample i beside an entry without fault: 0 bytes of payload are no cue.
fn take_sample(
    scale: u32,
    e: &[u8],
    s: &[u8],
    i: usize,
    duration: usize,
    state: State,
    buf: &mut [u8],
) -> Result<State, Refusal>
    requires { (0 < scale) × Low state duration × (judge_entry e.now ≡ Fine) × (judge_sample e.now s.now ≡ Fine) × (length buf.old ≡ 4128) }
    ensures { result ≡ turn_by (judge_told (has_text (payload_in e.now s.now)) scale state.cues state.tick i (told duration (payload_in e.now s.now))) (behind_of state duration (length (payload_in e.now s.now))) }
{
    let known = tidy_length(e, s);
    if 0 < known {
        judge_cue(scale, state, duration, i, known)?;
        return Ok(behind(state, duration, known));
    }
    let n = make_payload(e, s, &mut *buf);
    if n == 0 {
        return Ok(behind(state, duration, 0));
    }
    judge_made(scale, state, duration, i, &*buf, n)?;
    Ok(behind(state, duration, n))
}

// Judges the samples of a track without fault.
fn take_samples(
    scale: u32,
    e: &[u8],
    table: &[u8],
    samples: &[u8],
    buf: &mut [u8],
) -> Result<State, Refusal>
    requires { (0 < scale) × (judge_entry e.now ≡ Fine) × (judge_stock e.now table.now samples.now ≡ Fine) × (length buf.old ≡ 4128) }
    ensures { MeasuredIs scale e.now table.now samples.now result }
{
    let count = table.len() / 8;
    let mut state = START;
    let mut at = 0;
    for i in 0..count {
        let end = at + size_at(table, i);
        let duration = duration_at(table, i) as usize;
        state = take_sample(scale, e, &samples[at..end], i, duration, state, &mut *buf)?;
        at = end;
    }
    Ok(state)
}

// The room for the cues of a track without fault; T is judged.
fn measure_cues(
    scale: u32,
    e: &[u8],
    table: &[u8],
    samples: &[u8],
    buf: &mut [u8],
) -> Result<CueList, Fault>
    requires { (scale_allowed scale ≡ true) × (judge_entry e.now ≡ Fine) × (judge_stock e.now table.now samples.now ≡ Fine) × (length buf.old ≡ 4128) }
    ensures { result ≡ convert_room scale e.now table.now samples.now }
{
    let last = take_samples(scale, e, table, samples, &mut *buf).map_err(Fault::Track)?;
    if !total_allowed(scale, last.tick) {
        return Err(Fault::Track(Reason::BadTime.fault_at(last.cues)));
    }
    Ok(CueList {
        cues: last.cues,
        records: last.cues * 24,
        pool: last.size,
        t: ms_of(scale, last.tick as u64) as u32,
        dropped: count_stock(table, samples),
    })
}

// The room for a track beside an entry without fault.
fn measure_track(
    scale: u32,
    e: &[u8],
    table: &[u8],
    samples: &[u8],
    buf: &mut [u8],
) -> Result<CueList, Fault>
    requires { (scale_allowed scale ≡ true) × (judge_entry e.now ≡ Fine) × (length buf.old ≡ 4128) }
    ensures { result ≡ convert_room scale e.now table.now samples.now }
{
    judge_stock(e, table, samples).map_err(Fault::Track)?;
    measure_cues(scale, e, table, samples, &mut *buf)
}

fn measure(
    scale: u32,
    e: &[u8],
    table: &[u8],
    samples: &[u8],
    buf: &mut [u8],
) -> Result<CueList, Fault>
    requires { length buf.old ≡ 4128 }
    ensures { result ≡ convert_room scale e.now table.now samples.now }
{
    if !scale_allowed(scale) {
        return Err(Fault::Track(Reason::BadTime.fault_at(0)));
    }
    judge_entry(e).map_err(Fault::Entry)?;
    measure_track(scale, e, table, samples, &mut *buf)
}

// Writes the record and the text of a cue.
fn put_payload(
    scale: u32,
    state: State,
    duration: usize,
    payload: &[u8],
    records: &mut [u8],
    pool: &mut [u8],
)
    requires { (0 < scale) × Low state duration × Fitting scale state duration payload.now records.old pool.old }
    ensures { (records.new ≡ records_with true scale state duration payload.now records.old) × (pool.new ≡ pool_with true state payload.now pool.old) }
{
    let start = ms_at(scale, state.tick);
    let end = ms_at(scale, state.tick + duration);
    put_cue(
        &mut *records,
        state.cues,
        state.cues as u32,
        start,
        end,
        &mut *pool,
        state.size,
        b"",
        b"",
        payload,
    );
}

// Makes the payload of a sample, which is short enough, at the front of the buffer, and gives its length.
fn put_sample(e: &[u8], s: &[u8], buf: &mut [u8]) -> usize
    requires { (judge_entry e.now ≡ Fine) × (judge_sample e.now s.now ≡ Fine) × (length (payload_in e.now s.now) ≤ 4095) × (length buf.old ≡ 4128) }
    ensures { (result ≡ length (payload_in e.now s.now)) × (buf.new ≡ over (payload_in e.now s.now) buf.old) }
{
    let put = put_tidy(e, s, &mut *buf);
    if 0 < put {
        put
    } else {
        make_payload(e, s, &mut *buf)
    }
}

// Writes the cue of a sample, if it has text left.
fn write_sample(
    scale: u32,
    e: &[u8],
    s: &[u8],
    duration: usize,
    state: State,
    buf: &mut [u8],
    records: &mut [u8],
    pool: &mut [u8],
) -> State
    requires { (0 < scale) × Low state duration × (judge_entry e.now ≡ Fine) × (judge_sample e.now s.now ≡ Fine) × (length buf.old ≡ 4128) × (has_text (payload_in e.now s.now) ≡ true → Fitting scale state duration (payload_in e.now s.now) records.old pool.old) }
    ensures { (result ≡ behind_of state duration (length (payload_in e.now s.now))) × (records.new ≡ records_with (has_text (payload_in e.now s.now)) scale state duration (payload_in e.now s.now) records.old) × (pool.new ≡ pool_with (has_text (payload_in e.now s.now)) state (payload_in e.now s.now) pool.old) }
{
    let n = put_sample(e, s, &mut *buf);
    if n == 0 {
        return behind(state, duration, 0);
    }
    put_payload(
        scale,
        state,
        duration,
        &buf[0..n],
        &mut *records,
        &mut *pool,
    );
    behind(state, duration, n)
}

// Writes the cues of a track.
fn write_cues(
    scale: u32,
    e: &[u8],
    table: &[u8],
    samples: &[u8],
    buf: &mut [u8],
    records: &mut [u8],
    pool: &mut [u8],
)
    requires { Ready scale e.now table.now samples.now records.old pool.old × (length buf.old ≡ 4128) }
    ensures { (records.new ≡ over (records_of scale (stock_cues e.now table.now samples.now)) records.old) × (pool.new ≡ over (pool_of (stock_cues e.now table.now samples.now)) pool.old) }
{
    let count = table.len() / 8;
    let mut state = START;
    let mut at = 0;
    for i in 0..count {
        let end = at + size_at(table, i);
        let duration = duration_at(table, i) as usize;
        state = write_sample(
            scale,
            e,
            &samples[at..end],
            duration,
            state,
            &mut *buf,
            &mut *records,
            &mut *pool,
        );
        at = end;
    }
}

// The room that converting needs: what it answers where there is enough.
pub fn convert_room(scale: u32, e: &[u8], table: &[u8], samples: &[u8]) -> Result<CueList, Fault>
    ensures { result ≡ convert_room scale e.now table.now samples.now }
{
    let mut buf = [0u8; 4128];
    measure(scale, e, table, samples, &mut buf)
}

// The samples of a track with text left as cue records and pool.
pub fn convert(
    scale: u32,
    e: &[u8],
    table: &[u8],
    samples: &[u8],
    records: &mut [u8],
    pool: &mut [u8],
) -> Result<CueList, Fault>
    ensures { (result ≡ convert_of scale e.now table.now samples.now (length records.old) (length pool.old)) × (records.new ≡ out_of result (records_of scale (stock_cues e.now table.now samples.now)) records.old) × (pool.new ≡ out_of result (pool_of (stock_cues e.now table.now samples.now)) pool.old) }
{
    let mut buf = [0u8; 4128];
    let room = measure(scale, e, table, samples, &mut buf)?;
    if records.len() < room.records {
        return Err(Fault::Room(Reason::NoRoom.fault_at(0)));
    }
    if pool.len() < room.pool {
        return Err(Fault::Room(Reason::NoRoom.fault_at(1)));
    }
    write_cues(
        scale,
        e,
        table,
        samples,
        &mut buf,
        &mut *records,
        &mut *pool,
    );
    Ok(room)
}
