// Packing: a list of cue records into a sample table and WebVTT samples.
#![tactic(auto)]

ghost use Rattle.std.specs.Prelude.{◌≡◌, [], ◌+◌, ◌*◌, ◌≤◌, ◌<◌, ltb, length};
ghost use Rattle.base.specs.Choice.{pick, keep};
ghost use Rattle.base.specs.Over.{over, wrote};
ghost use Rattle.wvtt_write.specs.Written.{cues_bytes, sample_bytes};
ghost use Rattle.records.specs.Records.{texts_end};
ghost use Rattle.cues.specs.List.{body_of, Sound};
ghost use Rattle.cuts.specs.Cuts.{end_tick, record_size, cues_size, or_empty, Lasting};
ghost use Rattle.cuts.specs.Window.{Window, From};
ghost use Rattle.pack.specs.Packing.{packed_track, table_bytes, samples_bytes, sizes_of, pack_room, packed_of, after};
ghost use Rattle.pack.specs.Writing.{shown, Inside};

use cues::judge_list;
use cuts::{Stretch, end_tick, measure, sample_size, stretch_from};
use records::{identifier_length, payload_length, settings_length, source_id, text_offset};
use table::{Sizes, put_row};
use times::tick_of;
use verdict::{Reason, Refusal, Verdict};
use wvtt_write::{put_cue, put_empty};

// The cue of a record that has started by b, unless it has ended; gives the place behind it.
fn put_record(
    out: &mut [u8],
    at: usize,
    scale: u32,
    records: &[u8],
    pool: &[u8],
    k: usize,
    b: u64,
) -> usize
    requires inside { (k * 24 + 24 ≤ length records.now) × (texts_end records.now k ≤ length pool.now) }
    requires room { at + pick (ltb b (end_tick scale records.now k)) (record_size records.now k) 0 ≤ length out.old }
    ensures value { result ≡ at + pick (ltb b (end_tick scale records.now k)) (record_size records.now k) 0 }
    ensures out_after { out.new ≡ wrote out.old at (cues_bytes (keep (ltb b (end_tick scale records.now k)) (body_of records.now pool.now k) [])) }
{
    if end_tick(scale, records, k) <= b {
        return at;
    }
    let id = source_id(records, k);
    let from = text_offset(records, k) as usize;
    let identifier = identifier_length(records, k) as usize;
    let settings = settings_length(records, k) as usize;
    let payload = payload_length(records, k) as usize;
    put_cue(&mut *out, at, id, pool, from, identifier, settings, payload)
}

// The cues that run at b, in list order, by the window of b; gives the place behind them.
fn put_cues(
    out: &mut [u8],
    at: usize,
    scale: u32,
    records: &[u8],
    pool: &[u8],
    n: usize,
    first: usize,
    last: usize,
    b: u64,
) -> usize
    requires room { (n * 24 ≤ length records.now) × (at + cues_size scale records.now b n ≤ length out.old) }
    requires lasting { Lasting scale records.now n × Inside records.now pool.now n × Window scale records.now n first last b }
    ensures value { result ≡ at + cues_size scale records.now b n }
    ensures out_after { out.new ≡ wrote out.old at (cues_bytes (shown scale records.now pool.now b n)) }
{
    let mut to = at;
    for k in first..last {
        to = put_record(&mut *out, to, scale, records, pool, k, b);
    }
    to
}

// The sample of a stretch from b: its cues, or else the empty one; gives the place behind it.
fn put_sample(
    out: &mut [u8],
    at: usize,
    scale: u32,
    end: u64,
    records: &[u8],
    pool: &[u8],
    n: usize,
    s: Stretch,
    b: u64,
) -> usize
    requires room { (n * 24 ≤ length records.now) × (at + or_empty s.cues ≤ length out.old) }
    requires lasting { Lasting scale records.now n × Inside records.now pool.now n × From scale end records.now n b s }
    ensures value { result ≡ at + or_empty s.cues }
    ensures out_after { out.new ≡ wrote out.old at (sample_bytes (shown scale records.now pool.now b n)) }
{
    if s.cues == 0 {
        put_empty(&mut *out, at)
    } else {
        put_cues(&mut *out, at, scale, records, pool, n, s.first, s.last, b)
    }
}

// The track, where there is room for it.
fn write_track(
    scale: u32,
    t: u32,
    records: &[u8],
    pool: &[u8],
    table: &mut [u8],
    samples: &mut [u8],
)
    requires sound { Sound scale t records.now pool.now }
    requires room { (length (table_bytes (packed_track scale t records.now pool.now)) ≤ length table.old) × (length (samples_bytes (packed_track scale t records.now pool.now)) ≤ length samples.old) }
    ensures table_after { table.new ≡ over (table_bytes (packed_track scale t records.now pool.now)) table.old }
    ensures samples_after { samples.new ≡ over (samples_bytes (packed_track scale t records.now pool.now)) samples.old }
{
    let n = records.len() / 24;
    let end = tick_of(scale, t);
    let mut first = 0;
    let mut last = 0;
    let mut b = 0;
    let mut i = 0;
    let mut at = 0;
    while b < end {
        let s = stretch_from(scale, end, records, n, first, last, b);
        first = s.first;
        last = s.last;
        let next = s.next;
        put_row(
            &mut *table,
            i,
            (next - b) as u32,
            sample_size(s.cues) as u32,
        );
        at = put_sample(&mut *samples, at, scale, end, records, pool, n, s, b);
        b = next;
        i += 1;
    }
}

// The room for a list without fault.
fn measure_sound(scale: u32, t: u32, records: &[u8], pool: &[u8]) -> Result<Sizes, Refusal>
    requires { Sound scale t records.now pool.now }
    ensures { result ≡ sizes_of (packed_track scale t records.now pool.now) }
{
    let size = measure(scale, tick_of(scale, t), records, records.len() / 24);
    Ok(Sizes {
        samples: size.count,
        table: size.count * 8,
        bytes: size.bytes,
    })
}

// The room that packing needs: what it answers where there is enough.
pub fn pack_room(scale: u32, t: u32, records: &[u8], pool: &[u8]) -> Result<Sizes, Refusal>
    ensures { result ≡ pack_room scale t records.now pool.now }
{
    judge_list(scale, t, records, pool)?;
    measure_sound(scale, t, records, pool)
}

// Packs a list of records and their pool into a table and samples, or says why not.
pub fn pack(
    scale: u32,
    t: u32,
    records: &[u8],
    pool: &[u8],
    table: &mut [u8],
    samples: &mut [u8],
) -> Result<Sizes, Refusal>
    ensures value { result ≡ packed_of scale t records.now pool.now (length table.old) (length samples.old) }
    ensures table_after { table.new ≡ after result (table_bytes (packed_track scale t records.now pool.now)) table.old }
    ensures samples_after { samples.new ≡ after result (samples_bytes (packed_track scale t records.now pool.now)) samples.old }
{
    let room = pack_room(scale, t, records, pool)?;
    if table.len() < room.table {
        return Err(Reason::NoRoom.fault_at(0));
    }
    if samples.len() < room.bytes {
        return Err(Reason::NoRoom.fault_at(1));
    }
    write_track(scale, t, records, pool, &mut *table, &mut *samples);
    Ok(room)
}
