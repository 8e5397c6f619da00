// Unpacking: the cues of a track as dense records and pool, in order of first appearance, with T in milliseconds.
#![tactic(auto)]

ghost use Rattle.std.specs.Prelude.{◌≡◌, ℕ, ◌*◌, ◌≤◌, ◌<◌, length};
ghost use Rattle.verdict.specs.Judgement.{each};
ghost use Rattle.times.specs.Times.{back};
ghost use Rattle.rows.specs.Table.{row_at, known};
ghost use Rattle.records_write.specs.Records.{records_of, pool_of};
ghost use Rattle.unpack.specs.Unpacking.{bad_times, track_cues, unpack_room, roomed, unpack_of, out_of};
ghost use Rattle.unpack.specs.Rows.{row_times, end_of, rows_room, Measurable, RowsReady, ReadAs};

use gather::gather;
use rows::row_at;
use times::{ms_of, scale_allowed, total_allowed};
use track::judge_track;
use unpack_write::{pool_size, put_rows};
use verdict::{Reason, Refusal, Verdict};

// A cue list that was written.
#[derive(Clone, Copy)]
pub struct CueList {
    pub records: usize,
    pub pool: usize,
    pub t: u32,
}

// A time is above the largest, or the start is not below the end.
fn bad_times(scale: u32, start: usize, end: usize) -> bool
    requires { (0 < scale) × (start < 281474976710656) × (end < 281474976710656) }
    ensures { result ≡ bad_times scale start end }
{
    let from = ms_of(scale, start as u64);
    let to = ms_of(scale, end as u64);
    359999999 < from || 359999999 < to || to <= from
}

// The times of the first n rows.
fn judge_times(scale: u32, tab: &[usize], n: usize) -> Verdict
    requires { (0 < scale) × (n * 9 ≤ length tab.now) × ((i : ℕ) → i < n → ((row_at tab.now i).start < 281474976710656) × ((row_at tab.now i).end < 281474976710656)) }
    ensures { result ≡ each (row_times scale tab.now) n }
{
    for i in 0..n {
        let row = row_at(tab, i);
        if bad_times(scale, row.start, row.end) {
            return Reason::BadTime.refused(i);
        }
    }
    Ok(())
}

// Times and T.
fn judge_end(scale: u32, tab: &[usize], n: usize, total: usize) -> Verdict
    requires { (0 < scale) × (n * 9 ≤ length tab.now) × ((i : ℕ) → i < n → ((row_at tab.now i).start < 281474976710656) × ((row_at tab.now i).end < 281474976710656)) × (total < 281474976710656) }
    ensures { result ≡ end_of scale tab.now n (back scale total) }
{
    judge_times(scale, tab, n)?;
    if !total_allowed(scale, total) {
        return Reason::BadTime.refused(n);
    }
    Ok(())
}

// The room for n rows, whose durations have this sum.
fn measure_rows(scale: u32, tab: &[usize], n: usize, total: usize) -> Result<CueList, Refusal>
    requires { Measurable scale tab.now n total }
    ensures { result ≡ rows_room scale tab.now n (back scale total) }
{
    judge_end(scale, tab, n, total)?;
    Ok(CueList {
        records: n * 24,
        pool: pool_size(tab, n),
        t: ms_of(scale, total as u64) as u32,
    })
}

// Judges a track and gathers its cues into the rows of a table. Gives how many there are and the sum of the durations.
fn read_track(
    scale: u32,
    table: &[u8],
    samples: &[u8],
    tab: &mut [usize],
) -> Result<(usize, usize), Refusal>
    requires { length tab.old ≡ 9216 }
    ensures { ReadAs scale table.now samples.now tab.new result }
{
    if !scale_allowed(scale) {
        return Err(Reason::BadTime.fault_at(0));
    }
    judge_track(table, samples)?;
    gather(table, samples, &mut *tab)
}

// The rows as records and pool, where there is room.
fn write_list(
    scale: u32,
    samples: &[u8],
    tab: &[usize],
    n: usize,
    total: usize,
    records: &mut [u8],
    pool: &mut [u8],
) -> Result<CueList, Refusal>
    requires { RowsReady scale samples.now tab.now n total }
    ensures { (result ≡ roomed (length records.old) (length pool.old) (rows_room scale tab.now n (back scale total))) × (records.new ≡ out_of result (records_of scale (known samples.now tab.now n)) records.old) × (pool.new ≡ out_of result (pool_of (known samples.now tab.now n)) pool.old) }
{
    let room = measure_rows(scale, tab, n, total)?;
    if records.len() < room.records {
        return Err(Reason::NoRoom.fault_at(0));
    }
    if pool.len() < room.pool {
        return Err(Reason::NoRoom.fault_at(1));
    }
    put_rows(scale, samples, tab, n, &mut *records, &mut *pool);
    Ok(room)
}

// The room that unpacking needs: what it answers where there is enough.
pub fn unpack_room(scale: u32, table: &[u8], samples: &[u8]) -> Result<CueList, Refusal>
    ensures { result ≡ unpack_room scale table.now samples.now }
{
    // No heap: nine numbers for each of up to 1,024 cues, as `row_at` of rows is defined.
    let mut tab = [0usize; 9216];
    let (count, total) = read_track(scale, table, samples, &mut tab)?;
    measure_rows(scale, &tab, count, total)
}

// The cues of a track as records and pool.
pub fn unpack(
    scale: u32,
    table: &[u8],
    samples: &[u8],
    records: &mut [u8],
    pool: &mut [u8],
) -> Result<CueList, Refusal>
    ensures { (result ≡ unpack_of scale table.now samples.now (length records.old) (length pool.old)) × (records.new ≡ out_of result (records_of scale (track_cues table.now samples.now)) records.old) × (pool.new ≡ out_of result (pool_of (track_cues table.now samples.now)) pool.old) }
{
    // No heap: nine numbers for each of up to 1,024 cues, as `row_at` of rows is defined.
    let mut tab = [0usize; 9216];
    let (count, total) = read_track(scale, table, samples, &mut tab)?;
    write_list(
        scale,
        samples,
        &tab,
        count,
        total,
        &mut *records,
        &mut *pool,
    )
}
