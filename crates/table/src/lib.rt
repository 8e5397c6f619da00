// A table of 8-byte records and its samples back to back: the fields of a record, and the judgement of all but what a sample holds.
#![tactic(auto)]

ghost use Rattle.std.specs.Prelude.{◌≡◌, ℕ, List, ◌++◌, ◌+◌, ◌*◌, ◌≤◌, ◌<◌, length};
ghost use Rattle.base.specs.Over.{wrote};
ghost use Rattle.fields.specs.BigEndian.{bytes};
ghost use Rattle.table.specs.Table.{duration_of, size_of, offset_of, placed_at, judge_size, judge_row, judge_row_by, judge_rows, judge_whole, judge_left};
ghost use Rattle.verdict.specs.Verdict.{Verdict, Fine};

use fields::{get32, put32};
use verdict::{Reason, Verdict, move_to};

// How large a track is that was written: its samples, and the bytes of its table and of them.
#[derive(Clone, Copy)]
pub struct Sizes {
    pub samples: usize,
    pub table: usize,
    pub bytes: usize,
}

// The duration of sample i.
pub fn duration_at(table: &[u8], i: usize) -> u32
    requires { i * 8 + 8 ≤ length table.now }
    ensures { (result ≡ duration_of table.now i) × (result < 4294967296) }
{
    get32(table, i * 8)
}

// The size of sample i.
pub fn size_at(table: &[u8], i: usize) -> usize
    requires { i * 8 + 8 ≤ length table.now }
    ensures { (result ≡ size_of table.now i) × (result < 4294967296) }
{
    get32(table, i * 8 + 4) as usize
}

// Row i: the record of a sample.
pub fn put_row(table: &mut [u8], i: usize, duration: u32, size: u32)
    requires { i * 8 + 8 ≤ length table.old }
    ensures { table.new ≡ wrote table.old (i * 8) (bytes 4 duration ++ bytes 4 size) }
{
    put32(&mut *table, i * 8, duration);
    put32(&mut *table, i * 8 + 4, size);
}

// The same refusal with the sample's index for its place.
pub fn place_at(v: Verdict, i: usize) -> Verdict
    ensures { result ≡ placed_at i v }
{
    let Err(why) = v else {
        return Ok(());
    };
    Err(move_to(i, why))
}

// Where sample i lies, whose bytes begin at `at`.
pub fn judge_size(table: &[u8], samples: &[u8], i: usize, at: usize) -> Verdict
    requires { (i * 8 + 8 ≤ length table.now) × (at ≡ offset_of table.now i) × (at ≤ length samples.now) }
    ensures { result ≡ judge_size table.now samples.now i }
{
    let size = size_at(table, i);
    if size == 0 {
        return Reason::BoxMissing.refused(i);
    }
    if samples.len() - at < size {
        return Reason::BytesMissing.refused(i);
    }
    Ok(())
}

// Row i, whose bytes begin at `at`.
pub fn judge_row(table: &[u8], samples: &[u8], i: usize, at: usize) -> Verdict
    requires { (i * 8 + 8 ≤ length table.now) × (at ≡ offset_of table.now i) × (at ≤ length samples.now) }
    ensures { result ≡ judge_row table.now samples.now i }
{
    if duration_at(table, i) == 0 {
        return Reason::BadTime.refused(i);
    }
    judge_size(table, samples, i, at)
}

// Whole records, and not too many.
#[tactic(auto, unfolding(crate::specs::Table::judge_whole, crate::specs::Table::row_count))]
pub fn judge_whole(table: &[u8]) -> Verdict
    ensures { result ≡ judge_whole table.now }
{
    if table.len() % 8 != 0 {
        return Reason::BytesMissing.refused(0);
    }
    if 65536 < table.len() / 8 {
        return Reason::PastLimit.refused(0);
    }
    Ok(())
}

// No byte is left over behind `count` samples that end at `at`.
#[tactic(auto, unfolding(crate::specs::Table::judge_left))]
pub fn judge_left(samples: &[u8], count: usize, at: usize) -> Verdict
    ensures { result ≡ judge_left samples.now count at }
{
    if at < samples.len() {
        Reason::BadSize.refused(count)
    } else {
        Ok(())
    }
}

// Row i and its sample, whose bytes begin at `at`, by a judge of samples.
fn read_row<F: Fn(&[u8]) -> Verdict>(
    judge: &F,
    table: &[u8],
    samples: &[u8],
    i: usize,
    at: usize,
) -> Verdict
    requires { F.IsAlwaysCallable judge.now × (i * 8 + 8 ≤ length table.now) × (at ≡ offset_of table.now i) × (at ≤ length samples.now) }
    ensures verdict { (f : List ℕ → Verdict) → ((y : _) (r : Verdict) → F.post judge.now y r → r ≡ f y.now) → result ≡ judge_row_by f table.now samples.now i }
    ensures row { result ≡ Fine → judge_row table.now samples.now i ≡ Fine }
{
    judge_row(table, samples, i, at)?;
    let end = at + size_at(table, i);
    place_at(judge(&samples[at..end]), i)
}

// The verdict on a table and its samples, by a judge of samples.
pub fn judge_by<F: Fn(&[u8]) -> Verdict>(judge: &F, table: &[u8], samples: &[u8]) -> Verdict
    requires { F.IsAlwaysCallable judge.now }
    ensures { (f : List ℕ → Verdict) → ((y : _) (r : Verdict) → F.post judge.now y r → r ≡ f y.now) → result ≡ judge_rows (judge_row_by f table.now samples.now) table.now samples.now }
{
    judge_whole(table)?;
    let count = table.len() / 8;
    let mut at = 0;
    for i in 0..count {
        read_row(judge, table, samples, i, at)?;
        at += size_at(table, i);
    }
    judge_left(samples, count, at)
}
