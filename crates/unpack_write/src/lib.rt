// Writing the rows of the table as records and pool.
#![tactic(auto)]

ghost use Rattle.std.specs.Prelude.{◌≡◌, ℕ, ◌+◌, ◌*◌, ◌≤◌, ◌<◌, length};
ghost use Rattle.base.specs.Over.{wrote, over};
ghost use Rattle.wvtt_cues.specs.Cues.{text_of};
ghost use Rattle.wvtt_cues.specs.Walk.{Within};
ghost use Rattle.rows.specs.Table.{row_at, cue_at, known};
ghost use Rattle.records_write.specs.Records.{record_of, texts_of, records_to, pool_to};
ghost use Rattle.unpack_write.specs.Rows.{Short, Ready, InTime, row_size, size_to};

use boxes::Part;
use records_write::put_cue;
use rows::{Row, row_at};
use times::ms_of;

// The bytes of a row's texts.
fn row_size(row: Row) -> usize
    requires { Short row }
    ensures { (result ≡ row_size row) × (result ≤ 4605) }
{
    let a = row.identifier;
    let b = row.settings;
    let c = row.payload;
    (a.end - a.from) + (b.end - b.from) + (c.end - c.from)
}

// The bytes of the texts of the first n rows.
pub fn pool_size(tab: &[usize], n: usize) -> usize
    requires { (n ≤ 1024) × (n * 9 ≤ length tab.now) × ((i : ℕ) → i < n → Short (row_at tab.now i)) }
    ensures { (result ≡ size_to tab.now n) × (result ≤ n * 4605) }
{
    let mut size = 0;
    for i in 0..n {
        size += row_size(row_at(tab, i));
    }
    size
}

// The bytes of a part of the samples.
fn text_in(samples: &[u8], p: Part) -> &[u8]
    requires { Within (length samples.now) p }
    ensures { result.now ≡ text_of samples.now p }
{
    &samples[p.from..p.end]
}

// The record of a row, and its texts to `at` in the pool; gives the place behind them.
fn write_row(
    scale: u32,
    samples: &[u8],
    row: Row,
    records: &mut [u8],
    k: usize,
    pool: &mut [u8],
    at: usize,
) -> usize
    requires { (0 < scale) × Ready (length samples.now) row × InTime scale row × (k * 24 + 24 ≤ length records.old) × (at + row_size row ≤ length pool.old) × (at < 4294967296) }
    ensures { (result ≡ at + row_size row) × (records.new ≡ wrote records.old (k * 24) (record_of scale at (cue_at samples.now row))) × (pool.new ≡ wrote pool.old at (texts_of (cue_at samples.now row).body)) }
{
    let start = ms_of(scale, row.start as u64);
    let end = ms_of(scale, row.end as u64);
    let identifier = text_in(samples, row.identifier);
    let settings = text_in(samples, row.settings);
    let payload = text_in(samples, row.payload);
    put_cue(
        &mut *records,
        k,
        row.id as u32,
        start as u32,
        end as u32,
        &mut *pool,
        at,
        identifier,
        settings,
        payload,
    )
}

// The records and the texts of the first n rows.
pub fn put_rows(
    scale: u32,
    samples: &[u8],
    tab: &[usize],
    n: usize,
    records: &mut [u8],
    pool: &mut [u8],
)
    requires { (0 < scale) × (n ≤ 1024) × (n * 9 ≤ length tab.now) × ((i : ℕ) → i < n → Ready (length samples.now) (row_at tab.now i)) × ((i : ℕ) → i < n → InTime scale (row_at tab.now i)) × (n * 24 ≤ length records.old) × (size_to tab.now n ≤ length pool.old) }
    ensures { (records.new ≡ over (records_to scale (known samples.now tab.now n) n) records.old) × (pool.new ≡ over (pool_to (known samples.now tab.now n) n) pool.old) }
{
    let mut at = 0;
    for i in 0..n {
        let row = row_at(tab, i);
        at = write_row(scale, samples, row, &mut *records, i, &mut *pool, at);
    }
}
