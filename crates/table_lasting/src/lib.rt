// Dropping the samples of duration 0: a table and its samples, copied without them.
#![tactic(auto)]

ghost use Rattle.std.specs.Prelude.{◌≡◌, ◌≤◌, length};
ghost use Rattle.base.specs.Over.{over};
ghost use Rattle.verdict.specs.Verdict.{Fine};
ghost use Rattle.table.specs.Table.{row_count, offset_of, judge_whole};
ghost use Rattle.table.specs.Parts.{table_of, content_of};
ghost use Rattle.table_lasting.specs.Lasting.{lasting_of};
ghost use Rattle.table_lasting.specs.Dropping.{drop_room, drop_of, out_of};
ghost use Rattle.table_lasting.specs.Copying.{Room, Longest};

use table::{Sizes, duration_at, judge_left, judge_size, judge_whole, size_at};
use verdict::{Reason, Refusal, Verdict};
use wvtt_write::copy_run;

// Neighbouring samples that last: the row behind the last of them, and their bytes.
#[derive(Clone, Copy)]
struct Run {
    end: usize,
    bytes: usize,
}

// The room for a table of whole records: the samples that last, where there is no fault.
fn measure_rows(table: &[u8], samples: &[u8]) -> Result<Sizes, Refusal>
    requires { judge_whole table.now ≡ Fine }
    ensures { result ≡ drop_room table.now samples.now }
{
    let count = table.len() / 8;
    let mut kept = 0;
    let mut bytes = 0;
    let mut at = 0;
    for i in 0..count {
        judge_size(table, samples, i, at)?;
        let size = size_at(table, i);
        if duration_at(table, i) != 0 {
            kept += 1;
            bytes += size;
        }
        at += size;
    }
    judge_left(samples, count, at)?;
    Ok(Sizes {
        samples: kept,
        table: kept * 8,
        bytes,
    })
}

// The longest run of samples that last, from a row on.
fn find_run(table: &[u8], from: usize) -> Run
    requires { (from ≤ row_count table.now) × (offset_of table.now (row_count table.now) ≤ 18446744073709551615) }
    ensures { Longest table.now from result.end result.bytes }
{
    let count = table.len() / 8;
    let mut bytes = 0;
    for i in from..count {
        if duration_at(table, i) == 0 {
            return Run { end: i, bytes };
        }
        bytes += size_at(table, i);
    }
    Run { end: count, bytes }
}

// The samples that last, run by run, to the front of both outputs.
fn copy_rows(table: &[u8], samples: &[u8], rows: &mut [u8], content: &mut [u8])
    requires { Room table.now samples.now rows.old content.old }
    ensures rows_after { rows.new ≡ over (table_of (lasting_of table.now samples.now)) rows.old }
    ensures content_after { content.new ≡ over (content_of (lasting_of table.now samples.now)) content.old }
{
    let count = table.len() / 8;
    let mut kept = 0;
    let mut to = 0;
    let mut at = 0;
    let mut i = 0;
    // A step goes over a run and the sample behind it, so it counts no index.
    while i < count {
        let run = find_run(table, i);
        let n = run.end - i;
        copy_run(&mut *rows, kept * 8, table, i * 8, n * 8);
        copy_run(&mut *content, to, samples, at, run.bytes);
        kept += n;
        to += run.bytes;
        at += run.bytes;
        i = run.end;
        if i < count {
            at += size_at(table, i);
            i += 1;
        }
    }
}

// The room that dropping needs: what it answers where there is enough.
pub fn drop_zero_durations_room(table: &[u8], samples: &[u8]) -> Result<Sizes, Refusal>
    ensures { result ≡ drop_room table.now samples.now }
{
    judge_whole(table)?;
    measure_rows(table, samples)
}

// Copies a table and its samples without the samples of duration 0, or says why not.
pub fn drop_zero_durations(
    table: &[u8],
    samples: &[u8],
    rows: &mut [u8],
    content: &mut [u8],
) -> Result<Sizes, Refusal>
    ensures value { result ≡ drop_of table.now samples.now (length rows.old) (length content.old) }
    ensures rows_after { rows.new ≡ out_of result (table_of (lasting_of table.now samples.now)) rows.old }
    ensures content_after { content.new ≡ out_of result (content_of (lasting_of table.now samples.now)) content.old }
{
    let room = drop_zero_durations_room(table, samples)?;
    if rows.len() < room.table {
        return Err(Reason::NoRoom.fault_at(0));
    }
    if content.len() < room.bytes {
        return Err(Reason::NoRoom.fault_at(1));
    }
    copy_rows(table, samples, &mut *rows, &mut *content);
    Ok(room)
}
