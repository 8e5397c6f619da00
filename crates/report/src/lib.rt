// What the program prints: the answer to an input line, a record file and a pool file.
#![tactic(auto)]

ghost use Rattle.std.specs.Prelude.{◌≡◌, ◌*◌, ◌≤◌, length};
ghost use Rattle.base.specs.Choice.{both};
ghost use Rattle.base.specs.Over.{over};
ghost use Rattle.pack.specs.Writing.{count_of};
ghost use Rattle.report.specs.Report.{packed_text, list_text, usable, answer_text, whole, output_text};

use listing::{put_refusal, put_rows};
use pack::pack;
use table::Sizes;
use verdict::Refusal;

// What the system answered for a file: the descriptor of the open, how many bytes of it stand in the buffer, and what a read behind them answered.
#[derive(Clone, Copy)]
pub struct Taken {
    pub fd: i32,
    pub n: usize,
    pub more: isize,
}

// The table's lines, or the refusal's; gives their length.
fn put_packed(answer: Result<Sizes, Refusal>, table: &[u8], out: &mut [u8]) -> usize
    requires { (count_of answer * 8 ≤ length table.now) × (count_of answer * 22 ≤ length out.old) × (40 ≤ length out.old) }
    ensures { (result ≡ length (packed_text answer table.now)) × (out.new ≡ over (packed_text answer table.now) out.old) }
{
    match answer {
        Ok(sizes) => put_rows(table, sizes.samples, &mut *out),
        Err(why) => put_refusal(why.number, why.place, &mut *out),
    }
}

// Packs a list with room for 2,049 samples and 65,536 bytes of them; gives the length of the text.
pub fn put_list(scale: u32, t: u32, records: &[u8], pool: &[u8], out: &mut [u8]) -> usize
    requires { 45078 ≤ length out.old }
    ensures { (result ≡ length (list_text scale t records.now pool.now)) × (out.new ≡ over (list_text scale t records.now pool.now) out.old) }
{
    let mut table = [0u8; 16392];
    let mut samples = [0u8; 65536];
    let answer = pack(scale, t, records, pool, &mut table, &mut samples);
    put_packed(answer, &table, &mut *out)
}

// Both files were read to their end, and neither is longer than 32 KiB.
#[tactic(auto, unfolding(crate::specs::Report::usable))]
fn are_usable(found: bool, records: &[u8], pool: &[u8]) -> bool
    ensures { result ≡ usable found records.now pool.now }
{
    found && records.len() <= 32768 && pool.len() <= 32768
}

// The answer to a line and two files, of which `found` says whether both were read to their end.
pub fn put_answer(
    line: Option<(u32, u32)>,
    found: bool,
    records: &[u8],
    pool: &[u8],
    out: &mut [u8],
) -> usize
    requires { 45078 ≤ length out.old }
    ensures { (result ≡ length (answer_text line found records.now pool.now)) × (out.new ≡ over (answer_text line found records.now pool.now) out.old) × (result ≤ length out.new) }
{
    let Some((scale, t)) = line else {
        return put_refusal(10, 0, &mut *out);
    };
    if are_usable(found, records, pool) {
        put_list(scale, t, records, pool, &mut *out)
    } else {
        put_refusal(9, 0, &mut *out)
    }
}

// The file was opened and read to its end, where a read answers 0. One that fails answers -1, as that of a folder does.
fn is_whole(file: Taken) -> bool
    ensures { result ≡ whole file }
{
    let fd = file.fd;
    let more = file.more;
    fd >= 0 && more == 0
}

// The program's whole output: the line, and both files by what the system answered for them.
pub fn put_output(
    line: Option<(u32, u32)>,
    first: Taken,
    second: Taken,
    records: &[u8],
    pool: &[u8],
    out: &mut [u8],
) -> usize
    requires { (first.n ≤ length records.now) × (second.n ≤ length pool.now) × (45078 ≤ length out.old) }
    ensures { (result ≡ length (output_text line first second records.now pool.now)) × (out.new ≡ over (output_text line first second records.now pool.now) out.old) × (result ≤ length out.new) }
{
    let n = first.n;
    let m = second.n;
    let found = is_whole(first) && is_whole(second);
    put_answer(line, found, &records[..n], &pool[..m], &mut *out)
}
