// The program's output: a line for each record of a sample table, or one line for a refusal.
#![tactic(auto)]

ghost use Rattle.std.specs.Prelude.{◌≡◌, ◌+◌, ◌*◌, ◌≤◌, length};
ghost use Rattle.base.specs.Over.{over, wrote};
ghost use Rattle.listing.specs.Listing.{number_text, pair_text, row_text, rows_text, word, refusal_text};

use decimal::put_decimal;
use fields::get32;

// A number and a byte behind it; gives the place behind both.
fn put_number(out: &mut [u8], at: usize, n: u64, end: u8) -> usize
    requires { at + length (number_text n end) ≤ length out.old }
    ensures { (result ≡ at + length (number_text n end)) × (out.new ≡ wrote out.old at (number_text n end)) }
{
    let behind = put_decimal(&mut *out, at, n);
    out[behind] = end;
    behind + 1
}

// Two numbers with a space between and LF after; gives the place behind them.
fn put_pair(out: &mut [u8], at: usize, n: u64, m: u64) -> usize
    requires { at + length (pair_text n m) ≤ length out.old }
    ensures { (result ≡ at + length (pair_text n m)) × (out.new ≡ wrote out.old at (pair_text n m)) }
{
    let behind = put_number(&mut *out, at, n, 32);
    put_number(&mut *out, behind, m, 10)
}

// The line of record k of the table; gives the place behind it.
fn put_row(table: &[u8], k: usize, out: &mut [u8], at: usize) -> usize
    requires { (k * 8 + 8 ≤ length table.now) × (at + 22 ≤ length out.old) }
    ensures { (result ≡ at + length (row_text table.now k)) × (result ≤ at + 22) × (out.new ≡ wrote out.old at (row_text table.now k)) }
{
    let duration = u64::from(get32(table, k * 8));
    let size = u64::from(get32(table, k * 8 + 4));
    put_pair(&mut *out, at, duration, size)
}

// The lines of the first `count` records of the table; gives their length.
pub fn put_rows(table: &[u8], count: usize, out: &mut [u8]) -> usize
    requires { (count * 8 ≤ length table.now) × (count * 22 ≤ length out.old) }
    ensures { (result ≡ length (rows_text table.now count)) × (out.new ≡ over (rows_text table.now count) out.old) }
{
    let mut at = 0;
    for k in 0..count {
        at = put_row(table, k, &mut *out, at);
    }
    at
}

// The word `refused` and a space.
fn put_word(out: &mut [u8])
    requires { 8 ≤ length out.old }
    ensures { out.new ≡ wrote out.old 0 word }
{
    out[..8].copy_from_slice(b"refused ");
}

// The line of a refusal; gives its length.
pub fn put_refusal(number: u32, place: usize, out: &mut [u8]) -> usize
    requires { 40 ≤ length out.old }
    ensures { (result ≡ length (refusal_text number place)) × (out.new ≡ over (refusal_text number place) out.old) }
{
    put_word(&mut *out);
    put_pair(&mut *out, 8, u64::from(number), place as u64)
}
