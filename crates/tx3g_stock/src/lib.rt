// A `tx3g` track: the judgement of its samples beside their entry, and how many modifier boxes of each kind they hold.
#![tactic(auto)]

ghost use Rattle.std.specs.Prelude.{◌≡◌, List, ℕ, ◌+◌, ◌*◌, ◌≤◌, ◌<◌, eqb, length};
ghost use Rattle.base.specs.Choice.{pick};
ghost use Rattle.verdict.specs.Verdict.{Fine};
ghost use Rattle.tx3g_entry.specs.Entry.{judge_entry};
ghost use Rattle.tx3g_stock.specs.Stock.{judge_stock, kinds_in, counts_by, counts_of};
ghost use Rattle.tx3g_stock.specs.Terms.{together, Each, AtMost};

use boxes::{Step, step_at};
use table::{judge_by, size_at};
use tx3g_contents::{BLNK, DLAY, HCLR, HLIT, HREF, KROK, TBOX, TWRP};
use tx3g_sample::{judge_beside, text_end};
use verdict::Verdict;

// How many boxes of each kind; `blnk` is retired.
#[derive(Clone, Copy)]
pub struct Counts {
    pub hlit: usize,
    pub retired_blinking: usize,
    pub hclr: usize,
    pub krok: usize,
    pub dlay: usize,
    pub href: usize,
    pub tbox: usize,
    pub twrp: usize,
}

const NONE: Counts = Counts {
    hlit: 0,
    retired_blinking: 0,
    hclr: 0,
    krok: 0,
    dlay: 0,
    href: 0,
    tbox: 0,
    twrp: 0,
};

// The verdict on a track beside an entry without fault.
pub fn judge_stock(e: &[u8], table: &[u8], samples: &[u8]) -> Verdict
    requires { judge_entry e.now ≡ Fine }
    ensures { result ≡ judge_stock e.now table.now samples.now }
{
    judge_by(&|s: &[u8]| judge_beside(e, s), table, samples)
}

// A count, with one more for a box of the wanted kind.
fn count_kind(n: usize, kind: u32, wanted: u32) -> usize
    requires { n < 18446744073709551615 }
    ensures { result ≡ n + pick (eqb kind wanted) 1 0 }
{
    n + usize::from(kind == wanted)
}

// The counts with one more box.
fn count_box(c: Counts, kind: u32) -> Counts
    requires { Each 18446744073709551614 c }
    ensures { result ≡ together c (counts_by (λ k. pick (eqb kind k) 1 0)) }
{
    Counts {
        hlit: count_kind(c.hlit, kind, HLIT),
        retired_blinking: count_kind(c.retired_blinking, kind, BLNK),
        hclr: count_kind(c.hclr, kind, HCLR),
        krok: count_kind(c.krok, kind, KROK),
        dlay: count_kind(c.dlay, kind, DLAY),
        href: count_kind(c.href, kind, HREF),
        tbox: count_kind(c.tbox, kind, TBOX),
        twrp: count_kind(c.twrp, kind, TWRP),
    }
}

// The counts with the boxes of a sample.
fn count_boxes(s: &[u8], c: Counts) -> Counts
    requires { (2 ≤ length s.now) × AtMost 9223372036854775807 c }
    ensures { result ≡ together c (counts_by (λ k. kinds_in k s.now)) }
{
    let end = s.len();
    let mut counts = c;
    let mut at = text_end(s);
    loop {
        let t = step_at(s, at, end);
        let Step::Box {
            kind,
            body: _,
            next,
        } = t
        else {
            return counts;
        };
        counts = count_box(counts, kind);
        at = next;
    }
}

// The counts of a track without fault.
pub fn count_stock(table: &[u8], samples: &[u8]) -> Counts
    requires { (e : List ℕ) × (judge_stock e table.now samples.now ≡ Fine) }
    ensures { result ≡ counts_of table.now samples.now }
{
    let count = table.len() / 8;
    let mut counts = NONE;
    let mut at = 0;
    for i in 0..count {
        let end = at + size_at(table, i);
        counts = count_boxes(&samples[at..end], counts);
        at = end;
    }
    counts
}
