// The table of the cues that are known: nine numbers for each, its ID, its start and end ticks, and from where to where each of its
// three texts stands in the bytes that are read. Texts are compared where they stand.
#![tactic(auto)]

ghost use Rattle.std.specs.Prelude.{◌≡◌, ◌+◌, ◌*◌, ◌≤◌, ◌<◌, length};
ghost use Rattle.base.specs.Choice.{same_list};
ghost use Rattle.base.specs.Over.{wrote};
ghost use Rattle.boxes.specs.Boxes.{part};
ghost use Rattle.rows.specs.Table.{row_at, numbers_of, moved, new_row, same_texts, judged_again, Placed, Missing, Finds};

use boxes::Part;
use compare::same_bytes;
use wvtt_cues::Parts;

// A cue that is known.
#[derive(Clone, Copy)]
pub struct Row {
    pub id: usize,
    pub start: usize,
    pub end: usize,
    pub identifier: Part,
    pub settings: Part,
    pub payload: Part,
}

pub fn row_at(tab: &[usize], i: usize) -> Row
    requires { i * 9 + 9 ≤ length tab.now }
    ensures { result ≡ row_at tab.now i }
{
    let at = i * 9;
    Row {
        id: tab[at],
        start: tab[at + 1],
        end: tab[at + 2],
        identifier: Part {
            from: tab[at + 3],
            end: tab[at + 4],
        },
        settings: Part {
            from: tab[at + 5],
            end: tab[at + 6],
        },
        payload: Part {
            from: tab[at + 7],
            end: tab[at + 8],
        },
    }
}

pub fn put_row(tab: &mut [usize], i: usize, row: Row)
    requires { i * 9 + 9 ≤ length tab.old }
    ensures { tab.new ≡ wrote tab.old (i * 9) (numbers_of row) }
{
    let at = i * 9;
    tab[at] = row.id;
    tab[at + 1] = row.start;
    tab[at + 2] = row.end;
    tab[at + 3] = row.identifier.from;
    tab[at + 4] = row.identifier.end;
    tab[at + 5] = row.settings.from;
    tab[at + 6] = row.settings.end;
    tab[at + 7] = row.payload.from;
    tab[at + 8] = row.payload.end;
}

// A part of the sample that begins at `at`, as a part of all sample bytes.
fn move_part(part: Part, at: usize) -> Part
    requires { (at + part.from < 18446744073709551616) × (at + part.end < 18446744073709551616) }
    ensures { result ≡ moved at part }
{
    Part {
        from: at + part.from,
        end: at + part.end,
    }
}

// A row for a cue of the sample whose bytes begin at `at` and which goes from tick b to e.
pub fn new_row(parts: Parts, at: usize, b: usize, e: usize) -> Row
    requires { (at + parts.identifier.from < 18446744073709551616) × (at + parts.identifier.end < 18446744073709551616) × (at + parts.settings.from < 18446744073709551616) × (at + parts.settings.end < 18446744073709551616) × (at + parts.payload.from < 18446744073709551616) × (at + parts.payload.end < 18446744073709551616) }
    ensures { result ≡ new_row at b e parts }
{
    Row {
        id: parts.id as usize,
        start: b,
        end: e,
        identifier: move_part(parts.identifier, at),
        settings: move_part(parts.settings, at),
        payload: move_part(parts.payload, at),
    }
}

// Two parts have the same bytes.
fn same_part(samples: &[u8], x: Part, y: Part) -> bool
    requires { (x.from ≤ x.end) × (x.end ≤ length samples.now) × (y.from ≤ y.end) × (y.end ≤ length samples.now) }
    ensures { result ≡ same_list (part samples.now x.from x.end) (part samples.now y.from y.end) }
{
    same_bytes(&samples[x.from..x.end], &samples[y.from..y.end])
}

// Two rows have the same texts.
fn same_texts(samples: &[u8], x: Row, y: Row) -> bool
    requires { Placed (length samples.now) x × Placed (length samples.now) y }
    ensures { result ≡ same_texts samples.now x y }
{
    same_part(samples, x.identifier, y.identifier)
        && same_part(samples, x.settings, y.settings)
        && same_part(samples, x.payload, y.payload)
}

// The latest of the first n rows that has an ID, or n. Inlined, the loop would read its pointer from the stack at each row; by `rev` it
// is longer than sixteen bytes, and takes half as long again at every other address on some processors.
#[inline(never)]
fn latest_row(tab: &[usize], n: usize, id: usize) -> usize
    requires { n * 9 ≤ length tab.now }
    ensures { (result ≤ n) × (result < n → (row_at tab.now result).id ≡ id) × (n ≤ result → Missing tab.now 0 n id) }
{
    for passed in 0..n {
        let j = n - passed - 1;
        if tab[j * 9] == id {
            return j;
        }
    }
    n
}

// The row of an ID, if it is known. It is looked for at k first, the place after the previous cue's, and then from the latest rows back.
pub fn find_id(tab: &[usize], n: usize, k: usize, id: usize) -> Option<usize>
    requires { n * 9 ≤ length tab.now }
    ensures { Finds tab.now n id result }
{
    if k < n && tab[k * 9] == id {
        return Some(k);
    }
    let j = latest_row(tab, n, id);
    if j < n { Some(j) } else { None }
}

// Whether a cue y whose ID stands in row j, that is x, goes on there; or the number of what is wrong: twice in the sample, back after a gap, other texts, out of order.
#[tactic(auto, unfolding(crate::specs::Table::judged_again))]
pub fn judge_again(samples: &[u8], x: Row, y: Row, k: usize, j: usize) -> Result<(), u32>
    requires { Placed (length samples.now) x × Placed (length samples.now) y }
    ensures { result ≡ judged_again samples.now x y k j }
{
    if x.end == y.end {
        return Err(12);
    }
    if x.end < y.start {
        return Err(13);
    }
    if !same_texts(samples, x, y) {
        return Err(14);
    }
    if j < k { Err(11) } else { Ok(()) }
}
