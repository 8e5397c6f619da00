// The timing line of a cue: two times and the settings.
#![tactic(auto)]

ghost use Rattle.std.specs.Prelude.{◌≡◌, true, ◌+◌, ◌-◌, ◌≤◌, eqb, length, take, drop};
ghost use Rattle.timestamps.specs.Timestamps.{front, behind};
ghost use Rattle.base.specs.Choice.{both};
ghost use Rattle.utf8.specs.Strings.{starts_with};
ghost use Rattle.utf8.specs.Forbidden.{arrow};
ghost use Rattle.vtt_timing.specs.Timing.{blank, edge, begins, trimmed_end};
ghost use Rattle.vtt_timing.specs.Read.{in_run, Usual, UsuallyRead, ReadAs};

use timestamps::read_timestamp;
use vtt_lines::is_arrow;

// What a timing line says: times in milliseconds, at most 360,000,000, and where the settings stand in the line.
#[derive(Clone, Copy)]
pub struct Times {
    pub start: u32,
    pub end: u32,
    pub from: usize,
    pub to: usize,
}

// A run of bytes: spaces and tabs; all others; spaces, tabs and form feeds.
#[derive(Clone, Copy)]
pub enum Run {
    Blanks,
    Word,
    Edges,
}

// A space or a tab.
#[tactic(auto, unfolding(crate::specs::Timing::blank))]
pub fn is_blank(b: u8) -> bool
    ensures { result ≡ blank b }
{
    matches!(b, b' ' | b'\t')
}

// A space, tab or form feed.
#[tactic(auto, unfolding(crate::specs::Timing::edge))]
fn is_edge(b: u8) -> bool
    ensures { result ≡ edge b }
{
    is_blank(b) || b == 0x0C
}

pub fn is_in(run: Run, b: u8) -> bool
    ensures { result ≡ in_run run b }
{
    match run {
        Run::Blanks => is_blank(b),
        Run::Word => !is_blank(b),
        Run::Edges => is_edge(b),
    }
}

// The place behind the run that begins at `at`.
pub fn pass_run(s: &[u8], at: usize, run: Run) -> usize
    requires { at ≤ length s.now }
    ensures { (result ≡ at + length (front (in_run run) (drop at s.now))) × (result ≤ length s.now) }
{
    for i in at..s.len() {
        if !is_in(run, s[i]) {
            return i;
        }
    }
    s.len()
}

// The place behind what is left from `from` on without the spaces, tabs and form feeds at the end.
fn trim_end(s: &[u8], from: usize) -> usize
    requires { from ≤ length s.now }
    ensures { (from ≤ result) × (result ≤ length s.now) × (take (result - from) (drop from s.now) ≡ trimmed_end (drop from s.now)) }
{
    for to in (from..s.len()).rev() {
        if !is_edge(s[to]) {
            return to + 1;
        }
    }
    from
}

// Whether `-->` and a blank stand at i.
fn is_between(l: &[u8], i: usize) -> bool
    ensures { result ≡ both (starts_with arrow (drop i l.now)) (begins blank (drop 3 (drop i l.now))) }
{
    if l.len() <= i {
        return false;
    }
    if l.len() - i < 4 {
        return false;
    }
    if !is_arrow(l, i) {
        return false;
    }
    is_blank(l[i + 3])
}

// Whether only spaces and tabs stand from `at` on.
pub fn is_blank_from(s: &[u8], at: usize) -> bool
    requires { at ≤ length s.now }
    ensures { result ≡ eqb (length (behind blank (drop at s.now))) 0 }
{
    pass_run(s, at, Run::Blanks) == s.len()
}

// Whether blanks and `-->` stand where `hh:mm:ss.mmm --> hh:mm:ss.mmm` has them.
fn is_usual(l: &[u8]) -> bool
    ensures { result ≡ true → Usual l.now }
{
    if l.len() < 29 {
        return false;
    }
    if l[12] != b' ' {
        return false;
    }
    if l[16] != b' ' {
        return false;
    }
    if !is_arrow(l, 13) {
        return false;
    }
    if l.len() == 29 {
        return true;
    }
    is_blank(l[29])
}

// Reads a timing line of the usual form by its places; another one may be one or not.
fn read_usual(l: &[u8]) -> Option<Times>
    ensures { UsuallyRead l.now result }
{
    if !is_usual(l) {
        return None;
    }
    let start = read_timestamp(&l[0..12])?;
    let end = read_timestamp(&l[17..29])?;
    let from = pass_run(l, 29, Run::Edges);
    let to = trim_end(l, from);
    Some(Times {
        start,
        end,
        from,
        to,
    })
}

// Reads a timing line word by word.
fn read_words(l: &[u8]) -> Option<Times>
    ensures { ReadAs l.now result }
{
    let first = pass_run(l, 0, Run::Word);
    let arrow = pass_run(l, first, Run::Blanks);
    if !is_between(l, arrow) {
        return None;
    }
    let second = pass_run(l, arrow + 3, Run::Blanks);
    let rest = pass_run(l, second, Run::Word);
    let start = read_timestamp(&l[0..first])?;
    let end = read_timestamp(&l[second..rest])?;
    let from = pass_run(l, rest, Run::Edges);
    let to = trim_end(l, from);
    Some(Times {
        start,
        end,
        from,
        to,
    })
}

// Reads a timing line, if it is one.
pub fn read_timing(l: &[u8]) -> Option<Times>
    ensures { ReadAs l.now result }
{
    read_usual(l).or_else(|| read_words(l))
}
