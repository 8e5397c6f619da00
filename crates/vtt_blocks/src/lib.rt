// The blocks of a WebVTT file: what stands at the place of a line.
#![tactic(auto)]

ghost use Rattle.std.specs.Prelude.{◌≡◌, ◌+◌, ◌≤◌, ◌<◌, length, false};
ghost use Rattle.vtt_lines.specs.Lines.{holds_arrow};
ghost use Rattle.vtt_blocks.specs.Kinds.{opens, names};
ghost use Rattle.vtt_blocks.specs.Found.{text_in, TimedIs, PlainIs, FoundIs};

use text::agreeing;
use vtt_lines::{holds_arrow, line_from, pass_lines};
use vtt_timing::{is_blank, is_blank_from, read_timing};

// A cue: where its identifier ends, which begins at the block; its times in milliseconds, at most 360,000,000; where its settings stand; the number of its timing
// line, and where the line behind that begins.
#[derive(Clone, Copy)]
pub struct Place {
    pub identifier: usize,
    pub start: u32,
    pub end: u32,
    pub from: usize,
    pub to: usize,
    pub line: usize,
    pub payload: usize,
}

// What stands at the place of a line.
#[derive(Clone, Copy)]
pub enum Found {
    // An empty line, and the place and number of the next.
    Empty { at: usize, line: usize },
    Cue(Place),
    // A cue whose timing line, of this number, is malformed.
    Untimed { line: usize },
    // A NOTE, and the place and number of the line behind it.
    Note { at: usize, line: usize },
    // STYLE or REGION.
    Style,
    Other,
}

// Whether the line is the word, and then nothing, or a blank and anything.
pub fn opens_with(line: &[u8], word: &[u8]) -> bool
    ensures { result ≡ opens word.now line.now }
{
    let n = word.len();
    if agreeing(line, word) < n {
        return false;
    }
    if line.len() <= n {
        return true;
    }
    is_blank(line[n])
}

// Whether the line is the word, and then only blanks.
fn is_named(line: &[u8], word: &[u8]) -> bool
    ensures { result ≡ names word.now line.now }
{
    let n = word.len();
    if agreeing(line, word) < n {
        return false;
    }
    is_blank_from(line, n)
}

// The cue with the timing line from `from` to `end`, the `line`th.
fn find_cue(
    s: &[u8],
    identifier: usize,
    from: usize,
    end: usize,
    line: usize,
    payload: usize,
) -> Found
    requires { (from ≤ end) × (end ≤ length s.now) }
    ensures { TimedIs s.now identifier from end line payload result }
{
    match read_timing(&s[from..end]) {
        Some(times) => Found::Cue(Place {
            identifier,
            start: times.start,
            end: times.end,
            from: from + times.from,
            to: from + times.to,
            line,
            payload,
        }),
        None => Found::Untimed { line },
    }
}

// A block without timing line, whose first line goes from `at` to `end`, and whose second line, the `line`th, begins at `next`.
fn find_plain(s: &[u8], at: usize, end: usize, next: usize, line: usize) -> Found
    requires { (at ≤ end) × (end ≤ length s.now) × (next ≤ length s.now) × (line ≤ next + 1) × (holds_arrow (text_in s.now at end) ≡ false) }
    ensures { PlainIs s.now (text_in s.now at end) next line result }
{
    if is_named(&s[at..end], b"STYLE") {
        return Found::Style;
    }
    if is_named(&s[at..end], b"REGION") {
        return Found::Style;
    }
    if !opens_with(&s[at..end], b"NOTE") {
        return Found::Other;
    }
    let p = pass_lines(s, next, line);
    if p.arrow {
        return Found::Other;
    }
    Found::Note {
        at: p.at,
        line: p.line,
    }
}

// What stands at `at`, the `line`th line. The line behind the first is asked for `-->` before the block's end is known.
pub fn find_block(s: &[u8], at: usize, line: usize) -> Found
    requires { (at < length s.now) × (line ≤ at + 1) }
    ensures { FoundIs s.now at line result }
{
    let first = line_from(s, at, line);
    let end = first.end;
    let next = first.next;
    if end == at {
        return Found::Empty {
            at: next,
            line: first.number,
        };
    }
    if holds_arrow(&s[at..end]) {
        return find_cue(s, at, at, end, line, next);
    }
    let second = line_from(s, next, first.number);
    let last = second.end;
    if holds_arrow(&s[next..last]) {
        return find_cue(s, end, next, last, first.number, second.next);
    }
    find_plain(s, at, end, next, first.number)
}
