// The lines of a WebVTT file: a cursor that passes them and counts them, and what a block's lines hold.
#![tactic(auto)]

ghost use Rattle.std.specs.Prelude.{◌≡◌, true, ◌+◌, ◌-◌, ◌^◌, ◌≤◌, ◌<◌, leb, length, drop};
ghost use Rattle.base.specs.Choice.{pick, both, any_of};
ghost use Rattle.ascii.specs.Ascii.{all};
ghost use Rattle.utf8.specs.Strings.{starts_with};
ghost use Rattle.utf8.specs.Forbidden.{arrow};
ghost use Rattle.vtt_lines.specs.Lines.{lines_of, filled, holds_arrow, some_arrow};
ghost use Rattle.vtt_lines.specs.Cursor.{low, high, end_size, end_at, found_at, moved_on, Ahead, begins_filled, begins_empty, EmptyTo, PassedTo, joint, JoinedAt, ScannedTo, WrittenTo, GatheredTo};

use utf8::is_line_end;

// A place in a text, and the number of the line there.
#[derive(Clone, Copy)]
pub struct Cursor {
    pub at: usize,
    pub line: usize,
}

// Where a line ends, where the next one begins, and the next one's number.
#[derive(Clone, Copy)]
pub struct Line {
    pub end: usize,
    pub next: usize,
    pub number: usize,
}

// The place and number of the line behind those that were passed, and whether one of them holds `-->`.
#[derive(Clone, Copy)]
pub struct Passed {
    pub at: usize,
    pub line: usize,
    pub arrow: bool,
}

// The length of the lines joined, and the place and number of the line behind them.
#[derive(Clone, Copy)]
pub struct Gathered {
    pub length: usize,
    pub at: usize,
    pub line: usize,
}

// 1 for the bytes up to CR, of which LF is one, else 0. One comparison, so that the compiler takes eight bytes at once.
#[tactic(auto, unfolding(crate::specs::Cursor::low))]
fn low_mark(b: u8) -> u8
    ensures { result ≡ pick (low b) 1 0 }
{
    u8::from(b <= b'\r')
}

// Whether there are eight bytes from i on and each is past CR, so that none ends a line.
fn is_inside8(s: &[u8], i: usize) -> bool
    requires { i ≤ length s.now }
    ensures { result ≡ both (leb 8 (length s.now - i)) (all high s.now i 8) }
{
    if s.len() - i < 8 {
        return false;
    }
    let mut x = 0;
    for k in 0..8 {
        x |= low_mark(s[i + k]);
    }
    x == 0
}

// Passes eight bytes of a line at a stride.
fn pass_inside(s: &[u8], at: usize) -> usize
    requires { at ≤ length s.now }
    ensures { (end_at s.now result ≡ end_at s.now at) × (result ≤ length s.now) }
{
    let mut i = at;
    // By eights while a test on the next eight holds: no iterator steps so.
    while is_inside8(s, i) {
        i += 8;
    }
    i
}

// The length of the lines joined, the end of the last, whether they stand so in the text, and the place and number of the line behind them.
#[derive(Clone, Copy)]
pub struct Scanned {
    pub length: usize,
    pub end: usize,
    pub plain: bool,
    pub at: usize,
    pub line: usize,
}

// The place of the first CR or LF from `at` on, or the text's end.
fn end_of(s: &[u8], at: usize) -> usize
    requires { at ≤ length s.now }
    ensures { (result ≡ end_at s.now at) × (result ≤ length s.now) }
{
    let from = pass_inside(s, at);
    for i in from..s.len() {
        if is_line_end(s[i]) {
            return i;
        }
    }
    s.len()
}

// The place behind a line's end: one byte, two of CR LF, none at the text's end.
fn after_end(s: &[u8], end: usize) -> usize
    requires { end ≤ length s.now }
    ensures { result ≡ end + end_size (drop end s.now) }
{
    if s.len() <= end {
        return end;
    }
    let next = end + 1;
    if s[end] != b'\r' {
        return next;
    }
    if s.len() <= next {
        return next;
    }
    if s[next] != b'\n' {
        return next;
    }
    next + 1
}

// The line at `at`, the `line`th.
fn line_at(s: &[u8], at: usize, line: usize) -> Line
    requires { (at ≤ length s.now) × (line ≤ at + 1) }
    ensures { result ≡ found_at s.now at line }
{
    let end = end_of(s, at);
    let next = after_end(s, end);
    Line {
        end,
        next,
        number: line + 1,
    }
}

// Moves the cursor past its line, and answers where that line ends. A line that is passed has a byte at least, so a text has room for its number.
pub fn next_line(c: &mut Cursor, s: &[u8]) -> usize
    requires { (c.old.at ≤ length s.now) × (c.old.line ≤ c.old.at + 1) }
    ensures { (result ≡ end_at s.now c.old.at) × (c.new ≡ moved_on s.now c.old) }
{
    let l = line_at(s, c.at, c.line);
    c.at = l.next;
    c.line = l.number;
    l.end
}

// The line at `at`, the `line`th, by the cursor.
pub fn line_from(s: &[u8], at: usize, line: usize) -> Line
    requires { (at ≤ length s.now) × (line ≤ at + 1) }
    ensures { (result ≡ found_at s.now at line) × Ahead s.now at line result }
{
    let mut c = Cursor { at, line };
    let end = next_line(&mut c, s);
    Line {
        end,
        next: c.at,
        number: c.line,
    }
}

// Whether `-->` stands at i.
pub fn is_arrow(s: &[u8], i: usize) -> bool
    requires { i + 2 < length s.now }
    ensures { result ≡ starts_with arrow (drop i s.now) }
{
    s[i + 2] == b'>' && (s[i + 1] == b'-' && s[i] == b'-')
}

// Whether `-->` stands where a timing line with hours has it.
fn is_usual(line: &[u8]) -> bool
    ensures { result ≡ true → holds_arrow line.now ≡ true }
{
    line.len() >= 16 && is_arrow(line, 13)
}

// Whether `-->` stands in the line.
pub fn holds_arrow(line: &[u8]) -> bool
    ensures { result ≡ holds_arrow line.now }
{
    if is_usual(line) {
        return true;
    }
    for i in 0..line.len().saturating_sub(2) {
        if is_arrow(line, i) {
            return true;
        }
    }
    false
}

// Whether `-->` was seen before or stands in the line.
fn sees_arrow(seen: bool, line: &[u8]) -> bool
    ensures { result ≡ any_of seen (holds_arrow line.now) }
{
    seen || holds_arrow(line)
}

// Whether a line that is not empty begins at `at`.
pub fn is_filled(s: &[u8], at: usize) -> bool
    ensures { result ≡ begins_filled (drop at s.now) }
{
    at < s.len() && !is_line_end(s[at])
}

// Whether an empty line begins at `at`.
fn is_empty(s: &[u8], at: usize) -> bool
    ensures { result ≡ begins_empty (drop at s.now) }
{
    at < s.len() && is_line_end(s[at])
}

// Passes empty lines.
pub fn pass_empty(s: &[u8], at: usize, line: usize) -> Cursor
    requires { (at ≤ length s.now) × (line ≤ at + 1) }
    ensures { EmptyTo s.now at line result.at result.line }
{
    let mut place = at;
    let mut number = line;
    while is_empty(s, place) {
        place = after_end(s, place);
        number += 1;
    }
    Cursor {
        at: place,
        line: number,
    }
}

// Passes the lines up to an empty one or the end.
pub fn pass_lines(s: &[u8], at: usize, line: usize) -> Passed
    requires { (at ≤ length s.now) × (line ≤ at + 1) }
    ensures { PassedTo s.now at line result.at result.line × (result.arrow ≡ some_arrow (filled (lines_of (drop at s.now)))) }
{
    let mut place = at;
    let mut number = line;
    let mut arrow = false;
    while is_filled(s, place) {
        let l = line_from(s, place, number);
        let end = l.end;
        arrow = sees_arrow(arrow, &s[place..end]);
        place = l.next;
        number = l.number;
    }
    Passed {
        at: place,
        line: number,
        arrow,
    }
}

// The length of a text of n bytes with one more line of so many bytes.
fn with_line(n: usize, bytes: usize) -> usize
    requires { n + bytes + 1 < 2 ^ 64 }
    ensures { result ≡ n + length (joint n) + bytes }
{
    if n == 0 { bytes } else { n + 1 + bytes }
}

// Whether a text of n bytes that stands up to `end` goes on at `at` with a line behind one LF.
fn goes_on(plain: bool, s: &[u8], n: usize, end: usize, at: usize) -> bool
    requires { (at ≤ length s.now) × (end < 2 ^ 63) }
    ensures { result ≡ true → (plain ≡ true) × JoinedAt s.now n end at }
{
    plain && (n == 0 || (at == end + 1 && s[end] == b'\n'))
}

// The lines up to an empty one or the end, as they would be joined by one LF.
pub fn scan(s: &[u8], at: usize, line: usize) -> Scanned
    requires { (at ≤ length s.now) × (line ≤ at + 1) }
    ensures { PassedTo s.now at line result.at result.line × ScannedTo s.now at result.length result.end result.plain }
{
    let mut place = at;
    let mut number = line;
    let mut size = 0;
    let mut end = at;
    let mut plain = true;
    while is_filled(s, place) {
        let l = line_from(s, place, number);
        plain = goes_on(plain, s, size, end, place);
        size = with_line(size, l.end - place);
        end = l.end;
        place = l.next;
        number = l.number;
    }
    Scanned {
        length: size,
        end,
        plain,
        at: place,
        line: number,
    }
}

// Writes the LF that joins a line to a text of n bytes, if there is such a text and room; gives the length with it.
fn put_joint(buf: &mut [u8], n: usize) -> usize
    requires { n + 1 < 2 ^ 64 }
    ensures { (result ≡ n + length (joint n)) × WrittenTo buf.old buf.new n (joint n) }
{
    if n == 0 {
        return n;
    }
    let end = n + 1;
    if buf.len() < end {
        return end;
    }
    buf[n] = b'\n';
    end
}

// Writes the bytes behind a text of n bytes, if there is room; gives the length with them.
fn put_bytes(buf: &mut [u8], n: usize, bytes: &[u8]) -> usize
    requires { n + length bytes.now < 2 ^ 64 }
    ensures { (result ≡ n + length bytes.now) × WrittenTo buf.old buf.new n bytes.now }
{
    let end = n + bytes.len();
    if buf.len() < end {
        return end;
    }
    for i in 0..bytes.len() {
        buf[n + i] = bytes[i];
    }
    end
}

// The lines up to an empty one or the end, joined by one LF into the buffer as far as they fit. The length counts on past it.
pub fn gather(s: &[u8], at: usize, line: usize, buf: &mut [u8]) -> Gathered
    requires { (at ≤ length s.now) × (line ≤ at + 1) }
    ensures { PassedTo s.now at line result.at result.line × GatheredTo s.now at buf.old buf.new result.length }
{
    let mut place = at;
    let mut number = line;
    let mut size = 0;
    while is_filled(s, place) {
        let l = line_from(s, place, number);
        let end = l.end;
        let from = put_joint(&mut *buf, size);
        size = put_bytes(&mut *buf, from, &s[place..end]);
        place = l.next;
        number = l.number;
    }
    Gathered {
        length: size,
        at: place,
        line: number,
    }
}
