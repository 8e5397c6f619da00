// The payload of a `tx3g` sample: what is left of its text, in UTF-8 and escaped, with the tags of its styles.
#![tactic(auto)]

ghost use Rattle.std.specs.Prelude.{◌≡◌, true, false, not, [], ◌∷◌, ◌++◌, ◌+◌, ◌≤◌, ◌<◌, length, drop, get_or, eqb};
ghost use Rattle.base.specs.Choice.{within};
ghost use Rattle.base.specs.Over.{wrote};
ghost use Rattle.ascii.specs.Ascii.{all};
ghost use Rattle.code_points.specs.CodePoints.{encode};
ghost use Rattle.verdict.specs.Verdict.{Fine};
ghost use Rattle.tx3g_entry.specs.Entry.{judge_entry};
ghost use Rattle.tx3g_sample.specs.Reading.{Good};
ghost use Rattle.tx3g_sample.specs.Sample.{judge_sample, read_sample};
ghost use Rattle.tx3g_style.specs.Style.{styles_of};
ghost use Rattle.tx3g_payload.specs.Left.{is_break, only_breaks, left_of};
ghost use Rattle.tx3g_payload.specs.Payload.{escape, flag};
ghost use Rattle.tx3g_payload_write.specs.Sample.{payload_in};
ghost use Rattle.tx3g_payload_write.specs.Terms.{points_by, Spelled, CharacterAt, left_items, CodeMost, given, opens, closes, added_by, shown_by, plain, PlainAhead, Stepped, WalkAt, StretchIs, StretchMade, MadeIs};

use characters::{count_characters, count_firsts};
use fields::get8;
use tx3g_read::{find_styles, find_text};
use tx3g_runs::{Run, next_run};
use wvtt_write::copy_run;

// A character's number, and the place behind it.
#[derive(Clone, Copy)]
pub struct Character {
    pub code: u32,
    pub next: usize,
}

// A stretch: where it ends and its face flags; then how many styles are left behind it, and where the first of them stands.
#[derive(Clone, Copy)]
pub struct Stretch {
    pub end: usize,
    pub face: u32,
    pub left: usize,
    pub next: usize,
}

// The bytes made, and whether the tags of the stretch are among them.
#[derive(Clone, Copy)]
struct Put {
    bytes: usize,
    shown: bool,
}

// Where the making of a stretch stands: the place in the text, how many characters are to come, whether CR, LF or nothing stands before them, and what is made.
#[derive(Clone, Copy)]
struct Walk {
    at: usize,
    left: usize,
    after: bool,
    bytes: usize,
    shown: bool,
}

// How far a payload is made: the place in the text, whether CR, LF or nothing stands before it, and the bytes made.
#[derive(Clone, Copy)]
struct Made {
    at: usize,
    after: bool,
    bytes: usize,
}

fn byte_at(text: &[u8], at: usize) -> u32
    requires { at < length text.now }
    ensures { (result ≡ get_or text.now at 0) × (result < 256) }
{
    text[at] as u32
}

// The character of UTF-8 at `at`.
pub fn utf8_at(text: &[u8], at: usize) -> Character
    requires { (at < length text.now) × Spelled false (drop at text.now) }
    ensures { CharacterAt false text.now at result.code result.next }
{
    let a = byte_at(text, at);
    if a < 0x80 {
        return Character {
            code: a,
            next: at + 1,
        };
    }
    let b = byte_at(text, at + 1);
    if a < 0xE0 {
        return Character {
            code: (a - 0xC0) * 64 + (b - 0x80),
            next: at + 2,
        };
    }
    let c = byte_at(text, at + 2);
    if a < 0xF0 {
        return Character {
            code: ((a - 0xE0) * 64 + (b - 0x80)) * 64 + (c - 0x80),
            next: at + 3,
        };
    }
    let d = byte_at(text, at + 3);
    Character {
        code: (((a - 0xF0) * 64 + (b - 0x80)) * 64 + (c - 0x80)) * 64 + (d - 0x80),
        next: at + 4,
    }
}

// The character of UTF-16 at `at`.
fn utf16_at(text: &[u8], at: usize) -> Character
    requires { (at < length text.now) × Spelled true (drop at text.now) }
    ensures { CharacterAt true text.now at result.code result.next }
{
    let h = byte_at(text, at);
    let l = byte_at(text, at + 1);
    if h < 0xD8 || 0xDB < h {
        return Character {
            code: h * 256 + l,
            next: at + 2,
        };
    }
    let high = (h - 0xD8) * 256 + l;
    let low = (byte_at(text, at + 2) - 0xDC) * 256 + byte_at(text, at + 3);
    Character {
        code: 0x10000 + high * 1024 + low,
        next: at + 4,
    }
}

// The character at `at`.
fn character_at(text: &[u8], utf16: bool, at: usize) -> Character
    requires { (at < length text.now) × Spelled utf16 (drop at text.now) }
    ensures { CharacterAt utf16 text.now at result.code result.next }
{
    if utf16 {
        utf16_at(text, at)
    } else {
        utf8_at(text, at)
    }
}

// Whether a character is CR or LF.
fn is_break(c: u32) -> bool
    ensures { result ≡ is_break c }
{
    matches!(c, 0x0D | 0x0A)
}

// Whether there is nothing but CR and LF from `from` on.
fn only_breaks(text: &[u8], utf16: bool, from: usize) -> bool
    requires { (from ≤ length text.now) × Spelled utf16 (drop from text.now) }
    ensures { result ≡ only_breaks (points_by utf16 (drop from text.now)) }
{
    let mut at = from;
    while at < text.len() {
        let c = character_at(text, utf16, at);
        if !is_break(c.code) {
            return false;
        }
        at = c.next;
    }
    true
}

// What is left of character c, which ends at `next`.
fn left_of(text: &[u8], utf16: bool, after: bool, c: u32, next: usize) -> Option<u32>
    requires { (next ≤ length text.now) × Spelled utf16 (drop next text.now) × (c ≤ 0x10FFFF) }
    ensures { (left_items result ≡ left_of after c (points_by utf16 (drop next text.now))) × CodeMost result }
{
    if !is_break(c) {
        Some(c)
    } else if after || only_breaks(text, utf16, next) {
        None
    } else {
        Some(0x0A)
    }
}

// A character in UTF-8.
fn put_character(out: &mut [u8], at: usize, c: u32) -> usize
    requires { (at + 4 ≤ length out.old) × (c ≤ 0x10FFFF) }
    ensures { (result ≡ at + length (encode c)) × (result ≤ at + 4) × (out.new ≡ wrote out.old at (encode c)) }
{
    if c < 0x80 {
        out[at] = c as u8;
        return at + 1;
    }
    if c < 0x800 {
        out[at] = (0xC0 + c / 64) as u8;
        out[at + 1] = (0x80 + c % 64) as u8;
        return at + 2;
    }
    if c < 0x10000 {
        out[at] = (0xE0 + c / 4096) as u8;
        out[at + 1] = (0x80 + c / 64 % 64) as u8;
        out[at + 2] = (0x80 + c % 64) as u8;
        return at + 3;
    }
    out[at] = (0xF0 + c / 262144) as u8;
    out[at + 1] = (0x80 + c / 4096 % 64) as u8;
    out[at + 2] = (0x80 + c / 64 % 64) as u8;
    out[at + 3] = (0x80 + c % 64) as u8;
    at + 4
}

// These bytes. Their number is known where it is compiled, and they are read before they are stored, so that they are stored at once.
fn put_bytes<const N: usize>(out: &mut [u8], at: usize, bytes: &[u8; N]) -> usize
    requires { at + length bytes.now ≤ length out.old }
    ensures { (result ≡ at + length bytes.now) × (out.new ≡ wrote out.old at bytes.now) }
{
    let read = *bytes;
    out[at..at + N].copy_from_slice(&read);
    at + N
}

// A character, escaped.
pub fn put_escaped(out: &mut [u8], at: usize, c: u32) -> usize
    requires { (at + 5 ≤ length out.old) × (c ≤ 0x10FFFF) }
    ensures { (result ≡ at + length (escape c)) × (result ≤ at + 5) × (out.new ≡ wrote out.old at (escape c)) }
{
    match c {
        0x26 => put_bytes(&mut *out, at, b"&amp;"),
        0x3C => put_bytes(&mut *out, at, b"&lt;"),
        0x3E => put_bytes(&mut *out, at, b"&gt;"),
        _ => put_character(&mut *out, at, c),
    }
}

// Face flag d, of 1, 2, 4.
fn has_flag(d: u32, face: u32) -> bool
    requires { 0 < d }
    ensures { result ≡ flag d face }
{
    face / d % 2 == 1
}

// A tag, if it is wanted.
fn put_tag<const N: usize>(out: &mut [u8], at: usize, wanted: bool, tag: &[u8; N]) -> usize
    requires { at + length tag.now ≤ length out.old }
    ensures { (result ≡ at + length (given wanted tag.now)) × (result ≤ at + length tag.now) × (out.new ≡ wrote out.old at (given wanted tag.now)) }
{
    if wanted {
        put_bytes(&mut *out, at, tag)
    } else {
        at
    }
}

// The tags of a face.
pub fn put_opens(out: &mut [u8], at: usize, face: u32) -> usize
    requires { at + 9 ≤ length out.old }
    ensures { (result ≡ at + length (opens face)) × (result ≤ at + 9) × (out.new ≡ wrote out.old at (opens face)) }
{
    let second = put_tag(&mut *out, at, has_flag(1, face), b"<b>");
    let third = put_tag(&mut *out, second, has_flag(2, face), b"<i>");
    put_tag(&mut *out, third, has_flag(4, face), b"<u>")
}

// Its end tags.
pub fn put_closes(out: &mut [u8], at: usize, face: u32) -> usize
    requires { at + 12 ≤ length out.old }
    ensures { (result ≡ at + length (closes face)) × (result ≤ at + 12) × (out.new ≡ wrote out.old at (closes face)) }
{
    let second = put_tag(&mut *out, at, has_flag(4, face), b"</u>");
    let third = put_tag(&mut *out, second, has_flag(2, face), b"</i>");
    put_tag(&mut *out, third, has_flag(1, face), b"</b>")
}

// The tags of a face, if they are not yet there.
fn put_begin(out: &mut [u8], at: usize, shown: bool, face: u32) -> usize
    requires { at + 9 ≤ length out.old }
    ensures { (result ≡ at + length (given (not shown) (opens face))) × (result ≤ at + 9) × (out.new ≡ wrote out.old at (given (not shown) (opens face))) }
{
    if shown {
        at
    } else {
        put_opens(&mut *out, at, face)
    }
}

// A character that is left, behind the tags of its face if they are not yet there.
fn put_left(out: &mut [u8], at: usize, shown: bool, face: u32, c: u32) -> usize
    requires { (at + 14 ≤ length out.old) × (c ≤ 0x10FFFF) }
    ensures { (result ≡ at + length (given (not shown) (opens face) ++ escape c)) × (result ≤ at + 14) × (out.new ≡ wrote out.old at (given (not shown) (opens face) ++ escape c)) }
{
    let second = put_begin(&mut *out, at, shown, face);
    put_escaped(&mut *out, second, c)
}

// What is left of a character.
fn put_next(out: &mut [u8], at: usize, shown: bool, face: u32, l: Option<u32>) -> Put
    requires { (at + 14 ≤ length out.old) × CodeMost l }
    ensures { (result.bytes ≡ at + length (added_by shown face l)) × (result.bytes ≤ at + 14) × (result.shown ≡ shown_by shown l) × (out.new ≡ wrote out.old at (added_by shown face l)) }
{
    match l {
        None => Put { bytes: at, shown },
        Some(c) => Put {
            bytes: put_left(&mut *out, at, shown, face, c),
            shown: true,
        },
    }
}

// The end tags, if the tags are there.
fn put_end(out: &mut [u8], at: usize, shown: bool, face: u32) -> usize
    requires { at + 12 ≤ length out.old }
    ensures { (result ≡ at + length (given shown (closes face))) × (result ≤ at + 12) × (out.new ≡ wrote out.old at (given shown (closes face))) }
{
    if shown {
        put_closes(&mut *out, at, face)
    } else {
        at
    }
}

// 1 for a byte below a space or past ASCII, else 0.
fn outer_mark(b: u8) -> u8
    ensures { eqb result 0 ≡ within 0x20 0x7F b }
{
    u8::from(b < 0x20 || 0x7F < b)
}

// 1 for the byte c, else 0.
fn mark_for(c: u8, b: u8) -> u8
    ensures { eqb result 0 ≡ not (eqb b c) }
{
    u8::from(b == c)
}

// Not 0 for a byte that does not stand in a payload as it is. The tests are joined, so that the compiler takes wide steps.
fn mark_of(b: u8) -> u8
    ensures { eqb result 0 ≡ plain b }
{
    outer_mark(b) | mark_for(b'&', b) | mark_for(b'<', b) | mark_for(b'>', b)
}

// Whether the eight bytes from `at` stand in a payload as they are.
fn is_plain8(text: &[u8], at: usize) -> bool
    requires { at + 8 ≤ length text.now }
    ensures { result ≡ all plain text.now at 8 }
{
    let mut x = 0;
    for k in 0..8 {
        x |= mark_of(text[at + k]);
    }
    x == 0
}

// How many of the next characters are known to stand in a payload as they are: eight, one or none.
fn plain_ahead(text: &[u8], utf16: bool, at: usize, left: usize) -> usize
    requires { (at < length text.now) × (0 < left) }
    ensures { PlainAhead text.now utf16 at left result }
{
    if utf16 || mark_of(text[at]) != 0 {
        return 0;
    }
    if 8 <= left && 8 <= text.len() - at && is_plain8(text, at) {
        8
    } else {
        1
    }
}

// The next n characters, eight or one, which stand in a payload as they are.
fn put_plain(text: &[u8], face: u32, n: usize, w: Walk, out: &mut [u8]) -> Walk
    requires { (0 < n) × PlainAhead text.now false w.at w.left n × Spelled false (drop w.at text.now) × (w.bytes ≤ 4095) × (length out.old ≡ 4128) }
    ensures { Stepped text.now false face w out.old out.new result }
{
    let at = w.at;
    let begun = put_begin(&mut *out, w.bytes, w.shown, face);
    copy_run(&mut *out, begun, text, at, n);
    Walk {
        at: at + n,
        left: w.left - n,
        after: false,
        bytes: begun + n,
        shown: true,
    }
}

// The next character.
fn put_one(text: &[u8], utf16: bool, face: u32, w: Walk, out: &mut [u8]) -> Walk
    requires { (w.at < length text.now) × (0 < w.left) × Spelled utf16 (drop w.at text.now) × (w.bytes ≤ 4095) × (length out.old ≡ 4128) }
    ensures { Stepped text.now utf16 face w out.old out.new result }
{
    let c = character_at(text, utf16, w.at);
    let code = c.code;
    let next = c.next;
    let l = left_of(text, utf16, w.after, code, next);
    let p = put_next(&mut *out, w.bytes, w.shown, face, l);
    Walk {
        at: next,
        left: w.left - 1,
        after: is_break(code),
        bytes: p.bytes,
        shown: p.shown,
    }
}

// The next characters: several at once where they stand in a payload as they are.
fn put_some(text: &[u8], utf16: bool, face: u32, w: Walk, out: &mut [u8]) -> Walk
    requires { (w.at < length text.now) × (0 < w.left) × Spelled utf16 (drop w.at text.now) × (w.bytes ≤ 4095) × (length out.old ≡ 4128) }
    ensures { Stepped text.now utf16 face w out.old out.new result }
{
    let n = plain_ahead(text, utf16, w.at, w.left);
    if n == 0 {
        put_one(text, utf16, face, w, &mut *out)
    } else {
        put_plain(text, face, n, w, &mut *out)
    }
}

// The characters of a stretch, from its first on, wrapped in the tags of its face.
fn put_walk(text: &[u8], utf16: bool, face: u32, first: Walk, out: &mut [u8]) -> Made
    requires { (first.shown ≡ false) × (first.at ≤ length text.now) × Spelled utf16 (drop first.at text.now) × (first.left ≤ length (points_by utf16 (drop first.at text.now))) × (first.bytes ≤ 4095) × (length out.old ≡ 4128) }
    ensures { StretchMade text.now utf16 first.left face first.at first.after first.bytes out.old out.new result }
{
    let mut w = first;
    while w.left > 0 {
        if 4095 < w.bytes {
            return Made {
                at: w.at,
                after: w.after,
                bytes: w.bytes,
            };
        }
        w = put_some(text, utf16, face, w, &mut *out);
    }
    let end = put_end(&mut *out, w.bytes, w.shown, face);
    Made {
        at: w.at,
        after: w.after,
        bytes: end,
    }
}

// A stretch of `count` characters behind what is made.
fn put_stretch(
    text: &[u8],
    utf16: bool,
    count: usize,
    face: u32,
    made: Made,
    out: &mut [u8],
) -> Made
    requires { (made.at ≤ length text.now) × Spelled utf16 (drop made.at text.now) × (count ≤ length (points_by utf16 (drop made.at text.now))) × (made.bytes ≤ 4095) × (length out.old ≡ 4128) }
    ensures { StretchMade text.now utf16 count face made.at made.after made.bytes out.old out.new result }
{
    let first = Walk {
        at: made.at,
        left: count,
        after: made.after,
        bytes: made.bytes,
        shown: false,
    };
    put_walk(text, utf16, face, first, &mut *out)
}

// The stretch from character k on, where `left` styles are left and the first of them stands at `from`.
pub fn next_stretch(
    e: &[u8],
    s: &[u8],
    left: usize,
    from: usize,
    k: usize,
    characters: usize,
) -> Stretch
    requires { (read_sample e.now s.now ≡ Good characters) × (k < characters) × WalkAt s.now left from k (styles_of s.now) }
    ensures { StretchIs e.now s.now characters k result }
{
    match next_run(s, left, from, k, characters) {
        Run::Styled {
            end,
            style,
            left: more,
            next,
        } => Stretch {
            end,
            face: style.face,
            left: more,
            next,
        },
        Run::Plain {
            end,
            left: more,
            next,
        } => Stretch {
            end,
            face: get8(e, 40),
            left: more,
            next,
        },
        Run::End => Stretch {
            end: characters,
            face: 0,
            left: 0,
            next: 0,
        },
    }
}

// The stretches of a text of so many characters, which ends at `end`.
fn put_stretches(e: &[u8], s: &[u8], characters: usize, out: &mut [u8]) -> usize
    requires { (read_sample e.now s.now ≡ Good characters) × (length out.old ≡ 4128) }
    ensures { MadeIs (payload_in e.now s.now) out.old out.new result }
{
    let t = find_text(s);
    let styles = find_styles(e, s, characters);
    let begin = t.from;
    let end = t.end;
    let utf16 = t.utf16;
    let mut left = styles.count as usize;
    let mut from = styles.from;
    let mut k = 0;
    let mut made = Made {
        at: 0,
        after: true,
        bytes: 0,
    };
    while k < characters {
        let r = next_stretch(e, s, left, from, k, characters);
        made = put_stretch(&s[begin..end], utf16, r.end - k, r.face, made, &mut *out);
        if 4095 < made.bytes {
            return made.bytes;
        }
        left = r.left;
        from = r.next;
        k = r.end;
    }
    made.bytes
}

// Makes the payload of a sample without fault, beside its entry, at the front of `out`. Gives its length, or a number above 4,095 where it is longer.
pub fn make_payload(e: &[u8], s: &[u8], out: &mut [u8]) -> usize
    requires { (judge_entry e.now ≡ Fine) × (judge_sample e.now s.now ≡ Fine) × (length out.old ≡ 4128) }
    ensures { MadeIs (payload_in e.now s.now) out.old out.new result }
{
    let t = find_text(s);
    let end = t.end;
    if !t.utf16 {
        return put_stretches(e, s, count_firsts(&s[2..end]), &mut *out);
    }
    match count_characters(&s[2..end]) {
        Ok(n) => put_stretches(e, s, n, &mut *out),
        Err(_) => 0,
    }
}
