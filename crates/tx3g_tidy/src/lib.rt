// Payloads of tidy texts, as nearly all are: UTF-8 without zero bytes, whose only line ends are single LFs between other characters. All of their characters are left,
// so that a payload is measured without being made, and its text is copied by runs.
#![tactic(auto)]

ghost use Rattle.std.specs.Prelude.{◌≡◌, true, false, not, [], ◌++◌, ◌+◌, ◌-◌, ◌*◌, ◌≤◌, eqb, length};
ghost use Rattle.base.specs.Choice.{pick};
ghost use Rattle.base.specs.Over.{over, wrote};
ghost use Rattle.verdict.specs.Verdict.{Fine};
ghost use Rattle.boxes.specs.Boxes.{part};
ghost use Rattle.characters.specs.Characters.{firsts};
ghost use Rattle.code_points.specs.CodePoints.{joined};
ghost use Rattle.tx3g_entry.specs.Entry.{judge_entry};
ghost use Rattle.tx3g_sample.specs.Reading.{Good};
ghost use Rattle.tx3g_sample.specs.Sample.{characters_in, judge_text, judge_sample, read_sample};
ghost use Rattle.tx3g_payload.specs.Payload.{escape};
ghost use Rattle.tx3g_payload_write.specs.Sample.{characters_at, payload_in};
ghost use Rattle.tx3g_payload_write.specs.Terms.{opens, closes};
ghost use Rattle.tx3g_tidy.specs.Escapes.{shown, extra, extras, PlainTo};
ghost use Rattle.tx3g_tidy.specs.Tidy.{stays, tidy, tidy_in, Ahead, Behind, Single};

use ascii::is_ascii;
use characters::count_firsts;
use tx3g_payload_write::{next_stretch, put_closes, put_escaped, put_opens, utf8_at};
use tx3g_read::{find_styles, find_text};
use tx3g_sample::text_end;
use wvtt_write::copy_run;

// 1 for the byte c, else 0.
fn mark_for(c: u8, b: u8) -> u8
    ensures { result ≡ pick (eqb b c) 1 0 }
{
    u8::from(b == c)
}

// Not 0 for a byte that a tidy text does not have in front of `next`. The tests are joined, so that the compiler takes wide steps.
fn untidy_mark(b: u8, next: u8) -> u8
    ensures { eqb result 0 ≡ stays b next }
{
    mark_for(0, b) | mark_for(0x0D, b) | (mark_for(0x0A, b) & mark_for(0x0A, next))
}

// Whether a text of UTF-8 is tidy. It does not end early, so that the compiler takes wide steps.
fn is_tidy(text: &[u8]) -> bool
    ensures { result ≡ tidy text.now }
{
    if text.is_empty() {
        return false;
    }
    let last = text.len() - 1;
    let mut x = mark_for(0x0A, text[0]);
    for i in 0..last {
        x |= untidy_mark(text[i], text[i + 1]);
    }
    let end = untidy_mark(text[last], 0x0A);
    (x | end) == 0
}

// The characters of a text of UTF-8.
fn count_utf8(text: &[u8]) -> usize
    ensures { result ≡ firsts text.now }
{
    if is_ascii(text) {
        text.len()
    } else {
        count_firsts(text)
    }
}

// The characters of a sample's text, if it is tidy; else 0.
fn count_tidy(s: &[u8]) -> usize
    requires { judge_text s.now ≡ Fine }
    ensures { result ≡ pick (tidy_in s.now) (characters_in s.now) 0 }
{
    let t = find_text(s);
    let end = t.end;
    if t.utf16 || !is_tidy(&s[2..end]) {
        return 0;
    }
    count_utf8(&s[2..end])
}

// Not 0 for a byte that is escaped.
fn escape_mark(b: u8) -> u8
    ensures { eqb result 0 ≡ eqb (extra b) 0 }
{
    mark_for(b'&', b) | mark_for(b'<', b) | mark_for(b'>', b)
}

// Whether any byte is escaped, by wide steps too.
fn has_escapes(text: &[u8]) -> bool
    ensures { result ≡ not (eqb (extras text.now) 0) }
{
    let mut x = 0;
    for &b in text {
        x |= escape_mark(b);
    }
    x != 0
}

// The bytes that an escaped byte takes more than itself.
fn extra_of(b: u8) -> u32
    ensures { (result ≡ extra b) × (result ≤ 4) }
{
    (mark_for(b'&', b) * 4 + mark_for(b'<', b) * 3 + mark_for(b'>', b) * 3) as u32
}

// The bytes by which a text grows where it is escaped.
fn extras_of(text: &[u8]) -> usize
    requires { length text.now ≤ 65535 }
    ensures { (result ≡ extras text.now) × (result ≤ 262140) }
{
    let mut n = 0;
    for &b in text {
        n += extra_of(b);
    }
    n as usize
}

// The same, and at once for a text in which nothing is escaped.
fn escapes_length(text: &[u8]) -> usize
    requires { length text.now ≤ 65535 }
    ensures { (result ≡ extras text.now) × (result ≤ 262140) }
{
    if has_escapes(text) {
        extras_of(text)
    } else {
        0
    }
}

// The bytes of the tags of a face and of their end tags: seven for each flag.
fn tags_size(face: u32) -> usize
    ensures { (result ≡ length (opens face) + length (closes face)) × (result ≤ 21) }
{
    ((face % 2 + face / 2 % 2 + face / 4 % 2) * 7) as usize
}

// The bytes of all tags in the payload of a tidy text.
fn tags_length(e: &[u8], s: &[u8], characters: usize) -> usize
    requires { (read_sample e.now s.now ≡ Good characters) × (tidy_in s.now ≡ true) }
    ensures { (length (payload_in e.now s.now) ≡ result + length (joined escape (characters_at s.now))) × (result ≤ 21 * 65535) }
{
    let styles = find_styles(e, s, characters);
    let mut left = styles.count as usize;
    let mut from = styles.from;
    let mut k = 0;
    let mut n = 0;
    while k < characters {
        let r = next_stretch(e, s, left, from, k, characters);
        n += tags_size(r.face);
        left = r.left;
        from = r.next;
        k = r.end;
    }
    n
}

// The length of a sample's payload, if its text is tidy; else 0.
pub fn tidy_length(e: &[u8], s: &[u8]) -> usize
    requires { (judge_entry e.now ≡ Fine) × (judge_sample e.now s.now ≡ Fine) }
    ensures { result ≡ pick (tidy_in s.now) (length (payload_in e.now s.now)) 0 }
{
    let n = count_tidy(s);
    if n == 0 {
        return 0;
    }
    let end = text_end(s);
    tags_length(e, s, n) + (end - 2) + escapes_length(&s[2..end])
}

// The place behind the next `count` characters.
fn pass_characters(text: &[u8], from: usize, count: usize) -> usize
    requires { Ahead text.now from count }
    ensures { Behind text.now from count result }
{
    let mut at = from;
    for _passed in 0..count {
        at = utf8_at(text, at).next;
    }
    at
}

// The same, in a text of which is known whether each character is one byte.
fn end_of(text: &[u8], single: bool, from: usize, count: usize) -> usize
    requires { Ahead text.now from count × (single ≡ true → Single text.now) }
    ensures { Behind text.now from count result }
{
    if single {
        from + count
    } else {
        pass_characters(text, from, count)
    }
}

// A place from `from` to `end` up to which no byte is escaped, by eights.
fn pass_plain(text: &[u8], from: usize, end: usize) -> usize
    requires { (from ≤ end) × (end ≤ length text.now) }
    ensures { (from ≤ result) × (result ≤ end) × (extras (part text.now from result) ≡ 0) }
{
    let eights = (end - from) / 8;
    for k in 0..eights {
        let at = from + k * 8;
        if has_escapes(&text[at..at + 8]) {
            return at;
        }
    }
    from + eights * 8
}

// The first place from `from` to `end` whose byte is escaped; `end` where there is none.
fn plain_end(text: &[u8], from: usize, end: usize) -> usize
    requires { (from ≤ end) × (end ≤ length text.now) }
    ensures { PlainTo text.now from end result }
{
    // Where one escaped byte follows another, no eight bytes are looked at.
    if from < end && escape_mark(text[from]) > 0 {
        return from;
    }
    let first = pass_plain(text, from, end);
    for i in first..end {
        if escape_mark(text[i]) > 0 {
            return i;
        }
    }
    end
}

// Copies n bytes. Where escapes stand side by side there are none, which needs no call.
fn put_run(out: &mut [u8], at: usize, text: &[u8], from: usize, n: usize)
    requires { (at + n ≤ length out.old) × (from + n ≤ length text.now) }
    ensures { out.new ≡ wrote out.old at (part text.now from (from + n)) }
{
    if n > 0 {
        copy_run(&mut *out, at, text, from, n);
    }
}

// The text from `from` to `end`, escaped. Gives the place behind it.
fn put_shown(out: &mut [u8], at: usize, text: &[u8], from: usize, end: usize) -> usize
    requires { (from ≤ end) × (end ≤ length text.now) × (at + length (joined shown (part text.now from end)) + 12 ≤ length out.old) }
    ensures { (result ≡ at + length (joined shown (part text.now from end))) × (out.new ≡ wrote out.old at (joined shown (part text.now from end))) }
{
    let mut to = at;
    let mut i = from;
    while i < end {
        let next = plain_end(text, i, end);
        put_run(&mut *out, to, text, i, next - i);
        to += next - i;
        if next == end {
            return to;
        }
        to = put_escaped(&mut *out, to, text[next] as u32);
        i = next + 1;
    }
    to
}

// The same, at once where there is nothing to escape.
fn put_text(out: &mut [u8], at: usize, text: &[u8], from: usize, end: usize) -> usize
    requires { (from ≤ end) × (end ≤ length text.now) × (at + length (joined shown (part text.now from end)) + 12 ≤ length out.old) }
    ensures { (result ≡ at + length (joined shown (part text.now from end))) × (out.new ≡ wrote out.old at (joined shown (part text.now from end))) }
{
    if has_escapes(&text[from..end]) {
        return put_shown(&mut *out, at, text, from, end);
    }
    let n = end - from;
    copy_run(&mut *out, at, text, from, n);
    at + n
}

// The same in the tags of a face.
fn put_part(out: &mut [u8], at: usize, text: &[u8], from: usize, end: usize, face: u32) -> usize
    requires { (from ≤ end) × (end ≤ length text.now) × (at + length (joined shown (part text.now from end)) + 21 ≤ length out.old) }
    ensures { (result ≡ at + length (opens face ++ (joined shown (part text.now from end) ++ closes face))) × (out.new ≡ wrote out.old at (opens face ++ (joined shown (part text.now from end) ++ closes face))) }
{
    let begun = put_opens(&mut *out, at, face);
    let mid = put_text(&mut *out, begun, text, from, end);
    put_closes(&mut *out, mid, face)
}

// Writes the payload of a tidy text of so many characters, stretch by stretch.
fn put_parts(e: &[u8], s: &[u8], characters: usize, out: &mut [u8]) -> usize
    requires { (read_sample e.now s.now ≡ Good characters) × (tidy_in s.now ≡ true) × (length (payload_in e.now s.now) ≤ 4095) × (length out.old ≡ 4128) }
    ensures { (result ≡ length (payload_in e.now s.now)) × (out.new ≡ over (payload_in e.now s.now) out.old) }
{
    let end = text_end(s);
    let styles = find_styles(e, s, characters);
    let single = characters == end - 2;
    let mut left = styles.count as usize;
    let mut from = styles.from;
    let mut k = 0;
    let mut at = 0;
    let mut bytes = 0;
    while k < characters {
        let r = next_stretch(e, s, left, from, k, characters);
        let next = end_of(&s[2..end], single, at, r.end - k);
        bytes = put_part(&mut *out, bytes, &s[2..end], at, next, r.face);
        left = r.left;
        from = r.next;
        at = next;
        k = r.end;
    }
    bytes
}

// Makes the payload of a sample at the front of `out`, if its text is tidy, and gives its length; else 0.
pub fn put_tidy(e: &[u8], s: &[u8], out: &mut [u8]) -> usize
    requires { (judge_entry e.now ≡ Fine) × (judge_sample e.now s.now ≡ Fine) × (length (payload_in e.now s.now) ≤ 4095) × (length out.old ≡ 4128) }
    ensures { (result ≡ pick (tidy_in s.now) (length (payload_in e.now s.now)) 0) × (out.new ≡ over (pick (tidy_in s.now) (payload_in e.now s.now) []) out.old) }
{
    let n = count_tidy(s);
    if n == 0 {
        return 0;
    }
    put_parts(e, s, n, &mut *out)
}
