// The judge of payloads by the tag profile: content and spans read each other. Document 02, K11. A reader answers the place behind what it read, and the least time that may come next; or the first byte that no text of the profile could have there.
#![tactic(auto)]

ghost use Rattle.std.specs.Prelude.{◌≡◌, true, ◌≤◌, ◌<◌, length, get_or, Ok};
ghost use Rattle.profile.specs.Grammar.{plain_byte};
ghost use Rattle.profile.specs.Machine.{judge};
ghost use Rattle.profile.specs.Readings.{Reads, Around, texted};
ghost use Rattle.profile_judge.specs.Judgement.{outside, judge_profile};
ghost use Rattle.profile_judge.specs.Terms.{FewIs, PlainIs, Marked, MarkIs, Stops, Further, TextIs, SpanIs, ContentIs};

use profile_tags::{is_ruby, read_close, read_start};
use profile_times::read_time;
use profile_words::read_escape;
use text::judge_payload;
use verdict::{Reason, Verdict, text_at};
use viable::Judged;

// 1 for < and &, else 0.
fn mark_of(b: u8) -> u8
    ensures { result ≡ 0 → plain_byte b ≡ true }
{
    u8::from(b == b'<' || b == b'&')
}

// Whether all is plain text up to `end`. It does not end early, so that the compiler takes wide steps.
fn is_plain(s: &[u8], at: usize, end: usize) -> bool
    requires { (at ≤ end) × (end ≤ length s.now) }
    ensures { result ≡ true → Reads Around s.now at (Ok end) texted texted }
{
    let mut x = 0;
    for i in at..end {
        x |= mark_of(s[i]);
    }
    x == 0
}

// Past plain text, up to `end` at most.
fn skip_few(s: &[u8], at: usize, end: usize) -> usize
    requires { (at ≤ end) × (end ≤ length s.now) }
    ensures { FewIs s.now at end result }
{
    for i in at..end {
        let b = s[i];
        if b == b'<' || b == b'&' {
            return i;
        }
    }
    end
}

// Past eights of plain text.
fn skip_eights(s: &[u8], at: usize) -> usize
    requires { at ≤ length s.now }
    ensures { Reads Around s.now at (Ok result) texted texted }
{
    let mut i = at;
    // The place is asked for after the loop.
    while 8 <= s.len() - i {
        if !is_plain(s, i, i + 8) {
            return i;
        }
        i += 8;
    }
    i
}

// Past plain text. Most of it comes in a few words between marks: only behind sixteen bytes eights are taken.
fn skip_plain(s: &[u8], at: usize) -> usize
    requires { at ≤ length s.now }
    ensures { PlainIs s.now at result }
{
    if s.len() - at < 16 {
        return skip_few(s, at, s.len());
    }
    let i = skip_few(s, at, at + 16);
    if i < at + 16 {
        return i;
    }
    let j = skip_eights(s, i);
    skip_few(s, j, s.len())
}

// Whether an escape or a timestamp begins behind plain text; if not, a tag, or nothing.
fn is_mark(s: &[u8], at: usize) -> bool
    requires { (at ≤ length s.now) × Marked s.now at }
    ensures { MarkIs s.now at result }
{
    if s.len() - at < 2 {
        at < s.len() && s[at] == b'&'
    } else {
        s[at] == b'&' || s[at + 1] != b'/' && s[at + 1] <= b'9'
    }
}

fn read_mark(s: &[u8], at: usize, low: u32) -> Result<(usize, u32), usize>
    requires { MarkIs s.now at true }
    ensures { TextIs s.now at low result × Further at result }
{
    if s[at] == b'&' {
        let next = read_escape(s, at + 1)?;
        return Ok((next, low));
    }
    let (next, time) = read_time(s, at + 1, low)?;
    Ok((next, time + 1))
}

// Plain text, escapes and timestamps, up to the next tag or the end.
fn read_text(s: &[u8], at: usize, low: u32) -> Result<(usize, u32), usize>
    requires { at ≤ length s.now }
    ensures { TextIs s.now at low result × Stops s.now result }
{
    let mut i = skip_plain(s, at);
    let mut least = low;
    while is_mark(s, i) {
        let (next, low) = read_mark(s, i, least)?;
        i = skip_plain(s, next);
        least = low;
    }
    Ok((i, least))
}

// Content, to the end of the payload, or through the </ that ends the tag around it; `left` more tags may be opened.
#[cycle(read_content_read_span)]
fn read_content(
    s: &[u8],
    at: usize,
    left: usize,
    ruby: bool,
    low: u32,
) -> Result<(usize, u32), usize>
    requires { (at ≤ length s.now) × (left ≤ 16) }
    ensures { ContentIs s.now at left ruby low result }
{
    let mut i = at;
    let mut least = low;
    loop {
        let (next, low) = read_text(s, i, least)?;
        if s.len() - next < 2 {
            if next == s.len() && left == 16 {
                return Ok((next, low));
            }
            return Err(s.len());
        }
        if s[next + 1] == b'/' {
            if left == 16 {
                return Err(next + 1);
            }
            return Ok((next + 2, low));
        }
        let (end, up) = read_span(s, next + 1, left, ruby, low)?;
        i = end;
        least = up;
    }
}

// A span, from its name on: a start tag, content, and the end tag of the same name.
#[cycle(read_content_read_span)]
fn read_span(s: &[u8], at: usize, left: usize, ruby: bool, low: u32) -> Result<(usize, u32), usize>
    requires { (at < length s.now) × (57 < get_or s.now at 0) × (left ≤ 16) }
    ensures { SpanIs s.now at left ruby low result }
{
    if left == 0 {
        return Err(at);
    }
    let (inside, tag) = read_start(s, at, ruby)?;
    let (close, up) = read_content(s, inside, left - 1, is_ruby(tag), low)?;
    let next = read_close(s, close, tag)?;
    Ok((next, up))
}

// Whether the payload is in the profile.
fn judge_tags(s: &[u8]) -> Judged
    ensures { result ≡ judge s.now }
{
    if is_plain(s, 0, s.len()) {
        return Ok(());
    }
    read_content(s, 0, 16, false, 0)?;
    Ok(())
}

fn outside_at(j: Judged) -> Verdict
    ensures { result ≡ outside j }
{
    j.map_err(|q| Reason::OutsideProfile.fault_at(q))
}

// The judgement of a payload by the profile.
pub fn judge_profile(payload: &[u8]) -> Verdict
    ensures { result ≡ judge_profile payload.now }
{
    if 4095 < payload.len() {
        return Reason::PastLimit.refused(0);
    }
    text_at(0, judge_payload(payload))?;
    outside_at(judge_tags(payload))
}
