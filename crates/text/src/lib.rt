// The rules of document 01's texts. A text is right, or a judgement names its first bad byte (document 02, K2).
#![tactic(auto)]

ghost use Rattle.std.specs.Prelude.{◌≡◌, true, ◌≤◌, length};
ghost use Rattle.ascii.specs.Ascii.{unmarked, all};
ghost use Rattle.viable.specs.FirstBad.{judged_by};
ghost use Rattle.utf8.specs.Utf8.{utf8, utf8_begun};
ghost use Rattle.utf8.specs.Forbidden.{keeps, keeps_begun};
ghost use Rattle.utf8.specs.Strings.{GREATER, begins_line, ends_line, agree};
ghost use Rattle.text.specs.Rules.{identifier_text, payload_text, configuration_text, label_text};
ghost use Rattle.text.specs.Beginnings.{identifier_begun, payload_begun, configuration_begun, label_begun, unended};

use ascii::{is_ascii, is_lined8, is_unmarked, is_unmarked8};
use utf8::{Rule, is_line_end, judge_rule};
use viable::Judged;

fn begins_line(s: &[u8]) -> bool
    ensures { result ≡ begins_line s.now }
{
    !s.is_empty() && is_line_end(s[0])
}

fn ends_line(s: &[u8]) -> bool
    ensures { result ≡ ends_line s.now }
{
    !s.is_empty() && is_line_end(s[s.len() - 1])
}

// How many bytes the texts have in common from the start.
pub fn agreeing(s: &[u8], p: &[u8]) -> usize
    ensures { (result ≡ agree p.now s.now) × (result ≤ length p.now) }
{
    for (i, &b) in p.iter().enumerate() {
        if i >= s.len() || s[i] != b {
            return i;
        }
    }
    p.len()
}

// The answer for a text that may not end in CR or LF.
fn judge_end(j: Judged, s: &[u8]) -> Judged
    ensures { result ≡ unended j s.now }
{
    let Ok(()) = j else {
        return j;
    };
    if ends_line(s) { Err(s.len()) } else { Ok(()) }
}

// UTF-8 by RFC 3629.
pub fn judge_utf8(s: &[u8]) -> Judged
    ensures { result ≡ judged_by utf8 utf8_begun s.now }
{
    if is_ascii(s) {
        Ok(())
    } else {
        judge_rule(s, Rule::Any)
    }
}

// Whether none of the bytes is a mark or `>`. Few bytes and very many are taken in one pass. Others are taken eight at a stride, the last eight from the end, until a mark is seen.
fn is_clear(s: &[u8]) -> bool
    ensures { result ≡ all (unmarked GREATER) s.now 0 (length s.now) }
{
    let n = s.len();
    if n < 8 || n > 255 {
        return is_unmarked(b'>', s);
    }
    let last = n - 8;
    // By `step_by` it is slower.
    let mut i = 0;
    while i < last {
        if !is_unmarked8(b'>', s, i) {
            return false;
        }
        i += 8;
    }
    is_unmarked8(b'>', s, last)
}

// An identifier or settings. A text with no mark and no `>` keeps each rule.
pub fn judge_identifier(s: &[u8]) -> Judged
    ensures { result ≡ judged_by identifier_text identifier_begun s.now }
{
    if is_clear(s) {
        Ok(())
    } else {
        judge_rule(s, Rule::Line)
    }
}

// Whether a quick test tells that the bytes are right for a payload: no mark but single line ends, and no two `-` together. The last eight hold no line end and no `-`.
fn is_lined(s: &[u8]) -> bool
    ensures { result ≡ true → keeps Rule.Payload s.now ≡ true }
{
    let n = s.len();
    if n < 8 {
        return is_unmarked(b'-', s);
    }
    if n > 255 && is_unmarked(b'-', s) {
        return true;
    }
    let last = n - 8;
    for i in (0..last).step_by(8) {
        if !is_lined8(s, i) {
            return false;
        }
    }
    is_unmarked8(b'-', s, last)
}

// What a payload may hold.
fn judge_inside(s: &[u8]) -> Judged
    ensures { result ≡ judged_by (keeps Rule.Payload) (keeps_begun Rule.Payload) s.now }
{
    if is_lined(s) {
        Ok(())
    } else {
        judge_rule(s, Rule::Payload)
    }
}

pub fn judge_payload(s: &[u8]) -> Judged
    ensures { result ≡ judged_by payload_text payload_begun s.now }
{
    if begins_line(s) {
        Err(0)
    } else {
        judge_end(judge_inside(s), s)
    }
}

pub fn judge_label(s: &[u8]) -> Judged
    ensures { result ≡ judged_by label_text label_begun s.now }
{
    judge_end(judge_utf8(s), s)
}

pub fn judge_configuration(s: &[u8]) -> Judged
    ensures { result ≡ judged_by configuration_text configuration_begun s.now }
{
    let n = agreeing(s, b"WEBVTT");
    if n < 6 { Err(n) } else { judge_label(s) }
}
