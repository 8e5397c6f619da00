// UTF-8 by a table of byte classes, with the strings that a text's rule forbids.
#![tactic(auto)]

mod tables;

ghost use Rattle.std.specs.Prelude.{◌≡◌, ◌+◌, ◌<◌, ◌≤◌, eqb, length};
ghost use Rattle.base.specs.Choice.{both, any_of};
ghost use Rattle.ascii.specs.Ascii.{all};
ghost use Rattle.utf8.specs.Utf8.{class_of, class_table};
ghost use Rattle.utf8.specs.Strings.{CR, LF, DASH};
ghost use Rattle.viable.specs.FirstBad.{judged_by};
ghost use Rattle.utf8.specs.Forbidden.{not_in_line, not_in_payload, forbidden, keeps, keeps_begun};
ghost use Rattle.utf8.specs.Machine.{ends_forbidden, word_table, next, before, PassedIs, plain, block_end};

use ascii::{is_ascii8, is_unmarked8};
use tables::{CLASSES, WORDS};
use viable::Judged;

// What a text may not hold.
#[derive(Clone, Copy)]
pub enum Rule {
    // Nothing is forbidden.
    Any,
    // As in an identifier.
    Line,
    // As in a payload.
    Payload,
}

// CR or LF.
pub fn is_line_end(b: u8) -> bool
    ensures { result ≡ any_of (eqb b CR) (eqb b LF) }
{
    matches!(b, b'\r' | b'\n')
}

// Whether p and q are the two dashes of `-->`.
fn is_dashes(p: u8, q: u8) -> bool
    ensures { result ≡ both (eqb q DASH) (eqb p DASH) }
{
    q == b'-' && p == b'-'
}

// Whether b, after p and q, ends a string that is forbidden in a line.
fn ends_in_line(p: u8, q: u8, b: u8) -> bool
    ensures { result ≡ ends_forbidden not_in_line p q b }
{
    match b {
        b'>' => is_dashes(p, q),
        0 => true,
        _ => is_line_end(b),
    }
}

// Whether b, after p and q, ends a string that is forbidden in a payload.
fn ends_in_payload(p: u8, q: u8, b: u8) -> bool
    ensures { result ≡ ends_forbidden not_in_payload p q b }
{
    match b {
        b'>' => is_dashes(p, q),
        b'\n' => q == b'\n',
        b'\r' => is_line_end(q),
        _ => b == 0,
    }
}

// Whether b, after p and q, ends a forbidden string.
fn ends_forbidden(rule: Rule, p: u8, q: u8, b: u8) -> bool
    ensures { result ≡ ends_forbidden (forbidden rule) p q b }
{
    match rule {
        Rule::Any => false,
        Rule::Line => ends_in_line(p, q, b),
        Rule::Payload => ends_in_payload(p, q, b),
    }
}

// The byte k places before i; a space in front of the text.
#[tactic(auto, unfolding(crate::specs::Machine::before))]
fn byte_before(s: &[u8], i: usize, k: usize) -> u8
    requires { (0 < k) × (i ≤ length s.now) }
    ensures { result ≡ before k s.now i }
{
    if i < k { b' ' } else { s[i - k] }
}

// Whether the eight bytes from i are plain: the rule's machine stays in state 0.
fn is_plain8(rule: Rule, s: &[u8], i: usize) -> bool
    requires { i + 8 ≤ length s.now }
    ensures { result ≡ all (plain rule) s.now i 8 }
{
    is_unmarked8(b'>', s, i) || matches!(rule, Rule::Any) && is_ascii8(s, i)
}

// The end of the block of at most eight bytes that begins at i.
#[tactic(auto, unfolding(crate::specs::Machine::block_end))]
fn block_end(i: usize, end: usize) -> usize
    requires { i < end }
    ensures { (result ≡ block_end i end) × (i < result) × (result ≤ end) }
{
    i + (end - i).min(8)
}

// The tables of the machine, held by their user: a constant array is made anew at each place that names it.
#[derive(Drop)]
struct ByteTables {
    classes: [u8; 256],
    words: [u64; 12],
    ghost classes_right: { classes ≡ class_table },
    ghost words_right: { words ≡ word_table },
}

impl ByteTables {
    // The class of a byte.
    fn class(&self, b: u8) -> usize
        ensures { (result ≡ class_of b) × (result < 12) }
    {
        usize::from(self.classes[usize::from(b)])
    }

    // The state after a byte of this class.
    fn next(&self, state: usize, class: usize) -> usize
        requires { (state < 9) × (class < 12) }
        ensures { (result ≡ next state class) × (result < 9) }
    {
        ((self.words[class] >> (state * 4)) % 16) as usize
    }

    // The bytes from `from` up to `end`, one by one, after those that lead to `start`.
    fn pass_bytes(
        &self,
        s: &[u8],
        rule: Rule,
        from: usize,
        end: usize,
        start: usize,
    ) -> Result<usize, usize>
        requires { (from ≤ end) × (end ≤ length s.now) × (start < 8) }
        ensures { PassedIs rule s.now start from end result }
    {
        let mut state = start;
        let mut p = byte_before(s, from, 2);
        let mut q = byte_before(s, from, 1);
        for i in from..end {
            let b = s[i];
            state = self.next(state, self.class(b));
            if state == 8 || ends_forbidden(rule, p, q, b) {
                return Err(i);
            }
            p = q;
            q = b;
        }
        Ok(state)
    }

    // As `pass_bytes`, with eight plain bytes at one stride.
    fn pass_block(
        &self,
        s: &[u8],
        rule: Rule,
        from: usize,
        end: usize,
        start: usize,
    ) -> Result<usize, usize>
        requires { (from ≤ end) × (end ≤ length s.now) × (start < 8) }
        ensures { PassedIs rule s.now start from end result }
    {
        if start == 0 && end - from == 8 && is_plain8(rule, s, from) {
            return Ok(0);
        }
        self.pass_bytes(s, rule, from, end, start)
    }
}

// Whether the text is UTF-8 and holds no forbidden string, and else where it is bad, in one pass that ends there.
pub fn judge_rule(s: &[u8], rule: Rule) -> Judged
    ensures { result ≡ judged_by (keeps rule) (keeps_begun rule) s.now }
{
    let tables = ByteTables {
        classes: CLASSES,
        words: WORDS,
    };
    let mut state = 0;
    // The next block begins where this one ends.
    let mut i = 0;
    while i < s.len() {
        let end = block_end(i, s.len());
        match tables.pass_block(s, rule, i, end, state) {
            Err(offset) => return Err(offset),
            Ok(next) => state = next,
        }
        i = end;
    }
    if state == 0 { Ok(()) } else { Err(s.len()) }
}
