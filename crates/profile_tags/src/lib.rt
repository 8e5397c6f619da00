// Tags in the tag profile: names, classes and annotations of start tags, and end tags. Document 02, K11. A reader answers the place behind what it read, with a name its tag; or the first byte that no text of the profile could have there.
#![tactic(auto)]

ghost use Rattle.std.specs.Prelude.{◌≡◌, false, ◌≤◌, ◌<◌, length, get_or, Ok};
ghost use Rattle.profile.specs.Grammar.{noted, is_ruby, class_byte};
ghost use Rattle.profile.specs.Machine.{State, Name};
ghost use Rattle.profile.specs.Readings.{Reads, Around, texted, opened};
ghost use Rattle.profile_tags.specs.Terms.{Head, naming, dotting, classing, noting, ended, lesses, LtRs, NamedIs, StartIs, number, ShortIs, closes};

use profile::Tag;
use profile_words::{read_escape, read_word};

fn is_noted(x: Tag) -> bool
    ensures { result ≡ noted x }
{
    matches!(x, Tag::Voice | Tag::Lang)
}

pub fn is_ruby(x: Tag) -> bool
    ensures { result ≡ is_ruby x }
{
    matches!(x, Tag::Ruby)
}

// Whether a class may have this byte.
#[tactic(auto, unfolding(profile::specs::Grammar::besides, profile::specs::Grammar::one_of))]
fn is_class(b: u8) -> bool
    ensures { result ≡ class_byte b }
{
    !matches!(b, b' ' | b'\t' | b'\n' | b'\r' | b'&' | b'.' | b'<' | b'>')
}

// The end of a class, from within it.
fn skip_class(s: &[u8], at: usize) -> usize
    requires { at ≤ length s.now }
    ensures { Reads Head s.now at (Ok result) classing naming }
{
    for i in at..s.len() {
        if !is_class(s[i]) {
            return i;
        }
    }
    s.len()
}

// A class behind its dot: one byte at least.
fn read_class(s: &[u8], at: usize) -> Result<usize, usize>
    requires { at ≤ length s.now }
    ensures { Reads Head s.now at result dotting naming }
{
    if at >= s.len() || !is_class(s[at]) {
        return Err(at);
    }
    Ok(skip_class(s, at + 1))
}

// An annotation behind its first blank, not all of it blank, and the > behind it.
fn read_note(s: &[u8], at: usize) -> Result<usize, usize>
    requires { at ≤ length s.now }
    ensures { Reads Head s.now at result (noting false) ended }
{
    let mut i = at;
    let mut said = false;
    // An escape takes several bytes: the step is read from the text.
    while i < s.len() {
        let b = s[i];
        match b {
            b' ' | b'\t' => {
                i += 1;
            }
            b'&' => {
                i = read_escape(s, i + 1)?;
                said = true;
            }
            b'>' => return if said { Ok(i + 1) } else { Err(i) },
            b'\n' | b'\r' => return Err(i),
            _ => {
                i += 1;
                said = true;
            }
        }
    }
    Err(i)
}

// A start tag behind its name, and its > : classes, then an annotation or none.
pub fn read_head(s: &[u8], at: usize, x: Tag) -> Result<usize, usize>
    requires { at ≤ length s.now }
    ensures { Reads Around s.now at result (λ e. State.at (Name x) e.0 e.1) (opened x) }
{
    let mut i = at;
    while i < s.len() {
        let b = s[i];
        match b {
            b'.' => i = read_class(s, i + 1)?,
            b'>' => return if is_noted(x) { Err(i) } else { Ok(i + 1) },
            b' ' | b'\t' => {
                return if is_noted(x) {
                    read_note(s, i + 1)
                } else {
                    Err(i)
                };
            }
            _ => return Err(i),
        }
    }
    Err(i)
}

// Behind <r : uby, and directly inside ruby t.
fn read_ruby(s: &[u8], at: usize, ruby: bool) -> Result<(usize, Tag), usize>
    requires { at ≤ length s.now }
    ensures { NamedIs s.now at ruby result LtRs }
{
    if s.len() <= at {
        return Err(at);
    }
    let b = s[at];
    match b {
        b'u' => Ok((read_word(s, at + 1, b"by")?, Tag::Ruby)),
        b't' => { if ruby { Ok((at + 1, Tag::Rt)) } else { Err(at) } }
        _ => Err(at),
    }
}

// Behind < : a start tag's name.
pub fn read_tag(s: &[u8], at: usize, ruby: bool) -> Result<(usize, Tag), usize>
    requires { (at < length s.now) × (57 < get_or s.now at 0) }
    ensures { NamedIs s.now at ruby result lesses }
{
    let b = s[at];
    match b {
        b'b' => Ok((at + 1, Tag::Bold)),
        b'i' => Ok((at + 1, Tag::Italic)),
        b'u' => Ok((at + 1, Tag::Underline)),
        b'c' => Ok((at + 1, Tag::Classed)),
        b'v' => Ok((at + 1, Tag::Voice)),
        b'l' => Ok((read_word(s, at + 1, b"ang")?, Tag::Lang)),
        b'r' => read_ruby(s, at + 1, ruby),
        _ => Err(at),
    }
}

const LETTERS: [u8; 5] = [b'b', b'i', b'u', b'c', b'v'];

fn number_of(x: Tag) -> usize
    ensures { result ≡ number x }
{
    match x {
        Tag::Bold => 0,
        Tag::Italic => 1,
        Tag::Underline => 2,
        Tag::Classed => 3,
        Tag::Voice => 4,
        Tag::Lang => 5,
        Tag::Ruby => 6,
        Tag::Rt => 7,
    }
}

// Whether the name of the tag is one letter, and it and > stand here. The letter is looked up: tags follow one another in no order, a branch for each is slow.
fn is_short(s: &[u8], at: usize, x: Tag) -> bool
    requires { at ≤ length s.now }
    ensures { ShortIs s.now at x result }
{
    let i = number_of(x);
    if i >= 5 || s.len() - at < 2 {
        return false;
    }
    let letters = LETTERS;
    s[at] == letters[i] && s[at + 1] == b'>'
}

// The one tag without annotation that a letter may name, by its last three bits, in which i, b, c and u differ. A table that is read: tags follow one another in no order, and a `match` compiles to a jump for each.
const LIKELY: [Tag; 8] = [
    Tag::Bold,
    Tag::Italic,
    Tag::Bold,
    Tag::Classed,
    Tag::Bold,
    Tag::Underline,
    Tag::Bold,
    Tag::Bold,
];

fn likely_tag(b: u8) -> Tag
    ensures { noted result ≡ false }
{
    let tags = LIKELY;
    tags[usize::from(b % 8)]
}

// A start tag, from its name on.
pub fn read_start(s: &[u8], at: usize, ruby: bool) -> Result<(usize, Tag), usize>
    requires { (at < length s.now) × (57 < get_or s.now at 0) }
    ensures { StartIs s.now at ruby result }
{
    let x = likely_tag(s[at]);
    if is_short(s, at, x) {
        return Ok((at + 2, x));
    }
    let (next, tag) = read_tag(s, at, ruby)?;
    Ok((read_head(s, next, tag)?, tag))
}

// An end tag's name and its >, byte by byte.
fn spell_close(s: &[u8], at: usize, x: Tag) -> Result<usize, usize>
    requires { at ≤ length s.now }
    ensures { Reads Around s.now at result (closes x) texted }
{
    match x {
        Tag::Bold => read_word(s, at, b"b>"),
        Tag::Italic => read_word(s, at, b"i>"),
        Tag::Underline => read_word(s, at, b"u>"),
        Tag::Classed => read_word(s, at, b"c>"),
        Tag::Voice => read_word(s, at, b"v>"),
        Tag::Lang => read_word(s, at, b"lang>"),
        Tag::Ruby => read_word(s, at, b"ruby>"),
        Tag::Rt => read_word(s, at, b"rt>"),
    }
}

// Behind </ : an end tag's name and its >.
pub fn read_close(s: &[u8], at: usize, x: Tag) -> Result<usize, usize>
    requires { at ≤ length s.now }
    ensures { Reads Around s.now at result (closes x) texted }
{
    if is_short(s, at, x) {
        Ok(at + 2)
    } else {
        spell_close(s, at, x)
    }
}
