// What a `tx3g` sample entry and a sample say: the entry's fields and fonts; the sample's text, where its styles stand, and whether it has a `blnk`.
#![tactic(auto)]

ghost use Rattle.std.specs.Prelude.{◌≡◌, ◌+◌, ◌≤◌, length};
ghost use Rattle.utf8.specs.Strings.{starts_with};
ghost use Rattle.characters.specs.Characters.{mark};
ghost use Rattle.tx3g_sample.specs.Sample.{text_end, read_sample};
ghost use Rattle.tx3g_style.specs.Style.{styles_of};
ghost use Rattle.tx3g_read.specs.Entry.{colour_at, fields_of, read_entry, font_in};
ghost use Rattle.tx3g_read.specs.Sample.{text_of, styles_in, retired_blinking, content_of};

use bodies::find_body;
use fields::{get8, get16, get32};
use signed::{get_signed8, get_signed16};
use tx3g_contents::{BLNK, STYL};
use tx3g_entry::{find_fonts, judge_entry};
use tx3g_sample::{Fault, read_sample, text_end};
use tx3g_style::{Style, read_style};
use verdict::{Reason, Refusal, Verdict};

#[derive(Clone, Copy)]
pub struct Colour {
    pub red: u32,
    pub green: u32,
    pub blue: u32,
    pub alpha: u32,
}

// The fields of an entry: data reference index, display flags, justification, background, default text box and style; how many fonts there are, and
// where the first stands.
#[derive(Clone, Copy)]
pub struct Fields {
    pub index: u32,
    pub flags: u32,
    pub horizontal: i32,
    pub vertical: i32,
    pub background: Colour,
    pub top: i32,
    pub left: i32,
    pub bottom: i32,
    pub right: i32,
    pub style: Style,
    pub fonts: u32,
    pub from: usize,
}

// A font: its ID, and where its name stands.
#[derive(Clone, Copy)]
pub struct Font {
    pub id: u32,
    pub from: usize,
    pub end: usize,
}

// How a text is encoded, and where it stands without its mark.
#[derive(Clone, Copy)]
pub struct Text {
    pub utf16: bool,
    pub from: usize,
    pub end: usize,
}

// How many styles there are, and where the first stands.
#[derive(Clone, Copy)]
pub struct Styles {
    pub count: u32,
    pub from: usize,
}

// What a sample holds.
#[derive(Clone, Copy)]
pub struct Content {
    pub characters: usize,
    pub text: Text,
    pub styles: Styles,
    pub retired_blinking: bool,
}

fn read_colour(s: &[u8], at: usize) -> Colour
    requires { at + 4 ≤ length s.now }
    ensures { result ≡ colour_at s.now at }
{
    Colour {
        red: get8(s, at),
        green: get8(s, at + 1),
        blue: get8(s, at + 2),
        alpha: get8(s, at + 3),
    }
}

// The fields of an entry whose `ftab` has its body at `fonts`.
fn read_fields(e: &[u8], fonts: usize) -> Fields
    requires { (46 ≤ length e.now) × (fonts + 2 ≤ length e.now) }
    ensures { result ≡ fields_of e.now fonts }
{
    Fields {
        index: get16(e, 14),
        flags: get32(e, 16),
        horizontal: get_signed8(e, 20),
        vertical: get_signed8(e, 21),
        background: read_colour(e, 22),
        top: get_signed16(e, 26),
        left: get_signed16(e, 28),
        bottom: get_signed16(e, 30),
        right: get_signed16(e, 32),
        style: read_style(e, 34),
        fonts: get16(e, fonts),
        from: fonts + 2,
    }
}

// The fields of an entry, which is judged first.
pub fn read_entry(e: &[u8]) -> Result<Fields, Refusal>
    ensures { result ≡ read_entry e.now }
{
    judge_entry(e)?;
    let Some(fonts) = find_fonts(e)? else {
        return Err(Reason::BoxMissing.fault_at(0));
    };
    Ok(read_fields(e, fonts))
}

// The font that stands at `at`; none where it ends past the bytes.
pub fn font_at(e: &[u8], at: usize) -> Option<Font>
    ensures { result ≡ font_in e.now at }
{
    if e.len() < 3 || e.len() - 3 < at {
        return None;
    }
    let end = at + 3 + get8(e, at + 2) as usize;
    if e.len() < end {
        return None;
    }
    Some(Font {
        id: get16(e, at),
        from: at + 3,
        end,
    })
}

// Whether a text begins with the mark of UTF-16.
fn has_mark(text: &[u8]) -> bool
    ensures { result ≡ starts_with mark text.now }
{
    text.starts_with(&[0xFE, 0xFF])
}

// The text of a sample.
pub fn find_text(s: &[u8]) -> Text
    requires { text_end s.now ≤ length s.now }
    ensures { result ≡ text_of s.now }
{
    let end = text_end(s);
    let utf16 = has_mark(&s[2..end]);
    Text {
        utf16,
        from: if utf16 { 4 } else { 2 },
        end,
    }
}

// The styles of a sample without fault.
pub fn find_styles(e: &[u8], s: &[u8], characters: usize) -> Styles
    requires { read_sample e.now s.now ≡ Ok characters }
    ensures { result ≡ styles_in s.now (styles_of s.now) }
{
    match find_body(s, text_end(s), STYL).ok().unwrap_or(None) {
        Some(body) => Styles {
            count: get16(s, body),
            from: body + 2,
        },
        None => Styles { count: 0, from: 0 },
    }
}

// Whether a sample has a `blnk`, which is retired.
fn has_blinking(s: &[u8]) -> bool
    requires { 2 ≤ length s.now }
    ensures { result ≡ retired_blinking s.now }
{
    find_body(s, text_end(s), BLNK)
        .ok()
        .unwrap_or(None)
        .is_some()
}

// What a sample holds: the entry is judged first, then the sample.
pub fn read_content(e: &[u8], s: &[u8]) -> Result<Content, Fault>
    ensures { result ≡ content_of e.now s.now }
{
    let characters = read_sample(e, s)?;
    Ok(Content {
        characters,
        text: find_text(s),
        styles: find_styles(e, s, characters),
        retired_blinking: has_blinking(s),
    })
}
