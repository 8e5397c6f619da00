// The style of a character of a `tx3g` sample.
#![tactic(auto)]

ghost use Rattle.std.specs.Prelude.{◌≡◌, ◌+◌, ◌≤◌, length, Ok};
ghost use Rattle.tx3g_contents.specs.Contents.{styles_end};
ghost use Rattle.tx3g_sample.specs.Sample.{read_sample};
ghost use Rattle.tx3g_style.specs.Style.{style_in, holds_at, style_among, in_force, styles_of, style_of};

use bodies::find_body;
use fields::{get8, get16};
use tx3g_contents::STYL;
use tx3g_sample::{Fault, read_sample, text_end};
use verdict::Reason;

// A style: characters from `start` to before `end`, font ID, face flags, size and colour.
#[derive(Clone, Copy)]
pub struct Style {
    pub start: u32,
    pub end: u32,
    pub font: u32,
    pub face: u32,
    pub size: u32,
    pub red: u32,
    pub green: u32,
    pub blue: u32,
    pub alpha: u32,
}

// The style whose 12 bytes stand at `at`.
pub fn read_style(s: &[u8], at: usize) -> Style
    requires { at + 12 ≤ length s.now }
    ensures { result ≡ style_in s.now at }
{
    Style {
        start: get16(s, at),
        end: get16(s, at + 2),
        font: get16(s, at + 4),
        face: get8(s, at + 6),
        size: get8(s, at + 7),
        red: get8(s, at + 8),
        green: get8(s, at + 9),
        blue: get8(s, at + 10),
        alpha: get8(s, at + 11),
    }
}

// Whether the style at `at` holds character k.
fn holds_character(s: &[u8], at: usize, k: usize) -> bool
    requires { at + 12 ≤ length s.now }
    ensures { result ≡ holds_at s.now k at }
{
    (get16(s, at) as usize..get16(s, at + 2) as usize).contains(&k)
}

// The style of a `styl` that holds character k, else the default style.
fn search_styles(e: &[u8], s: &[u8], body: usize, k: usize) -> Style
    requires { (46 ≤ length e.now) × (styles_end s.now body ≤ length s.now) }
    ensures { result ≡ style_among e.now s.now k body }
{
    let count = get16(s, body) as usize;
    for i in 0..count {
        let at = body + 2 + i * 12;
        if holds_character(s, at, k) {
            return read_style(s, at);
        }
    }
    read_style(e, 34)
}

// The style in force at character k of a sample without fault.
fn style_in_force(e: &[u8], s: &[u8], k: usize, characters: usize) -> Result<Style, Fault>
    requires { read_sample e.now s.now ≡ Ok characters }
    ensures { result ≡ in_force e.now s.now k (styles_of s.now) }
{
    let styles = find_body(s, text_end(s), STYL).map_err(Fault::Sample)?;
    match styles {
        Some(body) => Ok(search_styles(e, s, body, k)),
        None => Ok(read_style(e, 34)),
    }
}

// The style of character k: the entry is judged first, then the sample, then k.
pub fn style_at(e: &[u8], s: &[u8], k: usize) -> Result<Style, Fault>
    ensures { result ≡ style_of e.now s.now k }
{
    let characters = read_sample(e, s)?;
    if k < characters {
        style_in_force(e, s, k, characters)
    } else {
        Err(Fault::Sample(Reason::BadRange.fault_at(0)))
    }
}
