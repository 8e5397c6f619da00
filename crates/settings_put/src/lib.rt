// The settings of a cue, put into a slice: each that is not the default, as a word, with one space between two. Document 02, K10.
#![tactic(auto)]

ghost use Rattle.std.specs.Prelude.{◌≡◌, [], ◌+◌, ◌≤◌, ◌<◌, nat_abs, length, take};
ghost use Rattle.base.specs.Over.{wrote};
ghost use Rattle.settings.specs.Form.{fraction_text, percent_text, number_text, line_text, line_edge, position_edge, stated_vertical, stated_line, stated_position, stated_size, stated_align, stated_values, joined};
ghost use Rattle.settings_put.specs.Terms.{spaced, Joins};

use decimal::put_decimal;
use records_write::put_text;
use settings::{Align, Line, LineAlign, Position, PositionAlign, Settings, Vertical};

// Each function gives the place behind what it put.

// The decimals of h hundredths, without zeros at the end.
fn put_fraction(out: &mut [u8], at: usize, h: u16) -> usize
    requires { (at + 3 ≤ length out.old) × (h < 100) }
    ensures { (result ≡ at + length (fraction_text h)) × (out.new ≡ wrote out.old at (fraction_text h)) × (result ≤ at + 3) }
{
    if h == 0 {
        return at;
    }
    out[at] = b'.';
    out[at + 1] = (48 + h / 10) as u8;
    if h % 10 == 0 {
        return at + 2;
    }
    out[at + 2] = (48 + h % 10) as u8;
    at + 3
}

// A percentage of p hundredths.
fn put_percent(out: &mut [u8], at: usize, p: u16) -> usize
    requires { at + 7 ≤ length out.old }
    ensures { (result ≡ at + length (percent_text p)) × (out.new ≡ wrote out.old at (percent_text p)) × (result ≤ at + 7) }
{
    let point = put_decimal(&mut *out, at, (p / 100) as u64);
    let last = put_fraction(&mut *out, point, p % 100);
    out[last] = b'%';
    last + 1
}

// A number without its sign.
fn magnitude(n: i16) -> u64
    ensures { (result ≡ nat_abs n) × (result ≤ 32768) }
{
    if n < 0 {
        return (0 - n as i32) as u64;
    }
    n as u64
}

// A whole number, with `-` before one below zero.
fn put_number(out: &mut [u8], at: usize, n: i16) -> usize
    requires { at + 6 ≤ length out.old }
    ensures { (result ≡ at + length (number_text n)) × (out.new ≡ wrote out.old at (number_text n)) × (result ≤ at + 6) }
{
    if n < 0 {
        out[at] = b'-';
        return put_decimal(&mut *out, at + 1, magnitude(n));
    }
    put_decimal(&mut *out, at, magnitude(n))
}

// A word, and a space before it, if it is not the first.
pub fn put_word(out: &mut [u8], at: usize, word: &[u8]) -> usize
    requires { at + 1 + length word.now ≤ length out.old }
    ensures { (result ≡ at + length (spaced at word.now)) × (out.new ≡ wrote out.old at (spaced at word.now)) × (result ≤ at + 1 + length word.now) }
{
    if at == 0 {
        return put_text(&mut *out, at, word);
    }
    out[at] = b' ';
    put_text(&mut *out, at + 1, word)
}

fn put_vertical(out: &mut [u8], at: usize, vertical: Vertical) -> usize
    requires { at + 12 ≤ length out.old }
    ensures { Joins out.old at out.new result (stated_vertical vertical) × (result ≤ at + 12) }
{
    match vertical {
        Vertical::None => at,
        Vertical::Rl => put_word(&mut *out, at, b"vertical:rl"),
        Vertical::Lr => put_word(&mut *out, at, b"vertical:lr"),
    }
}

fn put_line_place(out: &mut [u8], at: usize, line: Line) -> usize
    requires { at + 7 ≤ length out.old }
    ensures { (result ≡ at + length (line_text line)) × (out.new ≡ wrote out.old at (line_text line)) × (result ≤ at + 7) }
{
    match line {
        Line::Auto => at,
        Line::Number(n) => put_number(&mut *out, at, n),
        Line::Percent(p) => put_percent(&mut *out, at, p),
    }
}

fn put_line_edge(out: &mut [u8], at: usize, align: LineAlign) -> usize
    requires { at + 7 ≤ length out.old }
    ensures { (result ≡ at + length (line_edge align)) × (out.new ≡ wrote out.old at (line_edge align)) × (result ≤ at + 7) }
{
    match align {
        LineAlign::Start => at,
        LineAlign::Center => put_text(&mut *out, at, b",center"),
        LineAlign::End => put_text(&mut *out, at, b",end"),
    }
}

fn put_line(out: &mut [u8], at: usize, line: Line, align: LineAlign) -> usize
    requires { at + 20 ≤ length out.old }
    ensures { Joins out.old at out.new result (stated_line line align) × (result ≤ at + 20) }
{
    if let Line::Auto = line {
        return at;
    }
    let place = put_word(&mut *out, at, b"line:");
    let edge = put_line_place(&mut *out, place, line);
    put_line_edge(&mut *out, edge, align)
}

fn put_position_edge(out: &mut [u8], at: usize, align: PositionAlign) -> usize
    requires { at + 11 ≤ length out.old }
    ensures { (result ≡ at + length (position_edge align)) × (out.new ≡ wrote out.old at (position_edge align)) × (result ≤ at + 11) }
{
    match align {
        PositionAlign::Auto => at,
        PositionAlign::LineLeft => put_text(&mut *out, at, b",line-left"),
        PositionAlign::Center => put_text(&mut *out, at, b",center"),
        PositionAlign::LineRight => put_text(&mut *out, at, b",line-right"),
    }
}

fn put_position(out: &mut [u8], at: usize, position: Position, align: PositionAlign) -> usize
    requires { at + 28 ≤ length out.old }
    ensures { Joins out.old at out.new result (stated_position position align) × (result ≤ at + 28) }
{
    let Position::Percent(p) = position else {
        return at;
    };
    let place = put_word(&mut *out, at, b"position:");
    let edge = put_percent(&mut *out, place, p);
    put_position_edge(&mut *out, edge, align)
}

fn put_size(out: &mut [u8], at: usize, size: u16) -> usize
    requires { at + 13 ≤ length out.old }
    ensures { Joins out.old at out.new result (stated_size size) × (result ≤ at + 13) }
{
    if size == 10000 {
        return at;
    }
    let place = put_word(&mut *out, at, b"size:");
    put_percent(&mut *out, place, size)
}

fn put_align(out: &mut [u8], at: usize, align: Align) -> usize
    requires { at + 12 ≤ length out.old }
    ensures { Joins out.old at out.new result (stated_align align) × (result ≤ at + 12) }
{
    match align {
        Align::Start => put_word(&mut *out, at, b"align:start"),
        Align::Center => at,
        Align::End => put_word(&mut *out, at, b"align:end"),
        Align::Left => put_word(&mut *out, at, b"align:left"),
        Align::Right => put_word(&mut *out, at, b"align:right"),
    }
}

// All settings but the region, over the front of `out`; gives how many bytes they are.
pub fn put_values(out: &mut [u8], x: Settings) -> usize
    requires { 85 ≤ length out.old }
    ensures { (take result out.new ≡ joined [] (stated_values x)) × (result ≤ 85) }
{
    let vertical = x.vertical;
    let line = x.line;
    let line_align = x.line_align;
    let position = x.position;
    let position_align = x.position_align;
    let align = x.align;
    let second = put_vertical(&mut *out, 0, vertical);
    let third = put_line(&mut *out, second, line, line_align);
    let fourth = put_position(&mut *out, third, position, position_align);
    let fifth = put_size(&mut *out, fourth, x.size);
    put_align(&mut *out, fifth, align)
}
