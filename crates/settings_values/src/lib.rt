// The values of settings, and a word of a settings text as a setting. Document 02, K10.
#![tactic(auto)]

ghost use Rattle.std.specs.Prelude.{◌≡◌, true, ◌+◌, ◌≤◌, min, eqb, leb, pos, neg_ℤ, length};
ghost use Rattle.std.proofs.Math.Option.{some};
ghost use Rattle.base.specs.Choice.{same_list};
ghost use Rattle.decimal.specs.Decimal.{value};
ghost use Rattle.utf8.specs.Strings.{starts_with};
ghost use Rattle.timestamps.specs.Timestamps.{front, digit};
ghost use Rattle.settings.specs.Words.{verticals, vertical_word, line_aligns, line_word, position_aligns, position_word, aligns, align_word};
ghost use Rattle.settings.specs.Grammar.{named};
ghost use Rattle.settings.specs.Reading.{word_in, number_of, hundredths_of, percent_of, line_of, as_vertical, as_align, as_size, as_line, as_position, not_comma, line_parsed, position_parsed, region_parsed, parsed};
ghost use Rattle.settings_values.specs.Terms.{percent_or};

use ascii::is_within;
use settings::{Align, Line, LineAlign, Parsed, Position, PositionAlign, Vertical};
use timestamps::{Digits, number_of, read_digits};

// `.d%`
fn read_tenths(s: &[u8]) -> Option<u16>
    requires { length s.now ≡ 3 }
    ensures { percent_or result ≡ hundredths_of s.now }
{
    if s[0] != b'.' {
        return None;
    }
    if !is_within(b'0', b'9', s[1]) {
        return None;
    }
    if s[2] != b'%' {
        return None;
    }
    Some((number_of(s[1]) * 10) as u16)
}

// `.dd%`
fn read_two(s: &[u8]) -> Option<u16>
    requires { length s.now ≡ 4 }
    ensures { percent_or result ≡ hundredths_of s.now }
{
    if s[0] != b'.' {
        return None;
    }
    if !is_within(b'0', b'9', s[1]) {
        return None;
    }
    if !is_within(b'0', b'9', s[2]) {
        return None;
    }
    if s[3] != b'%' {
        return None;
    }
    Some((number_of(s[1]) * 10 + number_of(s[2])) as u16)
}

// What stands behind the whole percents.
fn read_decimals(s: &[u8]) -> Option<u16>
    ensures { percent_or result ≡ hundredths_of s.now }
{
    let n = s.len();
    if n == 1 {
        if s[0] == b'%' {
            return Some(0);
        }
        return None;
    }
    if n == 3 {
        return read_tenths(s);
    }
    if n == 4 {
        return read_two(s);
    }
    None
}

// A percentage whose whole percents are read.
fn end_percent(s: &[u8], d: Digits) -> Option<u16>
    requires { (d.count ≡ length (front digit s.now)) × (d.number ≡ min (value (front digit s.now)) 40000) }
    ensures { percent_or result ≡ percent_of s.now }
{
    let n = d.count;
    if n == 0 {
        return None;
    }
    let h = read_decimals(&s[n..s.len()])?;
    let p = d.number * 100 + h as u32;
    if 10000 < p {
        return None;
    }
    Some(p as u16)
}

fn read_percent(s: &[u8]) -> Option<u16>
    ensures { percent_or result ≡ percent_of s.now }
{
    end_percent(s, read_digits(s, 40000))
}

fn negative(v: u32) -> i16
    requires { v ≤ 32768 }
    ensures { result ≡ neg_ℤ (pos v) }
{
    (0 - v as i32) as i16
}

// The number behind a minus sign.
fn read_negative(s: &[u8]) -> Line
    ensures { result ≡ number_of 32768 (λ n. neg_ℤ (pos n)) s.now }
{
    let d = read_digits(s, 40000);
    if s.len() == 0 {
        return Line::Auto;
    }
    if d.count < s.len() {
        return Line::Auto;
    }
    if 32768 < d.number {
        return Line::Auto;
    }
    Line::Number(negative(d.number))
}

// A number of which all is read.
fn end_number(s: &[u8], d: Digits) -> Line
    requires { (d.count ≡ length (front digit s.now)) × (d.number ≡ min (value (front digit s.now)) 40000) × (1 ≤ length s.now) × (length s.now ≤ d.count) }
    ensures { result ≡ number_of 32767 pos s.now }
{
    if 32767 < d.number {
        return Line::Auto;
    }
    Line::Number(d.number as i16)
}

// A line, or auto where it is none.
fn read_line(s: &[u8]) -> Line
    ensures { result ≡ line_of s.now }
{
    if s.len() == 0 {
        return Line::Auto;
    }
    if s[0] == b'-' {
        return read_negative(&s[1..s.len()]);
    }
    let d = read_digits(s, 40000);
    if s.len() <= d.count {
        return end_number(s, d);
    }
    let t = end_percent(s, d);
    match t {
        Some(p) => Line::Percent(p),
        None => Line::Auto,
    }
}

fn parse_vertical(s: &[u8]) -> Option<Parsed>
    ensures { result ≡ as_vertical (word_in vertical_word verticals s.now) }
{
    if is_word(s, b"rl") {
        return Some(Parsed::Vertical(Vertical::Rl));
    }
    if is_word(s, b"lr") {
        return Some(Parsed::Vertical(Vertical::Lr));
    }
    None
}

fn parse_align(s: &[u8]) -> Option<Parsed>
    ensures { result ≡ as_align (word_in align_word aligns s.now) }
{
    if is_word(s, b"start") {
        return Some(Parsed::Align(Align::Start));
    }
    if is_word(s, b"center") {
        return Some(Parsed::Align(Align::Center));
    }
    if is_word(s, b"end") {
        return Some(Parsed::Align(Align::End));
    }
    if is_word(s, b"left") {
        return Some(Parsed::Align(Align::Left));
    }
    if is_word(s, b"right") {
        return Some(Parsed::Align(Align::Right));
    }
    None
}

fn parse_size(s: &[u8]) -> Option<Parsed>
    ensures { result ≡ as_size (percent_of s.now) }
{
    Some(Parsed::Size(read_percent(s)?))
}

// The place of the first comma, or the length.
fn find_comma(s: &[u8]) -> usize
    ensures { (result ≡ length (front not_comma s.now)) × (result ≤ length s.now) }
{
    for (i, &b) in s.iter().enumerate() {
        if b == b',' {
            return i;
        }
    }
    s.len()
}

fn line_with(at: Line, align: LineAlign) -> Option<Parsed>
    ensures { result ≡ as_line at (some align) }
{
    match at {
        Line::Auto => None,
        Line::Number(_) => Some(Parsed::Line { at, align }),
        Line::Percent(_) => Some(Parsed::Line { at, align }),
    }
}

// A line and the word of its alignment.
fn align_line(at: Line, s: &[u8]) -> Option<Parsed>
    ensures { result ≡ as_line at (word_in line_word line_aligns s.now) }
{
    if is_word(s, b"start") {
        return line_with(at, LineAlign::Start);
    }
    if is_word(s, b"center") {
        return line_with(at, LineAlign::Center);
    }
    if is_word(s, b"end") {
        return line_with(at, LineAlign::End);
    }
    None
}

fn parse_line(s: &[u8]) -> Option<Parsed>
    ensures { result ≡ line_parsed s.now }
{
    let k = find_comma(s);
    let at = read_line(&s[..k]);
    if k == s.len() {
        return line_with(at, LineAlign::Start);
    }
    align_line(at, &s[k + 1..s.len()])
}

fn position_with(at: Option<u16>, align: PositionAlign) -> Option<Parsed>
    ensures { result ≡ as_position (percent_or at) (some align) }
{
    let at = Position::Percent(at?);
    Some(Parsed::Position { at, align })
}

// A position and the word of its alignment.
fn align_position(at: Option<u16>, s: &[u8]) -> Option<Parsed>
    ensures { result ≡ as_position (percent_or at) (word_in position_word position_aligns s.now) }
{
    if is_word(s, b"line-left") {
        return position_with(at, PositionAlign::LineLeft);
    }
    if is_word(s, b"center") {
        return position_with(at, PositionAlign::Center);
    }
    if is_word(s, b"line-right") {
        return position_with(at, PositionAlign::LineRight);
    }
    None
}

fn parse_position(s: &[u8]) -> Option<Parsed>
    ensures { result ≡ position_parsed s.now }
{
    let k = find_comma(s);
    let at = read_percent(&s[..k]);
    if k == s.len() {
        return position_with(at, PositionAlign::Auto);
    }
    align_position(at, &s[k + 1..s.len()])
}

// 1 for white space, which no byte of a region's name is, else 0.
#[tactic(auto, unfolding(settings::specs::Grammar::named))]
fn space_of(b: u8) -> u8
    ensures { eqb result 0 ≡ named b }
{
    // A `match` or `||` is one test of a mask, which the compiler takes for no wide step.
    u8::from(b == b' ')
        | u8::from(b == b'\t')
        | u8::from(b == b'\n')
        | u8::from(b == 0x0C)
        | u8::from(b == b'\r')
}

// Whether each byte may stand in a region's name. It does not end early, so that the compiler takes wide steps.
pub fn is_name(s: &[u8]) -> bool
    ensures { result ≡ leb (length s.now) (length (front named s.now)) }
{
    let mut x = 0;
    for &b in s {
        x |= space_of(b);
    }
    x == 0
}

// A region's name, which stands from `at` on.
fn parse_region(s: &[u8], at: usize) -> Option<Parsed>
    requires { at + length s.now ≤ 18446744073709551615 }
    ensures { result ≡ region_parsed at s.now }
{
    if s.len() == 0 {
        return None;
    }
    if !is_name(s) {
        return None;
    }
    Some(Parsed::Region {
        from: at,
        end: at + s.len(),
    })
}

// 0 for the same byte, else 1.
fn other(a: u8, b: u8) -> u8
    ensures { eqb result 0 ≡ eqb a b }
{
    u8::from(a != b)
}

// Whether the text begins with the string. It does not end early, so that a short string is compared in one step.
fn agrees(s: &[u8], p: &[u8]) -> bool
    requires { length p.now ≤ length s.now }
    ensures { result ≡ starts_with p.now s.now }
{
    let mut x = 0;
    for i in 0..p.len() {
        x |= other(s[i], p[i]);
    }
    x == 0
}

fn starts_with(s: &[u8], p: &[u8]) -> bool
    ensures { (result ≡ starts_with p.now s.now) × (result ≡ true → length p.now ≤ length s.now) }
{
    if s.len() < p.len() {
        return false;
    }
    agrees(s, p)
}

// The words are told apart by this: with a `match` on the slice each word that fails leaves a goal for its length and for each byte, and they do not close alone.
fn is_word(s: &[u8], w: &[u8]) -> bool
    ensures { result ≡ same_list s.now w.now }
{
    if s.len() != w.len() {
        return false;
    }
    agrees(s, w)
}

// The word that stands at `at`, as a setting.
pub fn parse_word(s: &[u8], at: usize) -> Option<Parsed>
    requires { at + length s.now ≤ 18446744073709551615 }
    ensures { result ≡ parsed at s.now }
{
    if starts_with(s, b"vertical:") {
        return parse_vertical(&s[9..s.len()]);
    }
    if starts_with(s, b"line:") {
        return parse_line(&s[5..s.len()]);
    }
    if starts_with(s, b"position:") {
        return parse_position(&s[9..s.len()]);
    }
    if starts_with(s, b"size:") {
        return parse_size(&s[5..s.len()]);
    }
    if starts_with(s, b"align:") {
        return parse_align(&s[6..s.len()]);
    }
    if starts_with(s, b"region:") {
        return parse_region(&s[7..s.len()], at + 7);
    }
    None
}
