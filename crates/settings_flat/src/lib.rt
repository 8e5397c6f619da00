// Settings as C sees them: numbers for values. Document 02, K10.
#![tactic(auto)]

ghost use Rattle.std.specs.Prelude.{◌≡◌, ◌<◌, length};
ghost use Rattle.std.specs.Int.Signed.{mag};
ghost use Rattle.wvtt_entry_write.specs.Writing.{after};
ghost use Rattle.settings.specs.Form.{written};
ghost use Rattle.settings_write.specs.Writing.{record_with};
ghost use Rattle.settings_flat.specs.Flat.{flat_vertical, flat_line_align, flat_position_align, flat_align, line_kind, line_number, line_percent, position_kind, position_percent, flat_settings, no_settings, flat_done, flat_read, vertical_of, line_of, line_align_of, position_of, position_align_of, align_of, known, settings_of, given_room, given_written};

use settings::{Align, Line, LineAlign, Position, PositionAlign, Reading, Settings, Vertical};
use settings_write::{settings_room, write_settings};
use verdict::{Reason, Refusal};

// What stands beside another kind of line or position is 0 from reading, and not looked at in writing.
#[repr(C)]
#[derive(Clone, Copy, Default)]
pub struct CaptionsSettings {
    pub vertical: u8,
    pub line: u8,
    pub line_align: u8,
    pub position: u8,
    pub position_align: u8,
    pub align: u8,
    pub line_number: i16,
    pub line_percent: u16,
    pub position_percent: u16,
    pub size: u16,
}

#[repr(C)]
#[derive(Clone, Copy, Default)]
pub struct CaptionsSettingsRead {
    pub refusal: Refusal,
    pub settings: CaptionsSettings,
    pub region_from: usize,
    pub region_end: usize,
}

// The numbers of values are the C interface's alone: they stand here and not as `From` beside the enums.
fn flat_vertical(v: Vertical) -> u8
    ensures { result ≡ flat_vertical v }
{
    match v {
        Vertical::None => 0,
        Vertical::Rl => 1,
        Vertical::Lr => 2,
    }
}

fn flat_line_align(a: LineAlign) -> u8
    ensures { result ≡ flat_line_align a }
{
    match a {
        LineAlign::Start => 0,
        LineAlign::Center => 1,
        LineAlign::End => 2,
    }
}

fn flat_position_align(a: PositionAlign) -> u8
    ensures { result ≡ flat_position_align a }
{
    match a {
        PositionAlign::Auto => 0,
        PositionAlign::LineLeft => 1,
        PositionAlign::Center => 2,
        PositionAlign::LineRight => 3,
    }
}

fn flat_align(a: Align) -> u8
    ensures { result ≡ flat_align a }
{
    match a {
        Align::Start => 0,
        Align::Center => 1,
        Align::End => 2,
        Align::Left => 3,
        Align::Right => 4,
    }
}

fn line_kind(l: Line) -> u8
    ensures { result ≡ line_kind l }
{
    match l {
        Line::Auto => 0,
        Line::Number(_) => 1,
        Line::Percent(_) => 2,
    }
}

fn line_number(l: Line) -> i16
    ensures { (result ≡ line_number l) × (mag result < 32768) }
{
    match l {
        Line::Number(n) => n,
        _ => 0,
    }
}

fn line_percent(l: Line) -> u16
    ensures { result ≡ line_percent l }
{
    match l {
        Line::Percent(p) => p,
        _ => 0,
    }
}

fn position_kind(p: Position) -> u8
    ensures { result ≡ position_kind p }
{
    match p {
        Position::Auto => 0,
        Position::Percent(_) => 1,
    }
}

fn position_percent(p: Position) -> u16
    ensures { result ≡ position_percent p }
{
    match p {
        Position::Auto => 0,
        Position::Percent(q) => q,
    }
}

impl From<Settings> for CaptionsSettings {
    ghost from_gives = { λ x r. r ≡ flat_settings x };

    #[tactic(auto, unfolding(crate::specs::Flat::flat_settings))]
    fn from(x: Settings) -> Self {
        Self {
            vertical: flat_vertical(x.vertical),
            line: line_kind(x.line),
            line_align: flat_line_align(x.line_align),
            position: position_kind(x.position),
            position_align: flat_position_align(x.position_align),
            align: flat_align(x.align),
            line_number: line_number(x.line),
            line_percent: line_percent(x.line),
            position_percent: position_percent(x.position),
            size: x.size,
        }
    }
}

impl From<Result<Reading, Refusal>> for CaptionsSettingsRead {
    ghost from_gives = { λ a r. r ≡ flat_read a };

    #[tactic(auto, unfolding(verdict::specs::Judgement::fault))]
    fn from(a: Result<Reading, Refusal>) -> Self {
        match a {
            Ok(x) => Self {
                settings: x.settings.into(),
                region_from: x.from,
                region_end: x.end,
                ..Self::default()
            },
            Err(refusal) => Self {
                refusal,
                ..Self::default()
            },
        }
    }
}

// The answer of reading.
pub fn flat_read(a: Result<Reading, Refusal>) -> CaptionsSettingsRead
    ensures { result ≡ flat_read a }
{
    a.into()
}

// Whether each number is one of a value.
#[tactic(auto, unfolding(crate::specs::Flat::known))]
fn is_known(x: CaptionsSettings) -> bool
    ensures { result ≡ known x }
{
    x.vertical <= 2
        && x.line <= 2
        && x.line_align <= 2
        && x.position <= 1
        && x.position_align <= 3
        && x.align <= 4
}

#[tactic(auto, unfolding(crate::specs::Flat::vertical_of))]
fn vertical_of(n: u8) -> Vertical
    ensures { result ≡ vertical_of n }
{
    match n {
        0 => Vertical::None,
        1 => Vertical::Rl,
        _ => Vertical::Lr,
    }
}

#[tactic(auto, unfolding(crate::specs::Flat::line_of))]
fn line_of(kind: u8, number: i16, percent: u16) -> Line
    ensures { result ≡ line_of kind number percent }
{
    match kind {
        0 => Line::Auto,
        1 => Line::Number(number),
        _ => Line::Percent(percent),
    }
}

#[tactic(auto, unfolding(crate::specs::Flat::line_align_of))]
fn line_align_of(n: u8) -> LineAlign
    ensures { result ≡ line_align_of n }
{
    match n {
        0 => LineAlign::Start,
        1 => LineAlign::Center,
        _ => LineAlign::End,
    }
}

#[tactic(auto, unfolding(crate::specs::Flat::position_of))]
fn position_of(kind: u8, percent: u16) -> Position
    ensures { result ≡ position_of kind percent }
{
    match kind {
        0 => Position::Auto,
        _ => Position::Percent(percent),
    }
}

#[tactic(auto, unfolding(crate::specs::Flat::position_align_of))]
fn position_align_of(n: u8) -> PositionAlign
    ensures { result ≡ position_align_of n }
{
    match n {
        0 => PositionAlign::Auto,
        1 => PositionAlign::LineLeft,
        2 => PositionAlign::Center,
        _ => PositionAlign::LineRight,
    }
}

#[tactic(auto, unfolding(crate::specs::Flat::align_of))]
fn align_of(n: u8) -> Align
    ensures { result ≡ align_of n }
{
    match n {
        0 => Align::Start,
        1 => Align::Center,
        2 => Align::End,
        3 => Align::Left,
        _ => Align::Right,
    }
}

// The settings that the numbers stand for.
fn settings_of(x: CaptionsSettings) -> Settings
    ensures { result ≡ settings_of x }
{
    Settings {
        vertical: vertical_of(x.vertical),
        line: line_of(x.line, x.line_number, x.line_percent),
        line_align: line_align_of(x.line_align),
        position: position_of(x.position, x.position_percent),
        position_align: position_align_of(x.position_align),
        size: x.size,
        align: align_of(x.align),
    }
}

// The bytes that settings need which are given by numbers.
pub fn given_room(x: CaptionsSettings, region: &[u8]) -> Result<usize, Refusal>
    ensures { result ≡ given_room x region.now }
{
    if !is_known(x) {
        return Err(Reason::BadValue.fault_at(0));
    }
    settings_room(settings_of(x), region)
}

// Settings written that are given by numbers.
pub fn write_given(x: CaptionsSettings, region: &[u8], out: &mut [u8]) -> Result<usize, Refusal>
    ensures { (result ≡ given_written x region.now (length out.old)) × (out.new ≡ after (given_written x region.now (length out.old)) (written (record_with (settings_of x) region.now)) out.old) }
{
    if !is_known(x) {
        return Err(Reason::BadValue.fault_at(0));
    }
    write_settings(settings_of(x), region, &mut *out)
}
