// What a cue's settings say: where it stands, how wide it is, how it is aligned. The grammar of settings, what reading gives and the fixed form, with the theorems. Document 02, K10.
#![tactic(auto)]

use verdict::Refusal;

#[derive(Clone, Copy)]
pub enum Vertical {
    None,
    Rl,
    Lr,
}

// A line by its number, from the top or, negative, from the bottom; or a percentage in hundredths.
#[derive(Clone, Copy)]
pub enum Line {
    Auto,
    Number(i16),
    Percent(u16),
}

#[derive(Clone, Copy)]
pub enum LineAlign {
    Start,
    Center,
    End,
}

// A percentage in hundredths.
#[derive(Clone, Copy)]
pub enum Position {
    Auto,
    Percent(u16),
}

#[derive(Clone, Copy)]
pub enum PositionAlign {
    Auto,
    LineLeft,
    Center,
    LineRight,
}

#[derive(Clone, Copy)]
pub enum Align {
    Start,
    Center,
    End,
    Left,
    Right,
}

// All that settings say, but for the region's name, which is lent beside it. The size is a percentage in hundredths.
#[derive(Clone, Copy)]
pub struct Settings {
    pub vertical: Vertical,
    pub line: Line,
    pub line_align: LineAlign,
    pub position: Position,
    pub position_align: PositionAlign,
    pub size: u16,
    pub align: Align,
}

// A word of a settings text as it is read. Region: where the name stands in the text.
#[derive(Clone, Copy)]
pub enum Parsed {
    Vertical(Vertical),
    Line { at: Line, align: LineAlign },
    Position { at: Position, align: PositionAlign },
    Size(u16),
    Align(Align),
    Region { from: usize, end: usize },
}

// What was read: the settings, and where the region's name stands in the text; from 0 to 0 where there is none.
#[derive(Clone, Copy)]
pub struct Reading {
    pub settings: Settings,
    pub from: usize,
    pub end: usize,
}
