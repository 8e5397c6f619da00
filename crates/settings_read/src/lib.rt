// Settings read from a text, word by word. Document 02, K10.
#![tactic(auto)]

ghost use Rattle.std.specs.Prelude.{◌≡◌, [], true, ◌+◌, ◌≤◌, length};
ghost use Rattle.vtt_timing.specs.Read.{in_run};
ghost use Rattle.settings.specs.Reading.{words, name_in, taken, unread, read_words, read_settings};
ghost use Rattle.settings_read.specs.Terms.{runs_to};

use settings::{
    Align, Line, LineAlign, Parsed, Position, PositionAlign, Reading, Settings, Vertical,
};
use settings_values::parse_word;
use text::judge_identifier;
use verdict::{Reason, Refusal, Verdict, text_at};
use vtt_timing::{Run, is_in, pass_run};

// A setting in its place.
fn take_setting(r: Reading, t: Option<Parsed>) -> Reading
    ensures { result ≡ taken t r }
{
    let x = r.settings;
    match t {
        Some(Parsed::Vertical(vertical)) => Reading {
            settings: Settings { vertical, ..x },
            ..r
        },
        Some(Parsed::Line { at, align }) => Reading {
            settings: Settings {
                line: at,
                line_align: align,
                ..x
            },
            ..r
        },
        Some(Parsed::Position { at, align }) => Reading {
            settings: Settings {
                position: at,
                position_align: align,
                ..x
            },
            ..r
        },
        Some(Parsed::Size(size)) => Reading {
            settings: Settings { size, ..x },
            ..r
        },
        Some(Parsed::Align(align)) => Reading {
            settings: Settings { align, ..x },
            ..r
        },
        Some(Parsed::Region { from, end }) => Reading { from, end, ..r },
        None => r,
    }
}

// The name by its number; 6 for what is malformed.
fn name_of(t: Option<Parsed>) -> usize
    ensures { (result ≡ name_in t) × (result ≤ 6) }
{
    match t {
        Some(Parsed::Vertical(_)) => 0,
        Some(Parsed::Line { at: _, align: _ }) => 1,
        Some(Parsed::Position { at: _, align: _ }) => 2,
        Some(Parsed::Size(_)) => 3,
        Some(Parsed::Align(_)) => 4,
        Some(Parsed::Region { from: _, end: _ }) => 5,
        None => 6,
    }
}

// The defaults.
fn unread_settings() -> Reading
    ensures { result ≡ unread }
{
    let settings = Settings {
        vertical: Vertical::None,
        line: Line::Auto,
        line_align: LineAlign::Start,
        position: Position::Auto,
        position_align: PositionAlign::Auto,
        size: 10000,
        align: Align::Center,
    };
    Reading {
        settings,
        from: 0,
        end: 0,
    }
}

// 0 for a byte of the run, else 1.
fn out_of(run: Run, b: u8) -> u8
    ensures { result ≡ 0 → in_run run b ≡ true }
{
    u8::from(!is_in(run, b))
}

// Whether the run goes on for 64 bytes. It does not end early, so that the compiler takes wide steps.
fn is_long(s: &[u8], at: usize, run: Run) -> bool
    requires { at + 64 ≤ length s.now }
    ensures { result ≡ true → runs_to (in_run run) s.now (at + 64) ≡ runs_to (in_run run) s.now at }
{
    let mut x = 0;
    for k in 0..64 {
        x |= out_of(run, s[at + k]);
    }
    x == 0
}

// The place behind the run that begins at `at`, 64 bytes at a time where so many are left.
fn pass_long(s: &[u8], at: usize, run: Run) -> usize
    requires { at ≤ length s.now }
    ensures { (result ≡ runs_to (in_run run) s.now at) × (result ≤ length s.now) }
{
    let mut i = at;
    // By sixty-fours while as many are left and all are of the run: no iterator leaves off where a block fails.
    while 64 <= s.len() - i {
        if !is_long(s, i, run) {
            return pass_run(s, i, run);
        }
        i += 64;
    }
    pass_run(s, i, run)
}

// The words in turn. A name that was read is marked, and what is malformed is marked from the start.
fn read_words(s: &[u8]) -> Result<Reading, Refusal>
    ensures { result ≡ read_words (words 0 s.now) [] unread }
{
    let mut marks = [0u8, 0, 0, 0, 0, 0, 1];
    let mut x = unread_settings();
    let mut i = pass_long(s, 0, Run::Blanks);
    while i < s.len() {
        let e = pass_long(s, i, Run::Word);
        let t = parse_word(&s[i..e], i);
        let k = name_of(t);
        if marks[k] == 1 {
            return Err(Reason::BadSetting.fault_at(i));
        }
        marks[k] = 1;
        x = take_setting(x, t);
        i = pass_long(s, e, Run::Blanks);
    }
    Ok(x)
}

// The settings that a text says. Of good settings only a region's name can break the rule of a line, so that no more is judged.
pub fn read_settings(text: &[u8]) -> Result<Reading, Refusal>
    ensures { result ≡ read_settings text.now }
{
    if 255 < text.len() {
        return Err(Reason::PastLimit.fault_at(0));
    }
    let answer = read_words(text);
    if matches!(answer, Ok(x) if x.end == 0) {
        return answer;
    }
    text_at(0, judge_identifier(text))?;
    answer
}
