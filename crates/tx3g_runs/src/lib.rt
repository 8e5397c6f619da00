// The runs of a `tx3g` text: characters of one style, by a style of the sample or by the default one.
#![tactic(auto)]

ghost use Rattle.std.specs.Prelude.{◌≡◌, ◌+◌, ◌≤◌, ◌<◌, leb, length};
ghost use Rattle.tx3g_runs.specs.declared.Run.TheVariants.{Plain};
ghost use Rattle.tx3g_runs.specs.Runs.{lasts, run_by, next_run};

use fields::get16;
use tx3g_style::{Style, read_style};

// A run from a character to before `end`; then how many styles are left behind it, and where the first of them stands.
// `End` stands among the kinds of answer: with `Option` around the other two each reader would take two enums apart.
#[derive(Clone, Copy)]
pub enum Run {
    Styled {
        end: usize,
        style: Style,
        left: usize,
        next: usize,
    },
    Plain {
        end: usize,
        left: usize,
        next: usize,
    },
    End,
}

// Whether the 12 bytes of a style at `at` are there.
fn has_style(s: &[u8], at: usize) -> bool
    ensures { result ≡ leb (at + 12) (length s.now) }
{
    12 <= s.len() && at <= s.len() - 12
}

// Whether the style at `at` has a character from k on.
fn lasts_from(s: &[u8], at: usize, k: usize) -> bool
    requires { at + 12 ≤ length s.now }
    ensures { result ≡ lasts s.now k at }
{
    let end = get16(s, at + 2);
    k < end as usize && get16(s, at) < end
}

// The run from k: up to the style at `at`, or of that style.
fn run_by(s: &[u8], left: usize, at: usize, k: usize, characters: usize) -> Run
    requires { (at + 12 ≤ length s.now) × (0 < left) }
    ensures { result ≡ run_by s.now left at k characters }
{
    let start = get16(s, at) as usize;
    if k < start {
        Run::Plain {
            end: start.min(characters),
            left,
            next: at,
        }
    } else {
        Run::Styled {
            end: (get16(s, at + 2) as usize).min(characters),
            style: read_style(s, at),
            left: left - 1,
            next: at + 12,
        }
    }
}

// The run of the default style up to the text's end.
fn plain_to(characters: usize) -> Run
    ensures { result ≡ Plain characters 0 0 }
{
    Run::Plain {
        end: characters,
        left: 0,
        next: 0,
    }
}

// The run that begins at character k of a text, where `count` styles are left and the first of them stands at `from`.
pub fn next_run(s: &[u8], count: usize, from: usize, k: usize, characters: usize) -> Run
    ensures { result ≡ next_run s.now count from k characters }
{
    if characters <= k {
        return Run::End;
    }
    let mut at = from;
    for passed in 0..count {
        if !has_style(s, at) {
            return plain_to(characters);
        }
        if lasts_from(s, at, k) {
            return run_by(s, count - passed, at, k, characters);
        }
        at += 12;
    }
    plain_to(characters)
}
