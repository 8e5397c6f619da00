// The modifiers of a `tx3g` sample, one by one from left to right. `blnk` is retired, and not handed out.
#![tactic(auto)]

ghost use Rattle.std.specs.Prelude.{◌≡◌, ◌+◌, ◌≤◌, length};
ghost use Rattle.boxes.specs.Boxes.{boxes_in};
ghost use Rattle.tx3g_contents.specs.Contents.{link_end, content_end};
ghost use Rattle.tx3g_modifiers.specs.Modifiers.{handed, whole, link_of, plain_of, modifier_of, next_modifier};

use boxes::{Part, Step, step_at, stopped_by};
use fields::{get8, get16, get32};
use tx3g_contents::{BLNK, HCLR, HLIT, HREF, KROK, STYL, TBOX, TWRP, is_known, judge_content};
use verdict::Refusal;

// What a modifier box says: its numbers, and where its records and texts stand.
#[derive(Clone, Copy)]
pub enum Modifier {
    // So many styles of 12 bytes each.
    Styles {
        count: u32,
        from: usize,
    },
    Highlight {
        start: u32,
        end: u32,
    },
    Colour {
        red: u32,
        green: u32,
        blue: u32,
        alpha: u32,
    },
    // The start time, and so many entries of 8 bytes each.
    Karaoke {
        time: u32,
        count: u32,
        from: usize,
    },
    Delay {
        time: u32,
    },
    Link {
        start: u32,
        end: u32,
        url: Part,
        alternative: Part,
    },
    // Top, left, bottom, right: the 8 bytes from `from`.
    TextBox {
        from: usize,
    },
    Wrap {
        flag: u32,
    },
}

// The kinds that are handed out.
fn is_handed(kind: u32) -> bool
    ensures { result ≡ handed kind }
{
    kind != BLNK && is_known(kind)
}

// Whether this is a box that is handed out, and that its content fills.
fn is_whole(s: &[u8], place: usize, kind: u32, body: usize, next: usize) -> bool
    requires { (body ≤ next) × (next ≤ length s.now) }
    ensures { result ≡ whole s.now kind body next }
{
    is_handed(kind) && matches!(judge_content(s, place, kind, body, next), Ok(()))
}

fn read_link(s: &[u8], body: usize) -> Modifier
    requires { link_end s.now body ≤ length s.now }
    ensures { result ≡ link_of s.now body }
{
    let start = get16(s, body);
    let end = get16(s, body + 2);
    let second = body + 5 + get8(s, body + 4) as usize;
    let url = Part {
        from: body + 5,
        end: second,
    };
    let alternative = Part {
        from: second + 1,
        end: second + 1 + get8(s, second) as usize,
    };
    Modifier::Link {
        start,
        end,
        url,
        alternative,
    }
}

// A modifier of 4 bytes.
fn read_plain(s: &[u8], kind: u32, body: usize) -> Modifier
    requires { body + 4 ≤ length s.now }
    ensures { result ≡ plain_of s.now kind body }
{
    match kind {
        HLIT => Modifier::Highlight {
            start: get16(s, body),
            end: get16(s, body + 2),
        },
        HCLR => Modifier::Colour {
            red: get8(s, body),
            green: get8(s, body + 1),
            blue: get8(s, body + 2),
            alpha: get8(s, body + 3),
        },
        _ => Modifier::Delay {
            time: get32(s, body),
        },
    }
}

// The modifier of a kind whose body begins at `body`.
fn read_modifier(s: &[u8], kind: u32, body: usize) -> Modifier
    requires { content_end s.now kind body ≤ length s.now }
    ensures { result ≡ modifier_of s.now kind body }
{
    match kind {
        STYL => Modifier::Styles {
            count: get16(s, body),
            from: body + 2,
        },
        KROK => Modifier::Karaoke {
            time: get32(s, body),
            count: get16(s, body + 4),
            from: body + 6,
        },
        HREF => read_link(s, body),
        TBOX => Modifier::TextBox { from: body },
        TWRP => Modifier::Wrap {
            flag: get8(s, body),
        },
        _ => read_plain(s, kind, body),
    }
}

// The first modifier of a sample from a place on where a box begins.
pub fn next_modifier(s: &[u8], from: usize) -> Result<Option<(Modifier, usize)>, Refusal>
    ensures { result ≡ next_modifier s.now (boxes_in s.now from (length s.now)) }
{
    let end = s.len();
    let mut at = from;
    loop {
        let t = step_at(s, at, end);
        let Step::Box { kind, body, next } = t else {
            stopped_by(t)?;
            return Ok(None);
        };
        if is_whole(s, at, kind, body, next) {
            let modifier = read_modifier(s, kind, body);
            return Ok(Some((modifier, next)));
        }
        at = next;
    }
}
