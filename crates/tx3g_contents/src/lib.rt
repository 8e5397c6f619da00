// The modifier boxes of a `tx3g` sample: their kinds, and whether a content fills its box.
#![tactic(auto)]

ghost use Rattle.std.specs.Prelude.{◌≡◌, ◌≤◌, length};
ghost use Rattle.bodies.specs.Bodies.{filled};
ghost use Rattle.tx3g_contents.specs.Kinds.{single, ranged, known};
ghost use Rattle.tx3g_contents.specs.Contents.{styles_end, karaoke_end, link_end, fixed_size, content_end};

use bodies::judge_end;
use fields::{get8, get16};
use verdict::{Reason, Verdict};

pub const STYL: u32 = 0x7374796C;

pub const HLIT: u32 = 0x686C6974;

pub const HCLR: u32 = 0x68636C72;

pub const KROK: u32 = 0x6B726F6B;

pub const DLAY: u32 = 0x646C6179;

pub const HREF: u32 = 0x68726566;

pub const TBOX: u32 = 0x74626F78;

pub const BLNK: u32 = 0x626C6E6B;

pub const TWRP: u32 = 0x74777270;

// The boxes that begin with a range of characters.
pub fn is_ranged(kind: u32) -> bool
    ensures { result ≡ ranged kind }
{
    matches!(kind, HLIT | BLNK | HREF)
}

// The boxes that a sample holds at most once each.
pub fn is_single(kind: u32) -> bool
    ensures { result ≡ single kind }
{
    matches!(kind, STYL | HCLR | KROK | DLAY | TBOX | TWRP)
}

// The modifier boxes.
pub fn is_known(kind: u32) -> bool
    ensures { result ≡ known kind }
{
    is_single(kind) || is_ranged(kind)
}

fn judge_styles_end(s: &[u8], place: usize, body: usize, next: usize) -> Verdict
    requires { (body ≤ next) × (next ≤ length s.now) }
    ensures { result ≡ filled place (styles_end s.now body) next }
{
    if next - body < 2 {
        return Reason::BytesMissing.refused(place);
    }
    let count = get16(s, body) as usize;
    judge_end(place, body + 2 + count * 12, next)
}

fn judge_karaoke_end(s: &[u8], place: usize, body: usize, next: usize) -> Verdict
    requires { (body ≤ next) × (next ≤ length s.now) }
    ensures { result ≡ filled place (karaoke_end s.now body) next }
{
    if next - body < 6 {
        return Reason::BytesMissing.refused(place);
    }
    let count = get16(s, body + 4) as usize;
    judge_end(place, body + 6 + count * 8, next)
}

fn judge_link_end(s: &[u8], place: usize, body: usize, next: usize) -> Verdict
    requires { (body ≤ next) × (next ≤ length s.now) }
    ensures { result ≡ filled place (link_end s.now body) next }
{
    if next - body < 5 {
        return Reason::BytesMissing.refused(place);
    }
    let alternative = body + 5 + get8(s, body + 4) as usize;
    if next <= alternative {
        return Reason::BytesMissing.refused(place);
    }
    let length = get8(s, alternative) as usize;
    judge_end(place, alternative + 1 + length, next)
}

// The length of a body that has always the same.
fn fixed_size(kind: u32) -> usize
    ensures { (result ≡ fixed_size kind) × (result ≤ 8) }
{
    match kind {
        TBOX => 8,
        TWRP => 1,
        _ => 4,
    }
}

// Whether the content fills the body of a modifier box.
pub fn judge_content(s: &[u8], place: usize, kind: u32, body: usize, next: usize) -> Verdict
    requires { (body ≤ next) × (next ≤ length s.now) }
    ensures { result ≡ filled place (content_end s.now kind body) next }
{
    match kind {
        STYL => judge_styles_end(s, place, body, next),
        KROK => judge_karaoke_end(s, place, body, next),
        HREF => judge_link_end(s, place, body, next),
        _ => judge_end(place, body + fixed_size(kind), next),
    }
}
