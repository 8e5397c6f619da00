// Settings written in their fixed form: judged and measured first, so that a refusal writes nothing. Document 02, K10.
#![tactic(auto)]

ghost use Rattle.std.specs.Prelude.{◌≡◌, ◌+◌, ◌≤◌, length, take};
ghost use Rattle.base.specs.Over.{over};
ghost use Rattle.wvtt_entry_write.specs.Writing.{after};
ghost use Rattle.settings.specs.Form.{line_allowed, position_allowed, settings_allowed, region_allowed, stated_region, joined, written};
ghost use Rattle.settings_write.specs.Writing.{record_with, settings_room, settings_written};
ghost use Rattle.settings_write.specs.Terms.{sound, form_size, Prepared};

use records_write::put_text;
use settings::{Line, LineAlign, Position, PositionAlign, Settings};
use settings_put::{put_values, put_word};
use settings_values::is_name;
use text::judge_identifier;
use verdict::{Reason, Refusal};
use viable::Judged;

// Whether a region can have this name. The empty one says that there is no region.
fn is_region(name: &[u8]) -> bool
    ensures { result ≡ region_allowed name.now }
{
    name.is_empty() || is_name(name) && judge_identifier(name).is_ok()
}

// An alignment is written beside a place only.
fn is_line(line: Line, align: LineAlign) -> bool
    ensures { result ≡ line_allowed line align }
{
    match line {
        Line::Auto => matches!(align, LineAlign::Start),
        Line::Number(_n) => true,
        Line::Percent(p) => p <= 10000,
    }
}

fn is_position(position: Position, align: PositionAlign) -> bool
    ensures { result ≡ position_allowed position align }
{
    match position {
        Position::Auto => matches!(align, PositionAlign::Auto),
        Position::Percent(p) => p <= 10000,
    }
}

#[tactic(auto, unfolding(settings::specs::Form::settings_allowed))]
fn is_allowed(x: Settings) -> bool
    ensures { result ≡ settings_allowed x }
{
    is_line(x.line, x.line_align) && is_position(x.position, x.position_align) && x.size <= 10000
}

// The length comes first: a long name is not read.
#[tactic(auto, unfolding(crate::specs::Terms::sound))]
fn is_sound(x: Settings, region: &[u8]) -> bool
    ensures { result ≡ sound x region.now }
{
    region.len() <= 255 && is_allowed(x) && is_region(region)
}

// The bytes of a form: n of settings, and a region whose name has m.
#[tactic(auto, unfolding(crate::specs::Terms::form_size))]
fn form_size(n: usize, m: usize) -> usize
    requires { (n ≤ 85) × (m ≤ 255) }
    ensures { result ≡ form_size n m }
{
    match (n, m) {
        (_, 0) => n,
        (0, _) => 7 + m,
        _ => n + 8 + m,
    }
}

// Judges and measures a record, and puts its settings without the region into `head`: how many bytes these are, and how many the form has; none if no text says the record.
fn prepare(head: &mut [u8], x: Settings, region: &[u8]) -> Option<(usize, usize)>
    requires { 85 ≤ length head.old }
    ensures { Prepared x region.now result head.new }
{
    if !is_sound(x, region) {
        return None;
    }
    let n = put_values(&mut *head, x);
    let size = form_size(n, region.len());
    if 255 < size {
        return None;
    }
    Some((n, size))
}

// The settings of which `head` holds n bytes, and the region behind them.
fn put_form(out: &mut [u8], head: &[u8], n: usize, region: &[u8])
    requires { (n ≤ length head.now) × (form_size n (length region.now) ≤ length out.old) }
    ensures { out.new ≡ over (joined (take n head.now) (stated_region region.now)) out.old }
{
    put_text(&mut *out, 0, &head[..n]);
    if !region.is_empty() {
        let at = put_word(&mut *out, n, b"region:");
        put_text(&mut *out, at, region);
    }
}

// The bytes that these settings need with a region of this name, or none if it is empty; or 8 where no text could say them.
pub fn settings_room(x: Settings, region: &[u8]) -> Result<usize, Refusal>
    ensures { result ≡ settings_room x region.now }
{
    let mut head = [0u8; 85];
    let (_, size) = prepare(&mut head, x, region).ok_or(Reason::BadValue.fault_at(0))?;
    Ok(size)
}

// Writes the settings over the front of `out`, or says why not.
pub fn write_settings(x: Settings, region: &[u8], out: &mut [u8]) -> Result<usize, Refusal>
    ensures { (result ≡ settings_written x region.now (length out.old)) × (out.new ≡ after (settings_written x region.now (length out.old)) (written (record_with x region.now)) out.old) }
{
    let mut head = [0u8; 85];
    let (n, size) = prepare(&mut head, x, region).ok_or(Reason::BadValue.fault_at(0))?;
    if out.len() < size {
        return Err(Reason::NoRoom.fault_at(0));
    }
    put_form(&mut *out, &head, n, region);
    Ok(size)
}
