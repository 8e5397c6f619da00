// Writing a `wvtt` sample entry: its configuration, its label if there is one, and the data reference index.
#![tactic(auto)]

ghost use Rattle.std.specs.Prelude.{◌≡◌, ◌+◌, ◌≤◌, length};
ghost use Rattle.base.specs.Over.{over, wrote};
ghost use Rattle.boxes.specs.Written.{box_bytes, item_bytes};
ghost use Rattle.wvtt_entry_write.specs.Writing.{label_of, entry_items, entry_size, entry_head, entry_bytes, judge_texts, room_of, written_of, after};
ghost use Rattle.wvtt_entry_write.specs.Terms.{sized};

use fields::{put16, put32};
use text::{judge_configuration, judge_label};
use verdict::{Reason, Refusal, Verdict, text_at};
use wvtt_entry::{CONFIGURATION, LABEL, WVTT};
use wvtt_write::{put_header, put_text};

// The largest size of a box.
const LIMIT: usize = 4294967295;

// This size, or 9 above the largest.
fn limit_size(n: usize) -> Result<usize, Refusal>
    ensures { result ≡ sized n }
{
    if LIMIT < n {
        Err(Reason::PastLimit.fault_at(0))
    } else {
        Ok(n)
    }
}

// The size of an entry with these texts. No sum wraps: a text above the limit is refused before it is counted.
fn entry_size(configuration: &[u8], labelled: bool, label: &[u8]) -> Result<usize, Refusal>
    ensures { result ≡ sized (entry_size configuration.now (label_of labelled label.now)) }
{
    let n = limit_size(configuration.len())?;
    if labelled {
        let m = limit_size(label.len())?;
        limit_size(24 + n + (8 + m))
    } else {
        limit_size(24 + n)
    }
}

// The texts by their rules: the configuration, and the label if there is one.
#[tactic(auto, unfolding(crate::specs::Writing::judge_texts))]
fn judge_texts(configuration: &[u8], labelled: bool, label: &[u8]) -> Verdict
    ensures { result ≡ judge_texts configuration.now (label_of labelled label.now) }
{
    text_at(0, judge_configuration(configuration))?;
    if labelled {
        text_at(1, judge_label(label))
    } else {
        Ok(())
    }
}

// The bytes that an entry with these texts needs, or why it cannot be written.
// A flag beside the label, as the C interface gives them.
pub fn entry_room(configuration: &[u8], labelled: bool, label: &[u8]) -> Result<usize, Refusal>
    ensures { result ≡ room_of configuration.now (label_of labelled label.now) }
{
    let size = entry_size(configuration, labelled, label)?;
    judge_texts(configuration, labelled, label)?;
    Ok(size)
}

// The fixed bytes of an entry.
fn put_head(out: &mut [u8], size: u32, index: u32)
    requires { 16 ≤ length out.old }
    ensures { out.new ≡ over (entry_head size index) out.old }
{
    put_header(&mut *out, 0, size, WVTT);
    put32(&mut *out, 8, 0);
    put16(&mut *out, 12, 0);
    put16(&mut *out, 14, index);
}

// A box whose body is a text.
fn put_whole(out: &mut [u8], at: usize, kind: u32, text: &[u8])
    requires { (at + 8 + length text.now ≤ length out.old) × (length text.now + 8 ≤ 4294967295) }
    ensures { out.new ≡ wrote out.old at (box_bytes kind text.now) }
{
    put_text(&mut *out, at, kind, text, 0, text.len());
}

// The boxes of an entry.
fn put_boxes(out: &mut [u8], configuration: &[u8], labelled: bool, label: &[u8])
    requires { (entry_size configuration.now (label_of labelled label.now) ≤ length out.old) × (entry_size configuration.now (label_of labelled label.now) ≤ 4294967295) }
    ensures { out.new ≡ wrote out.old 16 (item_bytes (entry_items configuration.now (label_of labelled label.now))) }
{
    put_whole(&mut *out, 16, CONFIGURATION, configuration);
    if labelled {
        put_whole(&mut *out, 24 + configuration.len(), LABEL, label);
    }
}

// An entry, where there is room for it.
fn put_entry(
    out: &mut [u8],
    size: u32,
    configuration: &[u8],
    labelled: bool,
    label: &[u8],
    index: u32,
)
    requires { (size ≡ entry_size configuration.now (label_of labelled label.now)) × (size ≤ length out.old) }
    ensures { out.new ≡ over (entry_bytes configuration.now (label_of labelled label.now) index) out.old }
{
    put_head(&mut *out, size, index);
    put_boxes(&mut *out, configuration, labelled, label);
}

// Writes an entry over the front of `out`, or says why not.
pub fn write_entry(
    configuration: &[u8],
    labelled: bool,
    label: &[u8],
    index: u16,
    out: &mut [u8],
) -> Result<usize, Refusal>
    ensures value { result ≡ written_of configuration.now (label_of labelled label.now) (length out.old) }
    ensures out_after { out.new ≡ after result (entry_bytes configuration.now (label_of labelled label.now) index) out.old }
{
    let n = entry_room(configuration, labelled, label)?;
    if out.len() < n {
        return Err(Reason::NoRoom.fault_at(0));
    }
    put_entry(
        &mut *out,
        n as u32,
        configuration,
        labelled,
        label,
        u32::from(index),
    );
    Ok(n)
}
