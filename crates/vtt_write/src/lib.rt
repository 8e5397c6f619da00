// Writing a WebVTT file from a configuration text and a cue list.
#![tactic(auto)]

ghost use Rattle.std.specs.Prelude.{◌≡◌, [], ◌∷◌, ◌++◌, ◌+◌, ◌*◌, ◌≤◌, ◌<◌, length};
ghost use Rattle.base.specs.Over.{over, wrote};
ghost use Rattle.utf8.specs.Strings.{LF};
ghost use Rattle.records.specs.Records.{count, identifier_length, settings_length, payload_length};
ghost use Rattle.cues.specs.Caption.{caption};
ghost use Rattle.cues.specs.Judgement.{caption_of};
ghost use Rattle.cues.specs.List.{Sound};
ghost use Rattle.vtt_write.specs.Writing.{line_text, spaced, times_text, timing_text, cue_text, file_bytes, write_room, written_of, after};
ghost use Rattle.vtt_write.specs.Steps.{line_size, cue_size, gap, gap_size, cues_to, size_to};

use cues::judge_list;
use records::{
    end_ms, identifier_length, payload_length, payload_offset, settings_length, settings_offset,
    start_ms, text_offset, texts_end,
};
use records_write::put_text;
use text::judge_configuration;
use timestamps::put_timestamp;
use verdict::{Reason, Refusal, Verdict, text_at};

// Whose fault it is that there is no file.
#[derive(Clone, Copy)]
pub enum Fault {
    Configuration(Refusal),
    List(Refusal),
    // The file lent is too short.
    Room(Refusal),
}

// A text of n bytes with its line end or its space, if there is any.
fn line_size(n: usize) -> usize
    requires { n < 65536 }
    ensures { (result ≡ line_size n) × (result ≤ n + 1) }
{
    if n == 0 { 0 } else { n + 1 }
}

// The bytes of cue i with the blank line before it.
fn cue_size(records: &[u8], i: usize) -> usize
    requires { i * 24 + 24 ≤ length records.now }
    ensures { (result ≡ gap_size i + cue_size (identifier_length records.now i) (settings_length records.now i) (payload_length records.now i)) × (result < 262144) }
{
    let identifier = line_size(identifier_length(records, i) as usize);
    let settings = line_size(settings_length(records, i) as usize);
    let payload = line_size(payload_length(records, i) as usize);
    let size = identifier + (30 + settings) + payload;
    if i == 0 { size } else { 1 + size }
}

// The bytes of all cues.
fn cues_size(records: &[u8]) -> usize
    requires { count records.now ≤ 1024 }
    ensures { (result ≡ size_to records.now (count records.now)) × (result ≤ 268435456) }
{
    let n = records.len() / 24;
    let mut size = 0;
    for i in 0..n {
        size += cue_size(records, i);
    }
    size
}

// A text and its line end; gives the place behind them.
fn put_line(out: &mut [u8], at: usize, text: &[u8]) -> usize
    requires { at + line_size (length text.now) ≤ length out.old }
    ensures { (result ≡ at + line_size (length text.now)) × (out.new ≡ wrote out.old at (line_text text.now)) }
{
    if text.len() == 0 {
        return at;
    }
    let last = put_text(&mut *out, at, text);
    out[last] = b'\n';
    last + 1
}

// A space and the settings; gives the place behind them.
fn put_settings(out: &mut [u8], at: usize, text: &[u8]) -> usize
    requires { at + line_size (length text.now) ≤ length out.old }
    ensures { (result ≡ at + line_size (length text.now)) × (out.new ≡ wrote out.old at (spaced text.now)) }
{
    if text.len() == 0 {
        return at;
    }
    out[at] = b' ';
    put_text(&mut *out, at + 1, text)
}

// `start --> end`.
fn put_times(out: &mut [u8], at: usize, start: u32, end: u32)
    requires { (at + 29 ≤ length out.old) × (start ≤ 359999999) × (end ≤ 359999999) }
    ensures { out.new ≡ wrote out.old at (times_text start end) }
{
    put_timestamp(&mut *out, at, start);
    out[at + 12] = b' ';
    out[at + 13] = b'-';
    out[at + 14] = b'-';
    out[at + 15] = b'>';
    out[at + 16] = b' ';
    put_timestamp(&mut *out, at + 17, end);
}

// A cue's timing line; gives the place behind it.
fn put_timing(out: &mut [u8], at: usize, start: u32, end: u32, settings: &[u8]) -> usize
    requires { (at + (30 + line_size (length settings.now)) ≤ length out.old) × (start ≤ 359999999) × (end ≤ 359999999) }
    ensures { (result ≡ at + (30 + line_size (length settings.now))) × (out.new ≡ wrote out.old at (times_text start end ++ spaced settings.now ++ LF ∷ [])) }
{
    put_times(&mut *out, at, start, end);
    let behind = put_settings(&mut *out, at + 29, settings);
    out[behind] = b'\n';
    behind + 1
}

// A cue whose texts lie in any lent bytes; gives the place behind it.
fn put_cue(
    out: &mut [u8],
    at: usize,
    start: u32,
    end: u32,
    identifier: &[u8],
    settings: &[u8],
    payload: &[u8],
) -> usize
    requires { (at + cue_size (length identifier.now) (length settings.now) (length payload.now) ≤ length out.old) × (start ≤ 359999999) × (end ≤ 359999999) }
    ensures { (result ≡ at + cue_size (length identifier.now) (length settings.now) (length payload.now)) × (out.new ≡ wrote out.old at (cue_text (caption start end identifier.now settings.now payload.now))) }
{
    let timing = put_line(&mut *out, at, identifier);
    let lines = put_timing(&mut *out, timing, start, end, settings);
    put_line(&mut *out, lines, payload)
}

// The cue of record i, whose texts lie in the pool.
fn put_pooled(out: &mut [u8], at: usize, records: &[u8], pool: &[u8], i: usize) -> usize
    requires { Sound 1000 359999999 records.now pool.now × (i < count records.now) × (at + cue_size (identifier_length records.now i) (settings_length records.now i) (payload_length records.now i) ≤ length out.old) }
    ensures { (result ≡ at + cue_size (identifier_length records.now i) (settings_length records.now i) (payload_length records.now i)) × (out.new ≡ wrote out.old at (cue_text (caption_of records.now pool.now i))) }
{
    let identifier = text_offset(records, i) as usize;
    let settings = settings_offset(records, i);
    let payload = payload_offset(records, i);
    let last = texts_end(records, i);
    put_cue(
        &mut *out,
        at,
        start_ms(records, i),
        end_ms(records, i),
        &pool[identifier..settings],
        &pool[settings..payload],
        &pool[payload..last],
    )
}

// With the blank line before it, unless it is the first.
fn put_next(out: &mut [u8], at: usize, records: &[u8], pool: &[u8], i: usize) -> usize
    requires { Sound 1000 359999999 records.now pool.now × (i < count records.now) × (at + (gap_size i + cue_size (identifier_length records.now i) (settings_length records.now i) (payload_length records.now i)) ≤ length out.old) }
    ensures { (result ≡ at + (gap_size i + cue_size (identifier_length records.now i) (settings_length records.now i) (payload_length records.now i))) × (out.new ≡ wrote out.old at (gap i ++ cue_text (caption_of records.now pool.now i))) }
{
    if i == 0 {
        put_pooled(&mut *out, at, records, pool, i)
    } else {
        out[at] = b'\n';
        put_pooled(&mut *out, at + 1, records, pool, i)
    }
}

// All cues, from `at` on.
fn put_cues(out: &mut [u8], at: usize, records: &[u8], pool: &[u8])
    requires { Sound 1000 359999999 records.now pool.now × (at + size_to records.now (count records.now) ≤ length out.old) }
    ensures { out.new ≡ wrote out.old at (cues_to records.now pool.now (count records.now)) }
{
    let n = records.len() / 24;
    let mut place = at;
    for i in 0..n {
        place = put_next(&mut *out, place, records, pool, i);
    }
}

// The file, where there is room for it.
fn put_file(out: &mut [u8], configuration: &[u8], records: &[u8], pool: &[u8])
    requires { Sound 1000 359999999 records.now pool.now × (length configuration.now + 2 + size_to records.now (count records.now) ≤ length out.old) }
    ensures { out.new ≡ over (file_bytes configuration.now records.now pool.now) out.old }
{
    let n = put_text(&mut *out, 0, configuration);
    out[n] = b'\n';
    out[n + 1] = b'\n';
    put_cues(&mut *out, n + 2, records, pool);
}

// How many bytes the file has, or why it cannot be written.
pub fn write_room(configuration: &[u8], records: &[u8], pool: &[u8]) -> Result<usize, Fault>
    ensures { result ≡ write_room configuration.now records.now pool.now }
{
    text_at(0, judge_configuration(configuration)).map_err(Fault::Configuration)?;
    judge_list(1000, 359999999, records, pool).map_err(Fault::List)?;
    Ok(configuration.len() + 2 + cues_size(records))
}

// Writes the file over the front of `out`, or says why not.
pub fn write(
    configuration: &[u8],
    records: &[u8],
    pool: &[u8],
    out: &mut [u8],
) -> Result<usize, Fault>
    ensures value { result ≡ written_of configuration.now records.now pool.now (length out.old) }
    ensures out_after { out.new ≡ after result (file_bytes configuration.now records.now pool.now) out.old }
{
    let n = write_room(configuration, records, pool)?;
    if out.len() < n {
        return Err(Fault::Room(Reason::NoRoom.fault_at(0)));
    }
    put_file(&mut *out, configuration, records, pool);
    Ok(n)
}
