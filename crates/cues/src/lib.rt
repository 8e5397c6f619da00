// The judgement of a caption and of a list of cue records.
#![tactic(auto)]

ghost use Rattle.std.specs.Prelude.{◌≡◌, ◌+◌, ◌*◌, ◌≤◌, ◌<◌, length};
ghost use Rattle.verdict.specs.Judgement.{each};
ghost use Rattle.records.specs.Records.{texts_end};
ghost use Rattle.cues.specs.Caption.{caption, long_texts, judge_texts, bad_times, judge_content};
ghost use Rattle.cues.specs.Judgement.{bad_value, past_pool, start_before, caption_of, judge_record, judge_ids, judge_list};

use records::{
    end_ms, identifier_length, payload_length, payload_offset, reserved_bytes, settings_length,
    settings_offset, source_id, start_ms, text_offset, texts_end,
};
use text::{judge_identifier, judge_payload};
use times::{tick_of, timeline_allowed};
use verdict::{Reason, Verdict, text_at};

// By the lengths of the three texts.
#[tactic(auto, unfolding(crate::specs::Caption::long_texts))]
pub fn long_texts(identifier: usize, settings: usize, payload: usize) -> bool
    ensures { result ≡ long_texts identifier settings payload }
{
    identifier > 255 || settings > 255 || payload > 4095
}

// The texts, from the first on.
#[tactic(auto, unfolding(crate::specs::Caption::judge_texts))]
fn judge_texts(identifier: &[u8], settings: &[u8], payload: &[u8], place: usize) -> Verdict
    ensures { result ≡ judge_texts identifier.now settings.now payload.now place }
{
    text_at(place, judge_identifier(identifier))?;
    text_at(place, judge_identifier(settings))?;
    text_at(place, judge_payload(payload))
}

#[tactic(auto, unfolding(crate::specs::Caption::bad_times))]
pub fn bad_times(scale: u32, t: u32, start: u32, end: u32) -> bool
    ensures { result ≡ bad_times scale t start end }
{
    end <= start || t < end || tick_of(scale, end) <= tick_of(scale, start)
}

// A caption whose texts are within their limits; the cue before starts at `before`, which is 0 where there is none.
#[tactic(auto, unfolding(crate::specs::Caption::judge_content))]
pub fn judge_content(
    scale: u32,
    t: u32,
    before: u32,
    start: u32,
    end: u32,
    identifier: &[u8],
    settings: &[u8],
    payload: &[u8],
    place: usize,
) -> Verdict
    ensures { result ≡ judge_content scale t before (caption start end identifier.now settings.now payload.now) place }
{
    judge_texts(identifier, settings, payload, place)?;
    if bad_times(scale, t, start, end) {
        return Reason::BadTime.refused(place);
    }
    if start < before {
        Reason::BadOrder.refused(place)
    } else {
        Ok(())
    }
}

// The tests of a record.
#[tactic(auto, unfolding(crate::specs::Judgement::bad_value))]
fn bad_value(records: &[u8], i: usize) -> bool
    requires { i * 24 + 24 ≤ length records.now }
    ensures { result ≡ bad_value records.now i }
{
    source_id(records, i) >= 0x80000000 || reserved_bytes(records, i) > 0
}

fn past_pool(records: &[u8], pool: &[u8], i: usize) -> bool
    requires { i * 24 + 24 ≤ length records.now }
    ensures { result ≡ past_pool records.now pool.now i }
{
    pool.len() < texts_end(records, i)
}

fn start_before(records: &[u8], i: usize) -> u32
    requires { i * 24 + 24 ≤ length records.now }
    ensures { result ≡ start_before records.now i }
{
    if i == 0 { 0 } else { start_ms(records, i - 1) }
}

// The caption of record i, whose texts lie in the pool.
fn judge_pooled(scale: u32, t: u32, records: &[u8], pool: &[u8], i: usize) -> Verdict
    requires { (i * 24 + 24 ≤ length records.now) × (texts_end records.now i ≤ length pool.now) }
    ensures { result ≡ judge_content scale t (start_before records.now i) (caption_of records.now pool.now i) i }
{
    let identifier = text_offset(records, i) as usize;
    let settings = settings_offset(records, i);
    let payload = payload_offset(records, i);
    let last = texts_end(records, i);
    judge_content(
        scale,
        t,
        start_before(records, i),
        start_ms(records, i),
        end_ms(records, i),
        &pool[identifier..settings],
        &pool[settings..payload],
        &pool[payload..last],
        i,
    )
}

#[tactic(auto, unfolding(crate::specs::Judgement::judge_record))]
fn judge_record(scale: u32, t: u32, records: &[u8], pool: &[u8], i: usize) -> Verdict
    requires { i * 24 + 24 ≤ length records.now }
    ensures { result ≡ judge_record scale t records.now pool.now i }
{
    if bad_value(records, i) {
        return Reason::BadValue.refused(i);
    }
    if long_texts(
        identifier_length(records, i) as usize,
        settings_length(records, i) as usize,
        payload_length(records, i) as usize,
    ) {
        return Reason::PastLimit.refused(i);
    }
    if past_pool(records, pool, i) {
        return Reason::BytesMissing.refused(i);
    }
    judge_pooled(scale, t, records, pool, i)
}

fn judge_records(scale: u32, t: u32, records: &[u8], pool: &[u8], n: usize) -> Verdict
    requires { n * 24 ≤ length records.now }
    ensures { result ≡ each (judge_record scale t records.now pool.now) n }
{
    for i in 0..n {
        judge_record(scale, t, records, pool, i)?;
    }
    Ok(())
}

// 12, where an ID stands twice. The search ends at the first pair found; the place is the later record of it.
fn judge_ids(records: &[u8], n: usize) -> Verdict
    requires { n * 24 ≤ length records.now }
    ensures { result ≡ judge_ids records.now n }
{
    // The slots of the records so far, by the ID modulo 4,096: an ID whose slot is free has not stood earlier.
    let mut taken = [false; 4096];
    let mut place = n;
    'search: for i in 0..n {
        let id = source_id(records, i);
        let slot = id as usize % 4096;
        if taken[slot] {
            for j in 0..i {
                if source_id(records, j) == id {
                    place = i;
                    break 'search;
                }
            }
        }
        taken[slot] = true;
    }
    if place < n {
        Reason::IdTwice.refused(place)
    } else {
        Ok(())
    }
}

#[tactic(auto, unfolding(crate::specs::Judgement::judge_list, records::specs::Records::count))]
pub fn judge_list(scale: u32, t: u32, records: &[u8], pool: &[u8]) -> Verdict
    ensures { result ≡ judge_list scale t records.now pool.now }
{
    if !timeline_allowed(scale, t) {
        return Reason::BadTime.refused(0);
    }
    if 0 < records.len() % 24 {
        return Reason::BytesMissing.refused(0);
    }
    let n = records.len() / 24;
    if 1024 < n {
        return Reason::PastLimit.refused(0);
    }
    judge_records(scale, t, records, pool, n)?;
    judge_ids(records, n)
}
