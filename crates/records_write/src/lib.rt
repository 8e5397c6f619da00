// Writing a cue as a record and its texts in the pool. The texts may lie in any lent bytes.
#![tactic(auto)]

ghost use Rattle.std.specs.Prelude.{◌≡◌, ◌++◌, ◌+◌, ◌*◌, ◌≤◌, ◌<◌, length};
ghost use Rattle.base.specs.Over.{wrote};
ghost use Rattle.fields.specs.BigEndian.{bytes};
ghost use Rattle.records_write.specs.Records.{record_bytes};

use fields::{put16, put32};
use wvtt_write::copy_run;

// The first half of a record.
fn put_front(d: &mut [u8], at: usize, id: u32, start: u32, end: u32, offset: u32)
    requires { at + 16 ≤ length d.old }
    ensures { d.new ≡ wrote d.old at (bytes 4 id ++ (bytes 4 start ++ (bytes 4 end ++ bytes 4 offset))) }
{
    put32(&mut *d, at, id);
    put32(&mut *d, at + 4, start);
    put32(&mut *d, at + 8, end);
    put32(&mut *d, at + 12, offset);
}

// The second half: three lengths and two zero bytes.
fn put_back(d: &mut [u8], at: usize, identifier: u32, settings: u32, payload: u32)
    requires { at + 8 ≤ length d.old }
    ensures { d.new ≡ wrote d.old at (bytes 2 identifier ++ (bytes 2 settings ++ (bytes 2 payload ++ bytes 2 0))) }
{
    put16(&mut *d, at, identifier);
    put16(&mut *d, at + 2, settings);
    put16(&mut *d, at + 4, payload);
    put16(&mut *d, at + 6, 0);
}

// A text, to `at` in the pool or in other lent bytes; gives the place behind it.
pub fn put_text(pool: &mut [u8], at: usize, text: &[u8]) -> usize
    requires { at + length text.now ≤ length pool.old }
    ensures { (result ≡ at + length text.now) × (pool.new ≡ wrote pool.old at text.now) }
{
    copy_run(&mut *pool, at, text, 0, text.len());
    at + text.len()
}

// The texts of a cue, one behind the other.
fn put_texts(
    pool: &mut [u8],
    at: usize,
    identifier: &[u8],
    settings: &[u8],
    payload: &[u8],
) -> usize
    requires { at + length identifier.now + length settings.now + length payload.now ≤ length pool.old }
    ensures { (result ≡ at + length identifier.now + length settings.now + length payload.now) × (pool.new ≡ wrote pool.old at (identifier.now ++ (settings.now ++ payload.now))) }
{
    let second = put_text(&mut *pool, at, identifier);
    let third = put_text(&mut *pool, second, settings);
    put_text(&mut *pool, third, payload)
}

// Record k, and its texts to `at` in the pool; gives the place behind them. Each length fits its field.
pub fn put_cue(
    records: &mut [u8],
    k: usize,
    id: u32,
    start: u32,
    end: u32,
    pool: &mut [u8],
    at: usize,
    identifier: &[u8],
    settings: &[u8],
    payload: &[u8],
) -> usize
    requires { (k * 24 + 24 ≤ length records.old) × (at + length identifier.now + length settings.now + length payload.now ≤ length pool.old) × (at < 4294967296) × (length identifier.now ≤ 65535) × (length settings.now ≤ 65535) × (length payload.now ≤ 65535) }
    ensures { (result ≡ at + length identifier.now + length settings.now + length payload.now) × (records.new ≡ wrote records.old (k * 24) (record_bytes id start end at (length identifier.now) (length settings.now) (length payload.now))) × (pool.new ≡ wrote pool.old at (identifier.now ++ (settings.now ++ payload.now))) }
{
    put_front(&mut *records, k * 24, id, start, end, at as u32);
    put_back(
        &mut *records,
        k * 24 + 16,
        identifier.len() as u32,
        settings.len() as u32,
        payload.len() as u32,
    );
    put_texts(&mut *pool, at, identifier, settings, payload)
}
