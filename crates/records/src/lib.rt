// Cue records: 24 bytes each, no header, with their texts in a pool.
#![tactic(auto)]

ghost use Rattle.std.specs.Prelude.{◌≡◌, ◌+◌, ◌*◌, ◌≤◌, ◌<◌, length};
ghost use Rattle.records.specs.Records.{source_id, start_ms, end_ms, text_offset, identifier_length, settings_length, payload_length, reserved};
ghost use Rattle.records.specs.Records.{settings_offset, payload_offset, texts_end};

use fields::{get16, get32};

// The fields of record i.
pub fn source_id(records: &[u8], i: usize) -> u32
    requires { i * 24 + 24 ≤ length records.now }
    ensures { (result ≡ source_id records.now i) × (result < 4294967296) }
{
    get32(records, i * 24)
}

pub fn start_ms(records: &[u8], i: usize) -> u32
    requires { i * 24 + 24 ≤ length records.now }
    ensures { (result ≡ start_ms records.now i) × (result < 4294967296) }
{
    get32(records, i * 24 + 4)
}

pub fn end_ms(records: &[u8], i: usize) -> u32
    requires { i * 24 + 24 ≤ length records.now }
    ensures { (result ≡ end_ms records.now i) × (result < 4294967296) }
{
    get32(records, i * 24 + 8)
}

pub fn text_offset(records: &[u8], i: usize) -> u32
    requires { i * 24 + 24 ≤ length records.now }
    ensures { (result ≡ text_offset records.now i) × (result < 4294967296) }
{
    get32(records, i * 24 + 12)
}

pub fn identifier_length(records: &[u8], i: usize) -> u32
    requires { i * 24 + 24 ≤ length records.now }
    ensures { (result ≡ identifier_length records.now i) × (result < 65536) }
{
    get16(records, i * 24 + 16)
}

pub fn settings_length(records: &[u8], i: usize) -> u32
    requires { i * 24 + 24 ≤ length records.now }
    ensures { (result ≡ settings_length records.now i) × (result < 65536) }
{
    get16(records, i * 24 + 18)
}

pub fn payload_length(records: &[u8], i: usize) -> u32
    requires { i * 24 + 24 ≤ length records.now }
    ensures { (result ≡ payload_length records.now i) × (result < 65536) }
{
    get16(records, i * 24 + 20)
}

pub fn reserved_bytes(records: &[u8], i: usize) -> u32
    requires { i * 24 + 24 ≤ length records.now }
    ensures { (result ≡ reserved records.now i) × (result < 65536) }
{
    get16(records, i * 24 + 22)
}

// The offsets of the settings and of the payload, and the end of the three texts.
pub fn settings_offset(records: &[u8], i: usize) -> usize
    requires { i * 24 + 24 ≤ length records.now }
    ensures { (result ≡ settings_offset records.now i) × (result < 4295032832) }
{
    text_offset(records, i) as usize + identifier_length(records, i) as usize
}

pub fn payload_offset(records: &[u8], i: usize) -> usize
    requires { i * 24 + 24 ≤ length records.now }
    ensures { (result ≡ payload_offset records.now i) × (result < 4295098368) }
{
    settings_offset(records, i) + settings_length(records, i) as usize
}

pub fn texts_end(records: &[u8], i: usize) -> usize
    requires { i * 24 + 24 ≤ length records.now }
    ensures { (result ≡ texts_end records.now i) × (result < 4295163904) }
{
    payload_offset(records, i) + payload_length(records, i) as usize
}
