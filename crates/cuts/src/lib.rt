// The cuts of packing, one after the other, and the samples between them: found by a window over records whose starts never fall.
#![tactic(auto)]

ghost use Rattle.std.specs.Prelude.{◌≡◌, suc, min, ◌+◌, ◌*◌, ◌≤◌, ◌<◌, length, ltb};
ghost use Rattle.base.specs.Choice.{pick};
ghost use Rattle.timeline.specs.Nearest.{nearest};
ghost use Rattle.cuts.specs.Cuts.{start_tick, end_tick, ticks_to, cuts_of, record_size, cues_size, or_empty, bytes_to, Lasting, Timed};
ghost use Rattle.cuts.specs.Window.{Ended, Started, Window, From};

use records::{end_ms, identifier_length, payload_length, settings_length, start_ms};
use times::tick_of;
use wvtt_write::cue_size;

// The next cut so far, and the bytes of the cues so far.
#[derive(Clone, Copy)]
pub struct Scan {
    pub next: u64,
    pub cues: usize,
}

// A stretch from some begin: the window of records that can run there, the next cut, and the bytes of its cues.
#[derive(Clone, Copy)]
pub struct Stretch {
    pub first: usize,
    pub last: usize,
    pub next: u64,
    pub cues: usize,
}

// How many samples there are, and their bytes.
#[derive(Clone, Copy)]
pub struct Extent {
    pub count: usize,
    pub bytes: usize,
}

fn start_tick(scale: u32, records: &[u8], i: usize) -> u64
    requires { i * 24 + 24 ≤ length records.now }
    ensures { result ≡ start_tick scale records.now i }
{
    tick_of(scale, start_ms(records, i))
}

pub fn end_tick(scale: u32, records: &[u8], i: usize) -> u64
    requires { i * 24 + 24 ≤ length records.now }
    ensures { result ≡ end_tick scale records.now i }
{
    tick_of(scale, end_ms(records, i))
}

fn record_size(records: &[u8], i: usize) -> usize
    requires { i * 24 + 24 ≤ length records.now }
    ensures { (result ≡ record_size records.now i) × (result < 262144) }
{
    cue_size(
        identifier_length(records, i) as usize,
        settings_length(records, i) as usize,
        payload_length(records, i) as usize,
    )
}

// From `first` on, past the records that have ended by b.
fn skip_ended(scale: u32, records: &[u8], n: usize, first: usize, b: u64) -> usize
    requires inside { (n * 24 ≤ length records.now) × (first ≤ n) }
    requires ended { Ended scale records.now first b }
    ensures { (result ≤ n) × Ended scale records.now result b }
{
    for i in first..n {
        if b < end_tick(scale, records, i) {
            return i;
        }
    }
    n
}

// From `last` on, to the first record that starts after b. Like `skip_ended` but for the tick; a function over both would have to promise both, of which each speaks of other records.
fn pass_started(scale: u32, records: &[u8], n: usize, last: usize, b: u64) -> usize
    requires inside { (n * 24 ≤ length records.now) × (last ≤ n) }
    requires started { Started scale records.now last b }
    ensures stops { (last ≤ result) × (result ≤ n) × (result < n → b < start_tick scale records.now result) }
    ensures all_started { Started scale records.now result b }
{
    for i in last..n {
        if b < start_tick(scale, records, i) {
            return i;
        }
    }
    n
}

// The start of the first record that starts later, or else the end of the timeline.
fn next_start(scale: u32, end: u64, records: &[u8], n: usize, last: usize) -> u64
    requires { n * 24 ≤ length records.now }
    ensures { result ≡ pick (ltb last n) (start_tick scale records.now last) end }
{
    if last < n {
        start_tick(scale, records, last)
    } else {
        end
    }
}

// What a record adds that has started by b: unless it has ended, it is shown and its end is a cut.
fn see_record(scale: u32, records: &[u8], k: usize, b: u64, s: Scan) -> Scan
    requires { (k * 24 + 24 ≤ length records.now) × (s.cues ≤ 268435456) }
    ensures next_value { result.next ≡ pick (ltb b (end_tick scale records.now k)) (min (end_tick scale records.now k) s.next) s.next }
    ensures cues_value { (result.cues ≡ s.cues + pick (ltb b (end_tick scale records.now k)) (record_size records.now k) 0) × (result.cues ≤ s.cues + 262144) }
{
    let end = end_tick(scale, records, k);
    if end <= b {
        return s;
    }
    let cues = s.cues + record_size(records, k);
    Scan {
        next: end.min(s.next),
        cues,
    }
}

// The least end above b in the window, or else `top`; and the bytes of the cues that run at b.
fn scan_window(
    scale: u32,
    records: &[u8],
    n: usize,
    first: usize,
    last: usize,
    b: u64,
    top: u64,
) -> Scan
    requires inside { (n * 24 ≤ length records.now) × (n ≤ 1024) }
    requires lasting { Lasting scale records.now n × Window scale records.now n first last b }
    ensures { (result.next ≡ nearest top b (ticks_to scale records.now last)) × (result.cues ≡ cues_size scale records.now b n) × (result.cues ≤ 268435456) }
{
    let mut s = Scan { next: top, cues: 0 };
    for k in first..last {
        s = see_record(scale, records, k, b, s);
    }
    s
}

// The stretch from b, where the window before it was `first` to `last`.
pub fn stretch_from(
    scale: u32,
    end: u64,
    records: &[u8],
    n: usize,
    first: usize,
    last: usize,
    b: u64,
) -> Stretch
    requires timed { Timed scale end records.now n × (first ≤ n) × (last ≤ n) }
    requires ended { Ended scale records.now first b × Started scale records.now last b }
    ensures { From scale end records.now n b result }
{
    let f = skip_ended(scale, records, n, first, b);
    let l = pass_started(scale, records, n, last, b);
    let top = next_start(scale, end, records, n, l);
    let s = scan_window(scale, records, n, f, l, b, top);
    Stretch {
        first: f,
        last: l,
        next: s.next,
        cues: s.cues,
    }
}

// The bytes of a sample: those of its cues, or else of the empty one.
pub fn sample_size(cues: usize) -> usize
    requires { cues ≤ 268435456 }
    ensures { (result ≡ or_empty cues) × (result ≤ 268435456) }
{
    if cues == 0 { 8 } else { cues }
}

// The samples of the records and their bytes, counted and not written.
pub fn measure(scale: u32, end: u64, records: &[u8], n: usize) -> Extent
    requires { Timed scale end records.now n }
    ensures { (suc result.count ≡ length (cuts_of scale end records.now n)) × (result.bytes ≡ bytes_to scale end records.now n result.count) × (result.count ≤ 2049) }
{
    let mut first = 0;
    let mut last = 0;
    let mut b = 0;
    let mut count = 0;
    let mut bytes = 0;
    while b < end {
        let s = stretch_from(scale, end, records, n, first, last, b);
        first = s.first;
        last = s.last;
        b = s.next;
        bytes += sample_size(s.cues);
        count += 1;
    }
    Extent { count, bytes }
}
