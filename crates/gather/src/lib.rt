// The cues of a track, joined over neighbouring samples.
#![tactic(auto)]

ghost use Rattle.std.specs.Prelude.{◌≡◌, ◌≤◌, length};
ghost use Rattle.boxes.specs.Boxes.{part};
ghost use Rattle.timeline.specs.Unpacking.{unpack};
ghost use Rattle.timeline.specs.Joining.{take_body, all_taken};
ghost use Rattle.wvtt_cues.specs.Cues.{sample_cues};
ghost use Rattle.track.specs.Track.{track_of, judge_track};
ghost use Rattle.verdict.specs.Verdict.{Fine};
ghost use Rattle.rows.specs.Table.{body_at, known, Placed, Good};
ghost use Rattle.gather.specs.Gathering.{taking_of, Settled, unpacked_of, Complete};

use rows::{Row, find_id, judge_again, new_row, put_row, row_at};
use table::{duration_at, size_at};
use verdict::{Refusal, fault_at};
use wvtt_cues::next_cue;

// A cue of the sample from y's start to y's end. Gives how many cues are known after it and the least row that may come next in the sample; or the number of a fault.
fn take_cue(
    samples: &[u8],
    tab: &mut [usize],
    n: usize,
    k: usize,
    named: bool,
    y: Row,
) -> Result<(usize, usize), u32>
    requires { (n ≤ 1024) × (length tab.old ≡ 9216) × Good (length samples.now) tab.old n × Placed (length samples.now) y }
    ensures { (taking_of samples.now tab.new result ≡ take_body y.start y.end (known samples.now tab.old n) k (body_at samples.now named y)) × Settled (length samples.now) tab.new result }
{
    if !named {
        return Err(17);
    }
    if let Some(j) = find_id(&*tab, n, k, y.id) {
        let x = row_at(&*tab, j);
        judge_again(samples, x, y, k, j)?;
        tab[j * 9 + 2] = y.end;
        return Ok((n, j + 1));
    }
    if n < 1024 {
        put_row(&mut *tab, n, y);
        return Ok((n + 1, n + 1));
    }
    Err(9)
}

// The cues of the sample from tick b to e, whose bytes go from `at` to `end`. Gives how many cues are known behind it, and the least row that may come next; or the number of what is wrong.
fn take_sample(
    samples: &[u8],
    tab: &mut [usize],
    n: usize,
    b: usize,
    e: usize,
    at: usize,
    end: usize,
) -> Result<(usize, usize), u32>
    requires { (n ≤ 1024) × (length tab.old ≡ 9216) × Good (length samples.now) tab.old n × (at ≤ end) × (end ≤ length samples.now) }
    ensures { (taking_of samples.now tab.new result ≡ all_taken b e (known samples.now tab.old n) 0 (sample_cues (part samples.now at end))) × Settled (length samples.now) tab.new result }
{
    let mut count = n;
    let mut k = 0;
    let mut from = 0;
    loop {
        let Ok(held) = next_cue(&samples[at..end], from) else {
            // a track without fault has no refusal here
            return Ok((count, k));
        };
        let Some((parts, next)) = held else {
            return Ok((count, k));
        };
        let y = new_row(parts, at, b, e);
        let (more, least) = take_cue(samples, &mut *tab, count, k, parts.named, y)?;
        count = more;
        k = least;
        from = next;
    }
}

// The cues of a track that has no fault. Gives how many there are and the sum of the durations; or the first fault of a sample.
pub fn gather(table: &[u8], samples: &[u8], tab: &mut [usize]) -> Result<(usize, usize), Refusal>
    requires { (judge_track table.now samples.now ≡ Fine) × (length tab.old ≡ 9216) }
    ensures { (unpacked_of samples.now tab.new result ≡ unpack (track_of table.now samples.now)) × Complete table.now samples.now tab.new result }
{
    let m = table.len() / 8;
    let mut n = 0;
    let mut b = 0;
    let mut at = 0;
    for i in 0..m {
        let e = b + duration_at(table, i) as usize;
        let end = at + size_at(table, i);
        n = match take_sample(samples, &mut *tab, n, b, e, at, end) {
            Ok((count, _)) => count,
            // Not by `map_err`: its closure loses the number and i to the proof.
            Err(number) => return Err(fault_at(number, i)),
        };
        b = e;
        at = end;
    }
    Ok((n, b))
}
