// The judgement of a track of WebVTT samples.
#![tactic(auto)]

ghost use Rattle.std.specs.Prelude.{◌≡◌};
ghost use Rattle.track.specs.Track.{judge_track};

use table::judge_by;
use verdict::Verdict;
use wvtt::judge_sample;

// The verdict on a track.
pub fn judge_track(table: &[u8], samples: &[u8]) -> Verdict
    ensures { result ≡ judge_track table.now samples.now }
{
    judge_by(&|s: &[u8]| judge_sample(s), table, samples)
}
