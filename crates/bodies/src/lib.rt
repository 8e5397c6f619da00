// Where the body of a box stands: the first box of a kind, in the boxes from a place to the end.
#![tactic(auto)]

ghost use Rattle.std.specs.Prelude.{◌≡◌, length};
ghost use Rattle.boxes.specs.Boxes.{boxes_in};
ghost use Rattle.bodies.specs.Bodies.{body_of, filled};

use boxes::{Step, step_at, stopped_by};
use verdict::{Reason, Refusal, Verdict};

// The body of the first box of a kind, among the boxes from `from` to the end.
pub fn find_body(s: &[u8], from: usize, wanted: u32) -> Result<Option<usize>, Refusal>
    ensures { result ≡ body_of wanted (boxes_in s.now from (length s.now)) }
{
    let end = s.len();
    let mut at = from;
    loop {
        let t = step_at(s, at, end);
        let Step::Box { kind, body, next } = t else {
            stopped_by(t)?;
            return Ok(None);
        };
        if kind == wanted {
            return Ok(Some(body));
        }
        at = next;
    }
}

// Whether a content that ends at `end` fills the body of the box at `place`, which ends at `next`.
#[tactic(auto, unfolding(crate::specs::Bodies::filled))]
pub fn judge_end(place: usize, end: usize, next: usize) -> Verdict
    ensures { result ≡ filled place end next }
{
    if next < end {
        return Reason::BytesMissing.refused(place);
    }
    if end < next {
        return Reason::BadSize.refused(place);
    }
    Ok(())
}
