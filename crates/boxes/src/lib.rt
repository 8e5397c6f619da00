// The boxes of a container: a step from one to the next, and a pass over all of them.
#![tactic(auto)]

ghost use Rattle.std.specs.Prelude.{◌≡◌, ◌≤◌, length, eqb};
ghost use Rattle.base.specs.Choice.{any_of};
ghost use Rattle.boxes.specs.Boxes.{step_at, stopped_by, boxes_in, passed};

use fields::get32;
use verdict::{Reason, Refusal, Verdict};

// Where bytes stand: from `from` to before `end`.
#[derive(Clone, Copy)]
pub struct Part {
    pub from: usize,
    pub end: usize,
}

// What stands at a place of a container. An enum that readers take apart with `let .. else`, as document 01 requires. A kind is whatever four bytes the file has, so it is a number.
#[derive(Clone, Copy)]
pub enum Step {
    // A whole box: its type, where its body begins, and the place after it.
    Box { kind: u32, body: usize, next: usize },
    Refused(Refusal),
    End,
}

// The step at `at` in a container that ends at `end`.
pub fn step_at(s: &[u8], at: usize, end: usize) -> Step
    requires { end ≤ length s.now }
    ensures { result ≡ step_at s.now at end }
{
    if end <= at {
        return Step::End;
    }
    if end - at < 8 {
        return Step::Refused(Reason::BytesMissing.fault_at(at));
    }
    let size = get32(s, at) as usize;
    if size < 8 {
        return Step::Refused(Reason::BadSize.fault_at(at));
    }
    if end - at < size {
        return Step::Refused(Reason::BytesMissing.fault_at(at));
    }
    let kind = get32(s, at + 4);
    Step::Box {
        kind,
        body: at + 8,
        next: at + size,
    }
}

// The verdict where a step gives no box: its refusal, or at the end none.
pub fn stopped_by(t: Step) -> Verdict
    ensures { result ≡ stopped_by t }
{
    match t {
        Step::Refused(why) => Err(why),
        Step::End => Ok(()),
        Step::Box {
            kind: _,
            body: _,
            next: _,
        } => Ok(()),
    }
}

// Whether a kind has been there, with the box at hand.
pub fn mark_kind(flag: bool, kind: u32, wanted: u32) -> bool
    ensures { result ≡ any_of (eqb kind wanted) flag }
{
    kind == wanted || flag
}

// Passes over the boxes from `from` to `end`, which are to be whole.
pub fn pass_boxes(s: &[u8], from: usize, end: usize) -> Verdict
    requires { end ≤ length s.now }
    ensures { result ≡ passed (boxes_in s.now from end) }
{
    let mut at = from;
    loop {
        let t = step_at(s, at, end);
        let Step::Box {
            kind: _,
            body: _,
            next,
        } = t
        else {
            return stopped_by(t);
        };
        at = next;
    }
}
