// What sample entries of all types have in common: a size, a type, and fixed fields.
#![tactic(auto)]

ghost use Rattle.std.specs.Prelude.{◌≡◌, ◌≤◌};
ghost use Rattle.entry_head.specs.Head.{judge_head};

use fields::get32;
use verdict::{Reason, Verdict};

// The size and the type of an entry of this kind, which has `fixed` bytes before its boxes.
#[tactic(auto, unfolding(crate::specs::Head::judge_head))]
pub fn judge_head(e: &[u8], fixed: usize, kind: u32) -> Verdict
    requires { 8 ≤ fixed }
    ensures { result ≡ judge_head e.now fixed kind }
{
    if e.len() < fixed {
        return Reason::BytesMissing.refused(0);
    }
    let size = get32(e, 0) as usize;
    if e.len() < size {
        return Reason::BytesMissing.refused(0);
    }
    if size < fixed || size < e.len() {
        return Reason::BadSize.refused(0);
    }
    if get32(e, 4) == kind {
        Ok(())
    } else {
        Reason::BadSize.refused(0)
    }
}
