// The text box in force for a `tx3g` sample: eight bytes where they stand, in the sample or else in the entry.
#![tactic(auto)]

ghost use Rattle.std.specs.Prelude.{◌≡◌};
ghost use Rattle.tx3g_box.specs.TextBox.{spot_of, bytes_at, stands_at};

use bodies::find_body;
use tx3g_contents::TBOX;
use tx3g_sample::{Fault, read_sample, text_end};

// Where the text box in force stands: at a place of the sample, or in the entry if there is none.
pub fn find_box(e: &[u8], s: &[u8]) -> Result<Option<usize>, Fault>
    ensures { result ≡ spot_of e.now s.now }
{
    read_sample(e, s)?;
    find_body(s, text_end(s), TBOX).map_err(Fault::Sample)
}

// The text box in force, by where it stands: eight bytes of the sample or of the entry; no bytes when refused.
pub fn text_box<'a>(e: &'a [u8], s: &'a [u8], p: Result<Option<usize>, Fault>) -> &'a [u8]
    requires { p ≡ spot_of e.now s.now }
    ensures { (result.now ≡ bytes_at e.now s.now p) × (result.ref_ptr ≡ stands_at e.entry.ref_ptr s.entry.ref_ptr p) }
{
    let Ok(place) = p else {
        return &s[..0];
    };
    match place {
        Some(at) => &s[at..at + 8],
        None => &e[26..34],
    }
}
