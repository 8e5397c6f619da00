// Which modifier boxes have been there, of those that a sample holds at most once each.
#![tactic(auto)]

ghost use Rattle.std.specs.Prelude.{◌≡◌, List, ◌∷◌, ℕ, eqb};
ghost use Rattle.base.specs.Choice.{both, any_of};
ghost use Rattle.boxes.specs.Boxes.{among};
ghost use Rattle.tx3g_contents.specs.Kinds.{single};
ghost use Rattle.tx3g_seen.specs.Seen.{Marks};

use tx3g_contents::{DLAY, HCLR, KROK, STYL, TBOX, TWRP};

#[derive(Clone, Copy)]
pub struct Seen {
    pub styl: bool,
    pub hclr: bool,
    pub krok: bool,
    pub dlay: bool,
    pub tbox: bool,
    pub twrp: bool,
}

// A box of this kind has been there, and may be there once only.
pub fn repeats(seen: Seen, kind: u32) -> bool
    ensures { (before : List ℕ) → Marks seen before → result ≡ both (single kind) (among kind before) }
{
    match kind {
        STYL => seen.styl,
        HCLR => seen.hclr,
        KROK => seen.krok,
        DLAY => seen.dlay,
        TBOX => seen.tbox,
        TWRP => seen.twrp,
        _ => false,
    }
}

fn mark(flag: bool, kind: u32, wanted: u32) -> bool
    ensures { result ≡ any_of (eqb kind wanted) flag }
{
    kind == wanted || flag
}

// The marks with one more box.
pub fn with_kind(seen: Seen, kind: u32) -> Seen
    ensures { (before : List ℕ) → Marks seen before → Marks result (kind ∷ before) }
{
    Seen {
        styl: mark(seen.styl, kind, STYL),
        hclr: mark(seen.hclr, kind, HCLR),
        krok: mark(seen.krok, kind, KROK),
        dlay: mark(seen.dlay, kind, DLAY),
        tbox: mark(seen.tbox, kind, TBOX),
        twrp: mark(seen.twrp, kind, TWRP),
    }
}
