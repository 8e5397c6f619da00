// A refusal and a verdict: how every judgement of the library answers. Refusals are built here and nowhere else.
#![tactic(auto)]

ghost use Rattle.std.specs.Prelude.{◌≡◌};
ghost use Rattle.verdict.specs.Reason.{number_of};
ghost use Rattle.verdict.specs.Judgement.{fault, bad_text, moved, refuse, text_at};

use viable::Judged;

// The number is what C is given and theorems speak of (`refuse`, `InTable` of demands); code says a `Reason`.
// Why and where: a number of document 01's table, a place, and document 02's second place: the offset of the first bad byte in a bad text (6), 0 beside every other number.
#[repr(C)]
#[derive(Clone, Copy)]
pub struct Refusal {
    pub number: u32,
    pub place: usize,
    pub offset: usize,
}

// Why something is refused, by the numbers of document 01's table and of document 02: in this order from 1 on.
#[derive(Clone, Copy)]
pub enum Reason {
    // 1: bytes are missing: of a header, a body or a record, of texts past the pool, of a sample past the bytes.
    BytesMissing,
    // 2: a box size below 8, a body longer than its kind, bytes left over, another entry type.
    BadSize,
    // 3: a kind twice.
    KindTwice,
    // 4: `payl`, `vttC`, `ftab` or every cue is missing; a sample of size 0.
    BoxMissing,
    // 5: `vtte` beside `vttc`, or a second `vtte`.
    NotAlone,
    // 6: bad text.
    BadText,
    // 7: a bad range or order of styles; a character past the text.
    BadRange,
    // 8: a value that is not allowed.
    BadValue,
    // 9: a limit is passed.
    PastLimit,
    // 10: a scale, timeline or time that is not allowed; a duration of 0.
    BadTime,
    // 11: starts fall; cues of a sample are not in the order in which they appeared.
    BadOrder,
    // 12: an ID twice.
    IdTwice,
    // 13: an ID comes back after a gap.
    IdAfterGap,
    // 14: one ID, other texts.
    OtherTexts,
    // 15: an output too short for the whole result.
    NoRoom,
    // 16: the track differs.
    Differs,
    // 17: a cue without ID.
    NoId,
    // 18: a STYLE or REGION block.
    StyleBlock,
    // 19: a line or block that may not stand there.
    Malformed,
    // 20: a setting that is unknown, malformed or twice.
    BadSetting,
    // 21: a payload outside the tag profile.
    OutsideProfile,
}

// What a judgement says: nothing is wrong, or the first fault in document 01's order.
pub type Verdict = Result<(), Refusal>;

pub fn fault_at(number: u32, place: usize) -> Refusal
    ensures { result ≡ fault number place }
{
    Refusal {
        number,
        place,
        offset: 0,
    }
}

// Bad text, and its first bad byte.
pub fn bad_text_at(place: usize, offset: usize) -> Refusal
    ensures { result ≡ bad_text place offset }
{
    Refusal {
        number: 6,
        place,
        offset,
    }
}

// The same refusal at another place.
pub fn move_to(place: usize, why: Refusal) -> Refusal
    ensures { result ≡ moved place why }
{
    Refusal {
        number: why.number,
        place,
        offset: why.offset,
    }
}

pub fn refused(number: u32, place: usize) -> Verdict
    ensures { result ≡ refuse number place }
{
    Err(fault_at(number, place))
}

// The verdict on a text, at a place of its own.
pub fn text_at(place: usize, j: Judged) -> Verdict
    ensures { result ≡ text_at place j }
{
    match j {
        Ok(()) => Ok(()),
        Err(offset) => Err(bad_text_at(place, offset)),
    }
}

// Number 0, where nothing is refused.
impl Default for Refusal {
    ghost is_default = { λ why. why ≡ fault 0 0 };

    fn default() -> Self {
        fault_at(0, 0)
    }
}

impl From<Reason> for u32 {
    ghost from_gives = { λ why n. n ≡ number_of why };

    fn from(why: Reason) -> u32 {
        match why {
            Reason::BytesMissing => 1,
            Reason::BadSize => 2,
            Reason::KindTwice => 3,
            Reason::BoxMissing => 4,
            Reason::NotAlone => 5,
            Reason::BadText => 6,
            Reason::BadRange => 7,
            Reason::BadValue => 8,
            Reason::PastLimit => 9,
            Reason::BadTime => 10,
            Reason::BadOrder => 11,
            Reason::IdTwice => 12,
            Reason::IdAfterGap => 13,
            Reason::OtherTexts => 14,
            Reason::NoRoom => 15,
            Reason::Differs => 16,
            Reason::NoId => 17,
            Reason::StyleBlock => 18,
            Reason::Malformed => 19,
            Reason::BadSetting => 20,
            Reason::OutsideProfile => 21,
        }
    }
}

impl Reason {
    pub fn fault_at(self, place: usize) -> Refusal
        ensures { result ≡ fault (number_of self) place }
    {
        fault_at(self.into(), place)
    }

    pub fn refused(self, place: usize) -> Verdict
        ensures { result ≡ refuse (number_of self) place }
    {
        Err(self.fault_at(place))
    }
}
