// The program's input line: scale and T in decimal, a space between, LF after, and nothing else. It is read in chunks.
#![tactic(auto)]

ghost use Rattle.std.specs.Prelude.{◌≡◌, true};
ghost use Rattle.input.specs.Line.{is_digit};
ghost use Rattle.input.specs.Reading.{grown, stepped, fed, line_at};
ghost use Rattle.input.specs.Reads.{is_wrong, chunk_of};

// How far the line is read, with the numbers so far. A number above 4294967295 counts as that.
#[derive(Clone, Copy)]
pub enum Reading {
    Start,
    Scale(u32),
    Space(u32),
    Time { scale: u32, t: u32 },
    Whole { scale: u32, t: u32 },
    Wrong,
}

// What a read leaves: how far the line is read, and whether there is no more to read.
#[derive(Clone, Copy)]
pub struct Chunk {
    pub state: Reading,
    pub last: bool,
}

fn is_digit(b: u8) -> bool
    ensures { result ≡ is_digit b }
{
    (b'0'..=b'9').contains(&b)
}

// v with a digit behind it.
fn grow(v: u32, b: u8) -> u32
    requires { is_digit b ≡ true }
    ensures { result ≡ grown v b }
{
    let n = u64::from(v) * 10 + u64::from(b - b'0');
    n.min(4294967295) as u32
}

fn begin_scale(b: u8) -> Reading
    ensures { result ≡ stepped Reading.Start b }
{
    if is_digit(b) {
        Reading::Scale(grow(0, b))
    } else {
        Reading::Wrong
    }
}

fn go_on_scale(v: u32, b: u8) -> Reading
    ensures { result ≡ stepped (Reading.Scale v) b }
{
    if is_digit(b) {
        Reading::Scale(grow(v, b))
    } else if b == b' ' {
        Reading::Space(v)
    } else {
        Reading::Wrong
    }
}

fn begin_time(scale: u32, b: u8) -> Reading
    ensures { result ≡ stepped (Reading.Space scale) b }
{
    if is_digit(b) {
        let t = grow(0, b);
        Reading::Time { scale, t }
    } else {
        Reading::Wrong
    }
}

fn go_on_time(scale: u32, t: u32, b: u8) -> Reading
    ensures { result ≡ stepped (Reading.Time scale t) b }
{
    if is_digit(b) {
        let t = grow(t, b);
        Reading::Time { scale, t }
    } else if b == b'\n' {
        Reading::Whole { scale, t }
    } else {
        Reading::Wrong
    }
}

// One byte more.
fn take_byte(state: Reading, b: u8) -> Reading
    ensures { result ≡ stepped state b }
{
    match state {
        Reading::Start => begin_scale(b),
        Reading::Scale(v) => go_on_scale(v, b),
        Reading::Space(scale) => begin_time(scale, b),
        Reading::Time { scale, t } => go_on_time(scale, t, b),
        Reading::Whole { .. } | Reading::Wrong => Reading::Wrong,
    }
}

// A chunk more.
pub fn feed(state: Reading, bytes: &[u8]) -> Reading
    ensures { result ≡ fed state bytes.now }
{
    let mut reached = state;
    for &b in bytes {
        reached = take_byte(reached, b);
    }
    reached
}

// What the bytes are, when there are no more.
pub fn finish(state: Reading) -> Option<(u32, u32)>
    ensures { result ≡ line_at state }
{
    let Reading::Whole { scale, t } = state else {
        return None;
    };
    Some((scale, t))
}

fn is_wrong(state: Reading) -> bool
    ensures { result ≡ is_wrong state }
{
    matches!(state, Reading::Wrong)
}

// A read more, which answered `got` and left its bytes at the front of the buffer. One that failed makes the line a bad one.
pub fn take_read(state: Reading, got: isize, buffer: &[u8]) -> Chunk
    ensures { result ≡ chunk_of state got buffer.now }
{
    if got < 0 {
        return Chunk {
            state: Reading::Wrong,
            last: true,
        };
    }
    let n = (got as usize).min(buffer.len());
    let next = feed(state, &buffer[..n]);
    let last = n == 0 || is_wrong(next);
    Chunk { state: next, last }
}
