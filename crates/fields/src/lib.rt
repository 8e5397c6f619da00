// Big-endian numbers of 1, 2 and 4 bytes, read from a slice and stored into one.
#![tactic(auto)]

ghost use Rattle.std.specs.Prelude.{◌≡◌, ◌+◌, ◌≤◌, ◌<◌, length};
ghost use Rattle.base.specs.Over.{wrote};
ghost use Rattle.fields.specs.BigEndian.{be, bytes};

#[tactic(auto, unfolding(crate::specs::BigEndian::be))]
pub fn get8(s: &[u8], at: usize) -> u32
    requires { at < length s.now }
    ensures { (result ≡ be 1 s.now at) × (result < 256) }
{
    u32::from(s[at])
}

#[tactic(auto, unfolding(crate::specs::BigEndian::be))]
pub fn get16(s: &[u8], at: usize) -> u32
    requires { at + 2 ≤ length s.now }
    ensures { (result ≡ be 2 s.now at) × (result < 65536) }
{
    u32::from(u16::from_be_bytes([s[at], s[at + 1]]))
}

#[tactic(auto, unfolding(crate::specs::BigEndian::be))]
pub fn get32(s: &[u8], at: usize) -> u32
    requires { at + 4 ≤ length s.now }
    ensures { (result ≡ be 4 s.now at) × (result < 4294967296) }
{
    u32::from_be_bytes([s[at], s[at + 1], s[at + 2], s[at + 3]])
}

pub fn put8(d: &mut [u8], at: usize, v: u32)
    requires { at < length d.old }
    ensures { d.new ≡ wrote d.old at (bytes 1 v) }
{
    // The low byte, by the remainder that edit `store8_short` turns.
    d[at] = (v % 256) as u8;
}

pub fn put16(d: &mut [u8], at: usize, v: u32)
    requires { at + 2 ≤ length d.old }
    ensures { d.new ≡ wrote d.old at (bytes 2 v) }
{
    d[at..at + 2].copy_from_slice(&v.to_be_bytes()[2..]);
}

pub fn put32(d: &mut [u8], at: usize, v: u32)
    requires { at + 4 ≤ length d.old }
    ensures { d.new ≡ wrote d.old at (bytes 4 v) }
{
    d[at..at + 4].copy_from_slice(&v.to_be_bytes());
}
