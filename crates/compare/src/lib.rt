// Bytes and numbers that are compared.
#![tactic(auto)]

ghost use Rattle.std.specs.Prelude.{◌≡◌, min};
ghost use Rattle.base.specs.Choice.{same_list};

// Whether the bytes are the same. It does not end early, so that the compiler takes wide steps.
pub fn same_bytes(a: &[u8], b: &[u8]) -> bool
    ensures { result ≡ same_list a.now b.now }
{
    if a.len() != b.len() {
        return false;
    }
    let mut same = true;
    for (i, &x) in a.iter().enumerate() {
        same &= x == b[i];
    }
    same
}

// The smaller of two numbers.
pub fn least(a: usize, b: usize) -> usize
    ensures { result ≡ min a b }
{
    a.min(b)
}
