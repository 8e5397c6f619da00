// Decimal numbers, written into a slice.
#![tactic(auto)]

ghost use Rattle.std.specs.Prelude.{◌≡◌, ◌+◌, ◌≤◌, length};
ghost use Rattle.base.specs.Over.{wrote};
ghost use Rattle.decimal.specs.Decimal.{decimal};

// The digits of n from `at` on; gives the place behind them.
pub fn put_decimal(out: &mut [u8], at: usize, n: u64) -> usize
    requires { at + length (decimal n) ≤ length out.old }
    ensures { (result ≡ at + length (decimal n)) × (out.new ≡ wrote out.old at (decimal n)) }
{
    if n < 10 {
        out[at] = (48 + n) as u8;
        return at + 1;
    }
    let last = put_decimal(&mut *out, at, n / 10);
    out[last] = (48 + n % 10) as u8;
    last + 1
}
