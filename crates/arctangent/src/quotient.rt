// A fraction for the sums, and 0 where there is none.
ghost use Rattle.std.specs.Prelude.{◌≡◌};
ghost use Rattle.arctangent.specs.Quotient.{quotient_of};

// a * 2^64 / b, for a < b < 2^56.
pub(crate) fn quotient(a: u64, b: u64) -> u64
    ensures { result ≡ quotient_of a b }
{
    if (a < b) & (b < 0x100_0000_0000_0000) {
        return bits::quotient(a, b);
    }
    0
}
