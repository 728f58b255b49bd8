// A finite f64 as its sign and a whole number of the smallest f64.
ghost use Rattle.std.specs.Prelude.{MatchOption, true, false};
ghost use Rattle.bits.specs.Parts.{PartsOf};

use super::fields::Parts;
use super::pattern::to_pattern;

// None for an infinity or NaN.
pub fn parts(x: f64) -> Option<Parts>
    ensures { MatchOption result (PartsOf x false false 0 0) (λ p. PartsOf x true p.negative p.digits p.exponent) }
{
    let pattern = to_pattern(x);
    let digits = pattern & 0xf_ffff_ffff_ffff;
    let negative = pattern >= 0x8000_0000_0000_0000;
    match (pattern >> 52) & 0x7ff {
        2047 => None,
        // a subnormal has no leading digit of its own, and the exponent of the lowest normals
        0 => Some(Parts {
            negative,
            digits,
            exponent: 0,
        }),
        field => Some(Parts {
            negative,
            digits: digits + 0x10_0000_0000_0000,
            exponent: field - 1,
        }),
    }
}
