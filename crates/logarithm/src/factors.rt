// A number above 0 as a power of two and a factor from 3/4 to 3/2.
ghost use Rattle.std.specs.Prelude.{◌*◌, ◌^◌, ◌<◌};
ghost use Rattle.logarithm.specs.Logarithm.{Factored};

use bits::Parts;

// 2^(above - below) * n / 2^53
#[derive(Clone, Copy)]
pub(crate) struct Factors {
    pub(crate) n: u64,
    pub(crate) above: u64,
    pub(crate) below: u64,
}

// Of digits * 2^exponent smallest f64, 2^-1074 each. With 53 digits `lead` lies from 1 to 2 times
// 2^52: below 3/2 of that f is lead / 2^52, and else half as much.
pub(crate) fn factored(p: Parts) -> Factors
    requires { 0 < p.digits }
    ensures { Factored (p.digits * 2 ^ p.exponent) result.n result.above result.below }
{
    // 11 of 64 places stay free above 53 digits
    let zeros = u64::leading_zeros(p.digits) as u64 - 11;
    let lead = p.digits << zeros;
    let w = p.exponent + 53 - zeros;
    if lead < 0x18_0000_0000_0000 {
        return Factors {
            n: lead * 2,
            above: (w - 1).saturating_sub(1074),
            below: 1074u64.saturating_sub(w - 1),
        };
    }
    Factors {
        n: lead,
        above: w.saturating_sub(1074),
        below: 1074u64.saturating_sub(w),
    }
}
