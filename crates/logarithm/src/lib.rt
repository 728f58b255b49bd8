// The natural logarithm of finite x > 0 (01, module 2; docs/STEPS.md). NaN is refusal 1, any other x 12.
//
// x is 2^k f with 3/4 <= f < 3/2, and its logarithm k S(1/3) + S((f - 1) / (f + 1)), where S(t) is
// 2 (t + t^3/3 + ..) and stands for log((1 + t) / (1 - t)): S(1/3) for log 2, and |t| is at most 1/5.
// The terms above 0 and those below it are summed apart, on whole numbers of 64 bits from the last
// term to the first, and then in 128 digits: a cut only ever loses, and at every degree n the number is
// the cut sum from n on, short of the exact one by at most 4 units. One rounding of the difference ends it.
#![tactic(auto)]

ghost use Rattle.std.specs.Prelude.{◌≡◌, ◌*◌, ◌^◌, ◌<◌};
ghost use Rattle.logarithm.specs.Logarithm.{logarithm_at, logarithm_of};
ghost use Rattle.logarithm.specs.Series.{LogarithmWithin};

mod factors;
mod series;

use answer::{Answer, Refusal};
use bits::{Parts, less, minus, parts, rounded};
use factors::factored;
use series::{part, sum};

// The rounding counts in 2^-2340, the sum in 2^-62.
const SUM_UNIT: u64 = 2340 - 62;

// 1 in the units of f, 2^-53.
const ONE: u64 = 0x20_0000_0000_0000;

// The logarithm of these parts without their sign.
fn natural(p: Parts) -> f64
    requires { 0 < p.digits }
    ensures { result ≡ logarithm_at (p.digits * 2 ^ p.exponent) }
{
    let f = factored(p);
    let a = sum(f.above, part(f.n, ONE));
    let b = sum(f.below, part(ONE, f.n));
    if less(a, b) {
        rounded(true, minus(b, a), false, SUM_UNIT)
    } else {
        rounded(false, minus(a, b), false, SUM_UNIT)
    }
}

// Within (|k| + 1) 2^-53 of that sum; +0 for 1.
pub fn logarithm(x: f64) -> Result<Answer, Refusal>
    ensures { (result ≡ logarithm_of x) × LogarithmWithin 46 x result × LogarithmWithin 53 x result }
{
    if x != x {
        return Err(Refusal::NotANumber);
    }
    match parts(x) {
        Some(p) if !(p.negative | (p.digits == 0)) => Ok(Answer::One(natural(p))),
        _ => Err(Refusal::OutOfRange),
    }
}
