// Sine and cosine of |x| up to 4 (01, module 2; docs/STEPS.md). NaN is refusal 1, any other x 12.
//
// Both are one alternating sum in t = x^2, 1 - t/d (1 - t/d' (..)), worked out on whole numbers of 64
// bits from the last term to the first. What the sum adds and what it takes away are kept apart: each
// is then a sum of cut quotients, so that a cut only ever loses. At every degree n the two numbers are
// the cut sums from n on, short of the exact ones by a few units (the divisors still to come divide
// what was lost). Their difference is cosine, and times x sine; one rounding to nearest ends each.
#![tactic(auto)]

ghost use Rattle.std.specs.Prelude.{◌≡◌, ◌*◌, ◌^◌, ◌≤◌, min, ltb};
ghost use Rattle.std.specs.Float.{binary64};
ghost use Rattle.std.specs.Float.Ieee.{unlike, round};
ghost use Rattle.bounds.specs.Close.{distance_of};
ghost use Rattle.angle.specs.Series.{SineWithin, CosineWithin, UpToOne};
ghost use Rattle.angle.specs.Sine.{sine_of};
ghost use Rattle.angle.specs.Cosine.{cosine_by, cosine_of};

mod argument;
mod series;

use answer::{Answer, Refusal};
pub use argument::{Angle, view};
use bits::{product, rounded};
use series::{Balance, even, odd};

// The rounding counts in 2^-2340, the sum in 2^-60; x is a whole number of smallest f64, 2^-1074.
const SUM_UNIT: u64 = 2340 - 60;

// 16 in units of 2^-59.
const SIXTEEN: u64 = 0x8000_0000_0000_0000;

const PRODUCT_UNIT: u64 = SUM_UNIT - 1074;

// The sum is sin x / x: times all digits of x, so that small x lose none.
fn sine_from(a: Angle, b: Balance) -> f64
    requires { a.exponent ≤ 1024 }
    ensures { result ≡ round binary64 (unlike a.negative (ltb b.added b.taken)) (a.digits * 2 ^ a.exponent * distance_of b.added b.taken) (2 ^ 1074 * 2 ^ 60) }
{
    let v = product(a.digits, b.added.abs_diff(b.taken));
    let negative = a.negative != (b.added < b.taken);
    rounded(negative, v, false, a.exponent + PRODUCT_UNIT)
}

// The sum is cos x.
fn cosine_from(b: Balance) -> f64
    ensures { result ≡ round binary64 (ltb b.added b.taken) (distance_of b.added b.taken) (2 ^ 60) }
{
    let gap = b.added.abs_diff(b.taken);
    rounded(b.added < b.taken, u128::from(gap), false, SUM_UNIT)
}

// Cosine by the square of its angle, or by 4^2 where it is more, which no angle's is.
pub fn cosine_by(square: u64) -> f64
    ensures { result ≡ cosine_by (min square (2 ^ 63)) }
{
    cosine_from(even(square.min(SIXTEEN)))
}

// Within |x| 2^-52 of x - x^3/3! + .. + x^41/41!, never above 1, odd, and x itself for |x| < 2^-30.
#[inline]
pub fn sine(x: f64) -> Result<Answer, Refusal>
    ensures { (result ≡ sine_of x) × SineWithin 48 x result × SineWithin 52 x result × UpToOne result }
{
    let a = view(x)?;
    Ok(Answer::One(sine_from(a, odd(a.square))))
}

// The two answers of one angle.
#[derive(Clone, Copy)]
pub struct Circle {
    pub sine: Result<Answer, Refusal>,
    pub cosine: Result<Answer, Refusal>,
}

// Sine as above; cosine within 2^-52 of 1 - x^2/2! + .. - x^42/42!, never above 1, and even. x is seen once, and neither sum waits for the other.
pub fn sine_cosine(x: f64) -> Circle
    ensures sine_value { (result.sine ≡ sine_of x) × SineWithin 48 x result.sine × SineWithin 52 x result.sine × UpToOne result.sine }
    ensures cosine_value { (result.cosine ≡ cosine_of x) × CosineWithin 46 x result.cosine × CosineWithin 52 x result.cosine × UpToOne result.cosine }
{
    match view(x) {
        Ok(a) => {
            let c = cosine_by(a.square);
            Circle {
                sine: Ok(Answer::One(sine_from(a, odd(a.square)))),
                cosine: Ok(Answer::One(c)),
            }
        }
        Err(r) => Circle {
            sine: Err(r),
            cosine: Err(r),
        },
    }
}
