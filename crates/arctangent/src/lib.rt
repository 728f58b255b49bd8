// The arc tangent of every x but NaN, which is refusal 1 (02, [6]; docs/STEPS.md).
//
// A(t) = t - t^3/3 + .. + t^41/41 stands for arctan t, and |t| is at most 1/4 throughout. Below 1/4
// it is A(x), as x times A(x) / x. From there on it is arctan c + A((x - c) / (1 + c x)) with c = 1/2,
// 1 or 2, and from 4 on pi/2 - A(1/x). What a sum adds and what it takes away are kept apart, on whole
// numbers of 64 bits from the last term to the first, so that a cut only ever loses: at every degree n
// the number is the cut sum from n on, short of the exact one by at most 4 units, and the two sides of
// the whole sum by at most 9. One rounding of their difference ends it.
#![tactic(auto)]

ghost use Rattle.std.specs.Prelude.{◌≡◌, ◌-◌, ◌*◌, ◌^◌, ◌≤◌};
ghost use Rattle.std.specs.Float.{binary64};
ghost use Rattle.std.specs.Float.Ieee.{round};
ghost use Rattle.arctangent.specs.Arctangent.{arctangent_at, arctangent_of};
ghost use Rattle.arctangent.specs.Series.{ArctangentWithin};

mod argument;
mod quotient;
mod sums;

use answer::{Answer, Refusal};
use argument::{RIGHT_ADDED, RIGHT_TAKEN, sides_of};
use bits::{Parts, parts, product, rounded};
use sums::{Sides, factor};

// The rounding counts in 2^-2340, a sum in 2^-63; x is a whole number of smallest f64, 2^-1074.
const SUM_UNIT: u64 = 2340 - 63;

const PRODUCT_UNIT: u64 = SUM_UNIT - 1074;

fn difference(negative: bool, z: Sides) -> f64
    requires { z.taken ≤ z.added }
    ensures { result ≡ round binary64 negative (z.added - z.taken) (2 ^ 63) }
{
    rounded(negative, u128::from(z.added - z.taken), false, SUM_UNIT)
}

// Below 1/4 the sum is A(x) / x: times all digits of x, so that small x lose none.
fn of_parts(p: Parts) -> f64
    ensures { result ≡ arctangent_at p.negative (p.digits * 2 ^ p.exponent) (2 ^ 1074) }
{
    if p.exponent >= 1020 {
        return difference(p.negative, sides_of(p));
    }
    let f = factor(p.fixed(64));
    let v = product(p.digits, f.added - f.taken);
    rounded(p.negative, v, false, p.exponent + PRODUCT_UNIT)
}

// Within |x| 2^-52 of A(x) below 1/4, and within 2^-52 of the sum from there on; odd.
pub fn arctangent(x: f64) -> Result<Answer, Refusal>
    ensures { (result ≡ arctangent_of x) × ArctangentWithin 52 x result }
{
    if x != x {
        return Err(Refusal::NotANumber);
    }
    Ok(Answer::One(match parts(x) {
        Some(p) => of_parts(p),
        None => {
            let right = Sides {
                added: RIGHT_ADDED,
                taken: RIGHT_TAKEN,
            };
            difference(x < 0.0, right)
        }
    }))
}
