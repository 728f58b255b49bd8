// The fused multiply-add (01, module 1; IEEE 754-2019, 5.4.1): x·y + z exactly, rounded once.
//
// The digits of x, y and z are moved up to 63 places, so that the product has 125 or 126, and so has the addend
// with 64 zeros behind it. The one with the smaller exponent is shifted down to the other's place, which may lose
// some of it; what is lost lies far below the digits that a result keeps, so it is enough to know whether it was
// anything. Then one sum, or one difference less a place where something was lost, and one rounding. Exact numbers
// count in 2^-2340.
#![tactic(auto)]

ghost use Rattle.std.specs.Prelude.{◌≡◌, cond, ◌&&◌, ◌+◌, ◌*◌, ◌%◌, ◌^◌, ◌<◌, ◌≤◌, ltb};
ghost use Rattle.std.specs.Float.{binary64};
ghost use Rattle.std.specs.Float.Ieee.{sum, unlike};
ghost use Rattle.bits.specs.Rounded.{rounded_of};
ghost use Rattle.fused.specs.Fused.{fused_of};
ghost use Rattle.fused.specs.Steps.{Lifted, Shifted, without};

use bits::{Parts, less, minus, plus};

// A product of digits moved up 63 places each counts in 2^-(2·1074 + 2·63), an addend with 64 zeros behind it in 2^-(1074 + 63 + 64).
const PRODUCT_UNIT: u64 = 2340 - 2 * 1074 - 2 * 63;

const ADDEND_UNIT: u64 = 2340 - 1074 - 63 - 64;

// A float's digits moved up to 63 places; 0 stays 0.
#[derive(Clone, Copy)]
struct Lift {
    digits: u64,
    exponent: u64,
}

fn lifted(p: Parts) -> Lift
    ensures { Lifted p.digits p.exponent result.digits result.exponent }
{
    let shift = u64::leading_zeros(p.digits) as u64 - 1;
    Lift {
        digits: p.digits << shift,
        exponent: p.exponent + 63 - shift,
    }
}

// An exact number of 125 or 126 digits, the lowest 20 of them 0; one place of 128 is left for a carry. Zero has the
// exponent 0, so that it never makes the other term give way.
#[derive(Clone, Copy)]
struct Place {
    negative: bool,
    digits: u128,
    exponent: u64,
    ghost most: { digits < 2 ^ 127 },
    ghost zeros: { digits % 2 ^ 20 ≡ 0 },
    ghost leading: { 0 < exponent → 2 ^ 124 ≤ digits },
}

fn place_product(x: Parts, y: Parts) -> Place
    ensures { (result.negative ≡ unlike x.negative y.negative) × (result.digits * 2 ^ result.exponent ≡ x.digits * y.digits * 2 ^ (x.exponent + y.exponent + 192)) }
{
    let negative = x.negative != y.negative;
    let a = lifted(x);
    let b = lifted(y);
    let digits = bits::product(a.digits, b.digits);
    if digits == 0 {
        return Place {
            negative,
            digits: 0,
            exponent: 0,
        };
    }
    Place {
        negative,
        digits,
        exponent: a.exponent + b.exponent + PRODUCT_UNIT,
    }
}

fn place_addend(z: Parts) -> Place
    ensures { (result.negative ≡ z.negative) × (result.digits * 2 ^ result.exponent ≡ z.digits * 2 ^ (z.exponent + 1266)) }
{
    if z.digits == 0 {
        return Place {
            negative: z.negative,
            digits: 0,
            exponent: 0,
        };
    }
    let c = lifted(z);
    Place {
        negative: z.negative,
        digits: u128::from(c.digits) << 64,
        exponent: c.exponent + ADDEND_UNIT,
    }
}

// What a shift leaves, and whether any digit that it dropped was set.
#[derive(Clone, Copy)]
struct Left {
    digits: u128,
    more: bool,
}

fn shifted(digits: u128, n: u64) -> Left
    ensures { Shifted digits n result.digits result.more }
{
    if n < 128 {
        Left {
            digits: digits >> n,
            more: digits % (1 << n) > 0,
        }
    } else {
        Left {
            digits: 0,
            more: digits > 0,
        }
    }
}

// a - b, where b is cut to whole places of a's: one place less where something was lost. Zero is +0.
fn take(negative: bool, a: u128, b: Left, exponent: u64) -> f64
    requires { b.digits + cond b.more 1 0 ≤ a }
    ensures { result ≡ rounded_of (negative && ltb 0 (without a b.digits b.more)) (without a b.digits b.more) b.more exponent }
{
    let d = minus(a, plus(b.digits, u128::from(b.more)));
    bits::rounded(negative & (d > 0), d, b.more, exponent)
}

// a + b, where a has the larger exponent. What is lost of b lies far below a.
fn sum_at(a: Place, b: Place) -> f64
    requires { b.exponent ≤ a.exponent }
    ensures { result ≡ sum binary64 a.negative (a.digits * 2 ^ a.exponent) b.negative (b.digits * 2 ^ b.exponent) (2 ^ 2340) }
{
    let t = shifted(b.digits, a.exponent - b.exponent);
    if a.negative == b.negative {
        return bits::rounded(a.negative, plus(a.digits, t.digits), t.more, a.exponent);
    }
    if less(a.digits, t.digits) {
        let whole = Left {
            digits: a.digits,
            more: false,
        };
        return take(b.negative, t.digits, whole, a.exponent);
    }
    take(a.negative, a.digits, t, a.exponent)
}

fn sum_of(a: Place, b: Place) -> f64
    ensures { result ≡ sum binary64 a.negative (a.digits * 2 ^ a.exponent) b.negative (b.digits * 2 ^ b.exponent) (2 ^ 2340) }
{
    if b.exponent <= a.exponent {
        sum_at(a, b)
    } else {
        sum_at(b, a)
    }
}

// Where x or y is not finite the product is exact, and where only z is not, it is the result.
pub fn fused(x: f64, y: f64, z: f64) -> f64
    ensures { result ≡ fused_of x y z }
{
    match (bits::parts(x), bits::parts(y), bits::parts(z)) {
        (Some(a), Some(b), Some(c)) => sum_of(place_product(a, b), place_addend(c)),
        (Some(_), Some(_), None) => z,
        _ => x * y + z,
    }
}
