// The remainder, digit by digit: shifts and subtractions, and no branch on a digit.
#![tactic(auto)]

ghost use Rattle.std.specs.Prelude.{◌≡◌, ◌*◌, ◌%◌, ◌^◌, ◌<◌, ◌≤◌};
ghost use Rattle.std.specs.Float.{binary64};
ghost use Rattle.std.specs.Float.Ieee.{round};
ghost use Rattle.laws.specs.Arithmetic.{◌%%◌};
ghost use Rattle.remainder.specs.Remainder.{remainder_of};
ghost use Rattle.remainder.specs.Steps.{within};

use bits::Parts;

// y taken away once, where that leaves no borrow: a choice, and not a branch, which would be guessed
// wrong at every other digit.
fn once(n: u64, y: u64) -> u64
    requires { (n < 2 ^ 54) × (y < 2 ^ 53) }
    ensures { (result % y ≡ n % y) × (n < 2 * y → result ≡ n % y) }
{
    let left = std::num::wrapping_sub_u64(n, y);
    if left >> 63 == 1 { n } else { left }
}

// Only a subnormal y has digits so few that once is not enough.
fn first(x: u64, y: u64) -> u64
    requires { (x < 2 ^ 53) × (0 < y) × (y < 2 ^ 53) }
    ensures { result ≡ x % y }
{
    let rest = once(x, y);
    if rest < y { rest } else { rest % y }
}

// What y leaves of x's digits and this many zeros after them: one more digit a step.
fn rest_after(x: u64, y: u64, zeros: u64) -> u64
    requires { (x < 2 ^ 53) × (0 < y) × (y < 2 ^ 53) }
    ensures { result ≡ x * 2 ^ zeros % y }
{
    let mut rest = first(x, y);
    for _ in 0..zeros {
        rest = once(2 * rest, y);
    }
    rest
}

// This many times 2^exponent smallest values, exactly.
fn written(negative: bool, rest: u64, exponent: u64) -> f64
    requires { exponent ≤ 2045 }
    ensures { result ≡ round binary64 negative (rest * 2 ^ exponent) (2 ^ 1074) }
{
    bits::rounded(negative, u128::from(rest), false, exponent + 1266)
}

fn remainder_of(x: Parts, y: Parts) -> f64
    requires { (0 < y.digits) × (y.exponent ≤ x.exponent) }
    ensures { result ≡ round binary64 x.negative (x.digits * 2 ^ x.exponent % (y.digits * 2 ^ y.exponent)) (2 ^ 1074) }
{
    let rest = rest_after(x.digits, y.digits, x.exponent - y.exponent);
    written(x.negative, rest, y.exponent)
}

// |x| < |y|, of numbers.
fn smaller(x: f64, y: f64) -> bool
    ensures { result ≡ within x y }
{
    ((x < y) & (-y < x)) | ((x < -y) & (y < x))
}

// C's fmod. NaN where x is infinite, y is zero or either is NaN.
pub fn remainder(x: f64, y: f64) -> f64
    ensures { (result ≡ remainder_of x y) × (result ≡ x %% y) }
{
    if smaller(x, y) {
        return x;
    }
    match (bits::parts(x), bits::parts(y)) {
        (Some(a), Some(b)) if b.digits > 0 => remainder_of(a, b),
        _ => 0.0 / 0.0,
    }
}
