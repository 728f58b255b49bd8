// |x| as digits * 2^exponent smallest f64, 2^-1074 each, and what the sums take of it.
ghost use Rattle.std.specs.Prelude.{◌≡◌, ◌*◌, ◌/◌, ◌^◌, ◌≤◌, ◌<◌};
ghost use Rattle.arctangent.specs.Arctangent.{sides_at};

use super::sums::{Sides, next_to, sum};
use crate::quotient::quotient;
use bits::Parts;

// A(1/3) + A(1/7), which stands for arctan 1/2: what it adds and what it takes away.
const HALF_ADDED: u64 = 4399835472195684314;

const HALF_TAKEN: u64 = 123441080383072520;

// A(1/3) more, for pi/4.
const QUARTER_ADDED: u64 = 7481936585978271796;

const QUARTER_TAKEN: u64 = 237917127901148953;

// pi/2
pub(crate) const RIGHT_ADDED: u64 = 2 * QUARTER_ADDED;

pub(crate) const RIGHT_TAKEN: u64 = 2 * QUARTER_TAKEN;

// 1, 3/4 and 3/2 in units of 2^-54, and 1 in units of 2^-52.
const ONE: u64 = 0x40_0000_0000_0000;

const THREE_QUARTERS: u64 = 0x30_0000_0000_0000;

const THREE_HALVES: u64 = 0x60_0000_0000_0000;

const WIDE_ONE: u64 = 0x10_0000_0000_0000;

// 1/x for x from 4 on, in units of 2^-64, cut: a quotient that is cut again is the quotient.
fn inverse(p: Parts) -> u64
    requires { 1024 ≤ p.exponent }
    ensures { result ≡ 2 ^ 1074 * 2 ^ 64 / (p.digits * 2 ^ p.exponent) }
{
    if p.exponent <= 1074 {
        return quotient(1 << (1074 - p.exponent), p.digits);
    }
    if p.exponent < 1074 + 64 {
        return quotient(1, p.digits) >> (p.exponent - 1074);
    }
    0
}

// From 1/4 to 4. From 1 on the two last digits of n are 0.
fn between(p: Parts) -> Sides
    requires { (1020 ≤ p.exponent) × (p.exponent < 1024) }
    ensures { result ≡ sides_at (p.digits * 2 ^ p.exponent) (2 ^ 1074) }
{
    let n = p.digits << (p.exponent - 1020);
    if n < THREE_QUARTERS {
        let c = Sides {
            added: HALF_ADDED,
            taken: HALF_TAKEN,
        };
        return next_to(c, 2 * n, ONE, n + 2 * ONE);
    }
    if n < THREE_HALVES {
        let c = Sides {
            added: QUARTER_ADDED,
            taken: QUARTER_TAKEN,
        };
        return next_to(c, n, ONE, n + ONE);
    }
    let c = Sides {
        added: RIGHT_ADDED + HALF_TAKEN,
        taken: RIGHT_TAKEN + HALF_ADDED,
    };
    let n = n / 4;
    next_to(c, n, 2 * WIDE_ONE, 2 * n + WIDE_ONE)
}

// From 1/4 on.
pub(crate) fn sides_of(p: Parts) -> Sides
    requires { 1020 ≤ p.exponent }
    ensures { result ≡ sides_at (p.digits * 2 ^ p.exponent) (2 ^ 1074) }
{
    if p.exponent < 1024 {
        return between(p);
    }
    let s = sum(inverse(p));
    Sides {
        added: RIGHT_ADDED + s.taken,
        taken: RIGHT_TAKEN + s.added,
    }
}
