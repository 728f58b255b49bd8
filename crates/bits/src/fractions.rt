// Fractions below 1 in units of 2^-64, and sums of their powers. Each product and quotient is cut, so that a cut only ever loses.
ghost use Rattle.std.specs.Prelude.{◌≡◌, ◌+◌, ◌*◌, ◌/◌, ◌^◌, ◌≤◌, ◌<◌};
ghost use Rattle.bits.specs.Runs.{run_of};

use super::wide::product;

// The upper half of a product, in a function of its own: the compiler then makes it one multiplication.
pub fn upper(a: u64, b: u64) -> u64
    ensures { result ≡ a * b / 2 ^ 64 }
{
    (product(a, b) >> 64) as u64
}

// Long division, eight binary digits at a time: a division of 128 bits would be a call that no proof covers.
pub fn quotient(a: u64, b: u64) -> u64
    requires { (a < b) × (b < 2 ^ 56) }
    ensures { result ≡ a * 2 ^ 64 / b }
{
    let mut q: u64 = 0;
    let mut rest = a;
    for _ in 0..8u64 {
        let next = rest * 256;
        q = q * 256 + next / b;
        rest = next % b;
    }
    q
}

// 1/n + u/(n + d) + u^2/(n + 2d) + .., k terms, in units of 2^-63, from the last to the first.
pub fn run(u: u64, n: u64, d: u64, k: u64) -> u64
    requires { (u ≤ 2 ^ 60) × (0 < n) × (n + d * k < 2 ^ 64) }
    ensures { result ≡ run_of u n d k }
{
    let mut h: u64 = 0;
    for i in (0..k).rev() {
        h = 0x8000_0000_0000_0000 / (n + d * i) + upper(u, h);
    }
    h
}
