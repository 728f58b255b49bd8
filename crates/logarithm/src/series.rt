// S(t) = 2 (t + t^3/3 + .. + t^41/41), which stands for log((1 + t) / (1 - t)), in units of 2^-62.
ghost use Rattle.std.specs.Prelude.{◌≡◌, ◌+◌, ◌-◌, ◌*◌, ◌^◌, ◌≤◌, ◌<◌};
ghost use Rattle.logarithm.specs.Logarithm.{part_of, third};

use bits::{plus, product, quotient, run, upper};

// S(1/3), which stands for log 2.
const THIRD: u64 = 3196577161300663914;

// S((a - b) / (a + b)), and 0 where that is negative.
pub(crate) fn part(a: u64, b: u64) -> u64
    requires { (2 * a ≤ 3 * b) × (a + b < 2 ^ 56) }
    ensures { result ≡ part_of (a - b) (a + b) }
{
    if a <= b {
        return 0;
    }
    let t = quotient(a - b, a + b);
    upper(t, run(upper(t, t), 1, 2, 21))
}

// k S(1/3) + s
pub(crate) fn sum(k: u64, s: u64) -> u128
    ensures { result ≡ k * third + s }
{
    plus(product(k, THIRD), u128::from(s))
}
