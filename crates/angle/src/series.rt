// The alternating sums of sine and cosine (docs/STEPS.md).
ghost use Rattle.std.specs.Prelude.{◌≡◌, ◌+◌, ◌*◌, ◌/◌, ◌^◌, ◌≤◌, ◌<◌};
ghost use Rattle.angle.specs.Alternating.{alternating_of, tail_of};

use bits::upper;

// 1 in units of 2^-60.
const ONE: u64 = 0x1000_0000_0000_0000;

// What a sum adds and what it takes away, in units of 2^-60.
// Kept: arctangent's `Sides` is of this form in other units, and no step of one serves the other.
#[derive(Clone, Copy)]
pub struct Balance {
    pub added: u64,
    pub taken: u64,
}

// a * b / 2^59, cut: what lies above 2^59 in a goes over whole.
pub(crate) fn scaled(a: u64, b: u64) -> u64
    requires { a * b < 2 ^ 123 }
    ensures { result ≡ a * b / 2 ^ 59 }
{
    (a >> 59) * b + upper(a << 5, b)
}

// From the sum of degree n + 2 and above to that of n and above. In `odd` and `even` every n is a
// constant, so that the compiler makes the division a multiplication.
fn step(n: u64, t: u64, b: Balance) -> Balance
    requires { (n ≤ 40) × (t ≤ 2 ^ 63) × (b ≡ tail_of t (n + 2)) }
    ensures { result ≡ tail_of t n }
{
    let g = t / ((n + 1) * (n + 2));
    Balance {
        added: ONE + scaled(g, b.taken),
        taken: scaled(g, b.added),
    }
}

// Five steps, the last of them to degree n.
fn five(n: u64, t: u64, b: Balance) -> Balance
    requires { (n ≤ 32) × (t ≤ 2 ^ 63) × (b ≡ tail_of t (n + 10)) }
    ensures { result ≡ tail_of t n }
{
    let b = step(n + 8, t, b);
    let b = step(n + 6, t, b);
    let b = step(n + 4, t, b);
    let b = step(n + 2, t, b);
    step(n, t, b)
}

// 1 - t/(2·3) (1 - t/(4·5) (..)) to degree 41, from the last term to the first: what a cut loses is
// divided by the divisors still to come.
pub(crate) fn odd(t: u64) -> Balance
    requires { t ≤ 2 ^ 63 }
    ensures { result ≡ alternating_of t 1 20 }
{
    let b = Balance {
        added: ONE,
        taken: 0,
    };
    let b = five(31, t, b);
    let b = five(21, t, b);
    let b = five(11, t, b);
    five(1, t, b)
}

// 1 - t/(1·2) (1 - t/(3·4) (..)) to degree 42.
pub(crate) fn even(t: u64) -> Balance
    requires { t ≤ 2 ^ 63 }
    ensures { result ≡ alternating_of t 0 21 }
{
    let b = Balance {
        added: ONE,
        taken: 0,
    };
    let b = step(40, t, b);
    let b = five(30, t, b);
    let b = five(20, t, b);
    let b = five(10, t, b);
    five(0, t, b)
}
