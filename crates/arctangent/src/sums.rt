// A(t) = t - t^3/3 + t^5/5 - .. + t^41/41, which stands for arctan t, in units of 2^-63; t counts in 2^-64.
ghost use Rattle.std.specs.Prelude.{◌≡◌, ◌-◌, ◌*◌, ◌/◌, ◌^◌, ◌≤◌, ◌<◌};
ghost use Rattle.arctangent.specs.Arctangent.{sides, factor_of, next_to};

use crate::quotient::quotient;
use bits::{run, upper};

// What a sum adds and what it takes away.
#[derive(Clone, Copy)]
pub struct Sides {
    pub added: u64,
    pub taken: u64,
}

// A(t) / t
pub(crate) fn factor(t: u64) -> Sides
    requires { t ≤ 2 ^ 62 }
    ensures { result ≡ factor_of t }
{
    let w = upper(t, t);
    let u = upper(w, w);
    Sides {
        added: run(u, 1, 4, 11),
        taken: upper(w, run(u, 3, 4, 10)),
    }
}

pub(crate) fn sum(t: u64) -> Sides
    requires { t ≤ 2 ^ 62 }
    ensures { result ≡ sides (t * (factor_of t).added / 2 ^ 64) (t * (factor_of t).taken / 2 ^ 64) }
{
    let f = factor(t);
    Sides {
        added: upper(t, f.added),
        taken: upper(t, f.taken),
    }
}

// c + A((a - b) / d): where a < b what A adds is taken away, and the other way round.
pub(crate) fn next_to(c: Sides, a: u64, b: u64, d: u64) -> Sides
    requires { (4 * (a - b) ≤ d) × (4 * (b - a) ≤ d) × (0 < d) × (d < 2 ^ 56) × (c.added < 55 * 2 ^ 58) × (c.taken < 55 * 2 ^ 58) }
    ensures { result ≡ next_to c a b d }
{
    if a < b {
        let s = sum(quotient(b - a, d));
        return Sides {
            added: c.added + s.taken,
            taken: c.taken + s.added,
        };
    }
    let s = sum(quotient(a - b, d));
    Sides {
        added: c.added + s.added,
        taken: c.taken + s.taken,
    }
}
