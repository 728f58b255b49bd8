// K below 1 (ellipk.rs): by its piece, or by the arithmetic-geometric mean (DLMF 19.8.5).
ghost use Rattle.std.specs.Prelude.{◌≡◌};
ghost use Rattle.legendre.specs.Mean.{goes_on_of};
ghost use Rattle.legendre.specs.Ellipk.{next_of, k_from_of, k_mean_of, k_below_one_of};

use crate::mean::{Rounds, arithmetic, below_one, geometric, goes_on};
use pieces::k_piece;
use std::f64::consts::PI;

// The two means after some rounds.
#[derive(Clone, Copy)]
struct Means {
    x: f64,
    y: f64,
}

impl Rounds for Means {
    ghost goes = { λ tolerance s. goes_on_of tolerance s.x s.y };

    ghost next = { next_of };

    fn goes_on(self, tolerance: f64) -> bool {
        goes_on(tolerance, self.x, self.y)
    }

    fn next(self) -> Means {
        Means {
            x: arithmetic(self.x, self.y),
            y: geometric(self.x, self.y),
        }
    }
}

pub(crate) fn k_from(x: f64, y: f64) -> f64
    ensures { result ≡ k_from_of x y }
{
    let diff = x - y;
    let sum = x + y;
    let corr = 1.0 - (diff * diff) / (4.0 * sum * sum);
    PI / (sum * corr)
}

pub(crate) fn k_mean(y0: f64) -> f64
    ensures { result ≡ k_mean_of y0 }
{
    let first = Means { x: 1.0, y: y0 };
    let s = first.last(1e-7);
    k_from(s.x, s.y)
}

pub(crate) fn k_below_one(m: f64) -> f64
    ensures { result ≡ k_below_one_of m }
{
    below_one(m, |i, delta| k_piece(i, delta), k_mean)
}
