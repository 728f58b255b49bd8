// E below 1 (ellipe.rs): by its piece, or by the mean with the sum of the squared differences (DLMF 19.8.6).
ghost use Rattle.std.specs.Prelude.{◌≡◌};
ghost use Rattle.laws.specs.Arithmetic.{◌⊖◌, ◌⊘◌, 1·0};
ghost use Rattle.root.specs.Root.{root_of};
ghost use Rattle.legendre.specs.Mean.{goes_on_of};
ghost use Rattle.legendre.specs.Ellipe.{start_of, next_of, ln_of, near_one_of, e_from_of, e_mean_of, e_below_one_of, e_negative_of};

use crate::ROOT_EPSILON;
use crate::mean::{Rounds, arithmetic, below_one, geometric, goes_on};
use pieces::e_piece;
use std::f64::consts::PI;

// The two means after some rounds, the sum e so far with what its rounding lost, and the next term's power of two.
#[derive(Clone, Copy)]
pub(crate) struct Sums {
    pub(crate) x: f64,
    pub(crate) y: f64,
    pub(crate) e: f64,
    compensation: f64,
    power: f64,
}

impl Sums {
    pub(crate) fn start(y0: f64) -> Sums
        ensures { result ≡ start_of y0 }
    {
        let mean = arithmetic(1.0, y0);
        let e = mean * mean;
        Sums {
            x: 1.0,
            y: y0,
            e,
            compensation: fused::fused(mean, mean, -e),
            power: 0.25,
        }
    }
}

impl Rounds for Sums {
    ghost goes = { λ tolerance s. goes_on_of tolerance s.x s.y };

    ghost next = { next_of };

    fn goes_on(self, tolerance: f64) -> bool {
        goes_on(tolerance, self.x, self.y)
    }

    fn next(self) -> Sums {
        let x = arithmetic(self.x, self.y);
        let y = geometric(self.x, self.y);
        let power = self.power * 2.0;
        let correction = power * (x - y) * (x - y) - self.compensation;
        let e = self.e - correction;
        Sums {
            x,
            y,
            e,
            compensation: (self.e - e) - correction,
            power,
        }
    }
}

fn ln(x: f64) -> f64
    ensures { result ≡ ln_of x }
{
    answer::value(logarithm::logarithm(x))
}

pub(crate) fn near_one(y0: f64) -> f64
    ensures { result ≡ near_one_of y0 }
{
    1.0 + (y0 * y0 / 2.0) * (ln(4.0) - ln(y0) - 0.5)
}

pub(crate) fn e_from(s: Sums) -> f64
    ensures { result ≡ e_from_of s }
{
    s.e * (PI / (s.x + s.y))
}

fn e_mean(y0: f64) -> f64
    ensures { result ≡ e_mean_of 32 y0 }
{
    if y0 <= ROOT_EPSILON {
        return near_one(y0);
    }
    e_from(Sums::start(y0).last(2.7 * f64::EPSILON))
}

pub(crate) fn e_below_one(m: f64) -> f64
    ensures { result ≡ e_below_one_of 32 m }
{
    below_one(m, |i, delta| e_piece(i, delta), e_mean)
}

pub(crate) fn e_negative(m: f64) -> f64
    ensures { result ≡ e_negative_of 32 (root_of (1·0 ⊖ m)) (m ⊘ (m ⊖ 1·0)) }
{
    let m1 = m / (m - 1.0);
    if m1 >= 0.9 {
        // m1 may round to 1: 1/c keeps the complementary modulus.
        let c = root::root(1.0 - m);
        return c * e_mean(1.0 / c);
    }
    // The root last: its digits are a long chain that the polynomial need not wait for.
    let e = e_below_one(m1);
    root::root(1.0 - m) * e
}
