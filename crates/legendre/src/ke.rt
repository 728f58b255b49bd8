// K and E together below 1 (ellipke.rs): one run of the mean for both.
ghost use Rattle.std.specs.Prelude.{◌≡◌};
ghost use Rattle.laws.specs.Arithmetic.{◌⊖◌, ◌⊘◌, 1·0};
ghost use Rattle.root.specs.Root.{root_of};
ghost use Rattle.legendre.specs.Ellipke.{both_mean_of, both_piece_of, both_below_one_of, scaled_of, both_negative_of, pair_of};

use crate::ROOT_EPSILON;
use crate::e::{Sums, e_from, near_one};
use crate::k::k_from;
use crate::mean::{Rounds, below_one};
use answer::{Answer, Refusal};
use pieces::{e_piece, k_piece};

#[derive(Clone, Copy)]
pub(crate) struct Both {
    pub(crate) k: f64,
    pub(crate) e: f64,
}

fn both_mean(y0: f64) -> Both
    ensures { result ≡ both_mean_of y0 }
{
    let s = Sums::start(y0).last(ROOT_EPSILON);
    let k = k_from(s.x, s.y);
    if y0 <= ROOT_EPSILON {
        return Both { k, e: near_one(y0) };
    }
    Both { k, e: e_from(s) }
}

fn both_piece(i: usize, delta: f64) -> Both
    ensures { result ≡ both_piece_of i delta }
{
    Both {
        k: k_piece(i, delta),
        e: e_piece(i, delta),
    }
}

pub(crate) fn both_below_one(m: f64) -> Both
    ensures { result ≡ both_below_one_of m }
{
    below_one(m, both_piece, both_mean)
}

fn scaled(c: f64, b: Both) -> Both
    ensures { result ≡ scaled_of c b }
{
    Both {
        k: b.k / c,
        e: c * b.e,
    }
}

pub(crate) fn both_negative(m: f64) -> Both
    ensures { result ≡ both_negative_of (root_of (1·0 ⊖ m)) (m ⊘ (m ⊖ 1·0)) }
{
    let m1 = m / (m - 1.0);
    if m1 >= 0.9 {
        // 1 - m1 = 1/c²: starting from 1/c avoids the cancellation.
        let c = root::root(1.0 - m);
        return scaled(c, both_mean(1.0 / c));
    }
    // The root last: its digits are a long chain that the polynomials need not wait for.
    let b = both_below_one(m1);
    scaled(root::root(1.0 - m), b)
}

pub(crate) fn pair(b: Both) -> Result<Answer, Refusal>
    ensures { result ≡ pair_of b }
{
    Ok(Answer::Pair(b.k, b.e))
}
