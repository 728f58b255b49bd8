// Carlson's RD(x, y, z), in which z counts three times, by duplication (01, module 5; DLMF 19.36(i); Carlson 1995).
// A round takes L = √x√y + √y√z + √z√x, adds scale / (√z (z + L)) to the sum, makes each argument and their mean (itself + L) / 4 and quarters the scale.
// The invariant is the value of RD at the start: scale · RD(x, y, z) + 3 · sum (DLMF 19.26.20).
// The distance between the mean and the farthest argument is quartered; once it is below mean / 1024 the series that RJ shares closes.
#![tactic(auto)]

ghost use Rattle.std.specs.Prelude.{◌≡◌};
ghost use Rattle.rf.specs.Rf.{rf_of};
ghost use Rattle.rd.specs.Rd.{start_of, stops_of, next_of, round_of, closed_of, rd_of};
ghost use Rattle.rd.specs.laws.Moves.{rd_recipe, rd_moves, rd_by_roots};

use carlson::{Outcome, Recipe, farther, fifth, larger};
use rf::{Rooted, Roots, roots_of, together};

// `scale` is 4^-k after k rounds, `sum` what the rounds have added. It is open to laws; only the methods of `Recipe` and `Rooted` take it.
#[derive(Clone, Copy)]
pub struct State {
    pub x: f64,
    pub y: f64,
    pub z: f64,
    pub mean: f64,
    pub distance: f64,
    pub scale: f64,
    pub sum: f64,
}

#[tactic(auto, unfolding(crate::specs::Rd::start_of))]
impl State {
    fn start(x: f64, y: f64, z: f64) -> State
        ensures { result ≡ start_of x y z }
    {
        let mean = (x + y + 3.0 * z) / 5.0;
        State {
            x,
            y,
            z,
            mean,
            distance: larger(farther(mean, x, y), whole::magnitude(mean - z)),
            scale: 1.0,
            sum: 0.0,
        }
    }
}

#[tactic(auto, unfolding(crate::specs::Rd::stops_of, crate::specs::Rd::round_of, crate::specs::Rd::closed_of, crate::specs::Rd::series_of))]
impl Recipe for State {
    ghost stops = { stops_of };

    ghost round = { round_of };

    ghost closed = { closed_of };

    ghost stays = { λ _ _ _. tt };

    fn stops(self) -> bool {
        self.distance < self.mean / 1024.0
    }

    fn round(self) -> State {
        self.round_by(self.roots())
    }

    fn closed(self, rounds: usize) -> Outcome {
        let x = (self.mean - self.x) / self.mean;
        let y = (self.mean - self.y) / self.mean;
        let z = -(x + y) / 3.0;
        let xy = x * y;
        let zz = z * z;
        let series = fifth(
            xy - 6.0 * zz,
            (3.0 * xy - 8.0 * zz) * z,
            3.0 * (xy - zz) * zz,
            xy * zz * z,
        );
        let tail = self.scale * series / (self.mean * root::root(self.mean));
        Outcome {
            value: tail + 3.0 * self.sum,
            met: self.stops(),
            rounds,
            inside: 0,
        }
    }
}

#[tactic(auto, unfolding(crate::specs::Rd::next_of))]
impl Rooted for State {
    ghost at = { rd_recipe.at };

    ghost next = { next_of };

    ghost by_roots = { rd_by_roots };

    ghost moves = { rd_moves };

    fn roots(self) -> Roots {
        roots_of(self.x, self.y, self.z)
    }

    fn round_by(self, w: Roots) -> State {
        let l = w.spread;
        let moved = |a: f64| (a + l) / 4.0;
        State {
            x: moved(self.x),
            y: moved(self.y),
            z: moved(self.z),
            mean: moved(self.mean),
            distance: self.distance / 4.0,
            scale: self.scale / 4.0,
            sum: self.sum + self.scale / (w.z * (self.z + l)),
        }
    }
}

// RF and RD of the same arguments, which share the roots of their rounds.
#[tactic(auto, unfolding(rf::specs::Rf::start_of, rf::specs::Rf::rf_of, crate::specs::Rd::start_of, crate::specs::Rd::rd_of))]
pub fn with_rf(x: f64, y: f64, z: f64) -> (Outcome, Outcome)
    ensures { (result.0 ≡ rf_of x y z) × (result.1 ≡ rd_of x y z) }
{
    let f = rf::State::start(x, y, z);
    let d = State::start(x, y, z);
    together(f, d)
}
