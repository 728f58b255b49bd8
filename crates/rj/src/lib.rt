// Carlson's RJ(x, y, z, p), in which p counts twice, by duplication (01, module 5; DLMF 19.36(i); Carlson 1995).
// A round takes L = √x√y + √y√z + √z√x and d = (√p + √x)(√p + √y)(√p + √z), adds scale / d · RC(1, 2√p (p + L) / d) to the sum,
// makes each argument and their mean (itself + L) / 4 and quarters the scale.
// The invariant is the value of RJ at the start: scale · RJ(x, y, z, p) + 6 · sum (DLMF 19.26.22, 19.26.23).
// The distance between the mean and the farthest argument is quartered; once it is below mean / 1024 the series that RD shares closes.
// RJ is met only where its own stop test and that of every RC inside are.
#![tactic(auto)]

ghost use Rattle.std.specs.Prelude.{◌≡◌, ◌*◌, ◌≤◌};
ghost use Rattle.rf.specs.Rf.{rf_of};
ghost use Rattle.rj.specs.Rj.{start_of, stops_of, next_of, round_of, closed_of, rj_of};
ghost use Rattle.rj.specs.laws.Counts.{grows};
ghost use Rattle.rj.specs.laws.Moves.{rj_recipe, rj_moves, rj_by_roots};

use carlson::{Outcome, Recipe, farther, fifth, larger, trusted};
use rf::{Rooted, Roots, roots_of, together};

// As RD's, and as open; `inner` says whether every RC so far was met, `inside` counts their rounds.
// Kept: `inner` is a flag, since the sum goes on with the value of an RC that is not met (`next_of`), and `rj_inner_unmet` (identities) speaks of it.
#[derive(Clone, Copy)]
pub struct State {
    pub x: f64,
    pub y: f64,
    pub z: f64,
    pub p: f64,
    pub mean: f64,
    pub distance: f64,
    pub scale: f64,
    pub sum: f64,
    pub inner: bool,
    pub inside: usize,
}

#[tactic(auto, unfolding(crate::specs::Rj::start_of))]
impl State {
    fn start(x: f64, y: f64, z: f64, p: f64) -> State
        ensures { result ≡ start_of x y z p }
    {
        let mean = (x + y + z + 2.0 * p) / 5.0;
        State {
            x,
            y,
            z,
            p,
            mean,
            distance: larger(farther(mean, x, y), farther(mean, z, p)),
            scale: 1.0,
            sum: 0.0,
            inner: true,
            inside: 0,
        }
    }
}

#[tactic(auto, unfolding(crate::specs::Rj::stops_of, crate::specs::Rj::round_of, crate::specs::Rj::closed_of, crate::specs::Rj::series_of))]
impl Recipe for State {
    ghost stops = { stops_of };

    ghost round = { round_of };

    ghost closed = { closed_of };

    ghost reached = { λ s k. s.inside ≤ 64 * k };

    ghost stays = { grows };

    fn stops(self) -> bool {
        self.distance < self.mean / 1024.0
    }

    fn round(self) -> State {
        self.round_by(self.roots())
    }

    fn closed(self, rounds: usize) -> Outcome {
        let x = (self.mean - self.x) / self.mean;
        let y = (self.mean - self.y) / self.mean;
        let z = (self.mean - self.z) / self.mean;
        let p = -(x + y + z) / 2.0;
        let xyz = x * y * z;
        let pp = p * p;
        let e2 = x * y + x * z + y * z - 3.0 * pp;
        let e3 = xyz + 2.0 * e2 * p + 4.0 * pp * p;
        let e4 = (2.0 * xyz + e2 * p + 3.0 * pp * p) * p;
        let series = fifth(e2, e3, e4, xyz * pp);
        let tail = self.scale * series / (self.mean * root::root(self.mean));
        Outcome {
            value: trusted(tail + 6.0 * self.sum),
            met: self.stops() & self.inner,
            rounds,
            inside: self.inside,
        }
    }
}

#[tactic(auto, unfolding(crate::specs::Rj::next_of))]
impl Rooted for State {
    ghost at = { rj_recipe.at };

    ghost next = { next_of };

    ghost by_roots = { rj_by_roots };

    ghost moves = { rj_moves };

    fn roots(self) -> Roots {
        roots_of(self.x, self.y, self.z)
    }

    // 2√p(p + L)/d is Carlson's 1 + e, without the difference that cancels where e is near -1.
    fn round_by(self, w: Roots) -> State {
        let l = w.spread;
        let rp = root::root(self.p);
        let d = (rp + w.x) * (rp + w.y) * (rp + w.z);
        let inner = rc::rc(1.0, 2.0 * rp * (self.p + l) / d);
        let moved = |a: f64| (a + l) / 4.0;
        State {
            x: moved(self.x),
            y: moved(self.y),
            z: moved(self.z),
            p: moved(self.p),
            mean: moved(self.mean),
            distance: self.distance / 4.0,
            scale: self.scale / 4.0,
            sum: self.sum + self.scale / d * inner.value,
            inner: self.inner & inner.met,
            inside: self.inside + inner.rounds,
        }
    }
}

#[tactic(auto, unfolding(crate::specs::Rj::rj_of, crate::specs::Rj::start_of, carlson::specs::Loop::finish_of, carlson::specs::Loop::duplicated))]
pub fn rj(x: f64, y: f64, z: f64, p: f64) -> Outcome
    ensures { result ≡ rj_of x y z p }
{
    State::start(x, y, z, p).finish(0)
}

// RF and RJ of the same x, y and z, which share the roots of their rounds.
#[tactic(auto, unfolding(rf::specs::Rf::start_of, rf::specs::Rf::rf_of, crate::specs::Rj::start_of, crate::specs::Rj::rj_of))]
pub fn with_rf(x: f64, y: f64, z: f64, p: f64) -> (Outcome, Outcome)
    ensures { (result.0 ≡ rf_of x y z) × (result.1 ≡ rj_of x y z p) }
{
    let f = rf::State::start(x, y, z);
    let j = State::start(x, y, z, p);
    together(f, j)
}
