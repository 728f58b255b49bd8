// Carlson's RF(x, y, z) by duplication (01, module 5; DLMF 19.36(i); Carlson 1995).
// A round takes L = √x√y + √y√z + √z√x and makes each argument and their mean (itself + L) / 4. RF does not change (DLMF 19.26.18): that is the invariant.
// The distance between the mean and the farthest argument is quartered; once it is below mean / 512 the arguments are so near to their mean that a series of fifth order closes.
#![tactic(auto)]

ghost use Rattle.std.specs.Prelude.{◌≡◌, ℕ, ◌+◌, ◌<◌};
ghost use Rattle.carlson.specs.Loop.{duplicated};
ghost use Rattle.rf.specs.Rf.{start_of, stops_of, roots_of, next_of, round_of, closed_of, rf_of};
ghost use Rattle.rf.specs.Arguments.{Arguments, roots_at, moved};
ghost use Rattle.rf.specs.laws.Moves.{rf_recipe, rf_moves, rf_by_roots};
ghost use Rattle.rf.specs.declared.Roots.{Roots};

use carlson::{Outcome, Recipe, farther, larger};
use root::ThreeRoots;

// What a round of RF, RD or RJ takes of its arguments: their roots, and L = √x√y + √y√z + √z√x.
#[derive(Clone, Copy)]
pub struct Roots {
    pub x: f64,
    pub y: f64,
    pub z: f64,
    pub spread: f64,
}

#[tactic(auto, unfolding(crate::specs::Rf::roots_of))]
pub fn roots_of(x: f64, y: f64, z: f64) -> Roots
    ensures { result ≡ roots_of x y z }
{
    let ThreeRoots { x, y, z } = root::three(x, y, z);
    Roots {
        x,
        y,
        z,
        spread: x * y + y * z + z * x,
    }
}

// A recipe over x, y and z, which makes its round of their roots.
pub trait Rooted: Recipe {
    ghost at: { Self → Arguments };

    ghost next: { Self → Roots → Self };

    fn roots(self) -> Roots
        ensures { result ≡ roots_at (at self) };

    // A round, the roots being at hand.
    fn round_by(self, w: Roots) -> Self
        requires { (k : ℕ) × (k < 64) × Self.reached self k }
        ensures { result ≡ next self w };

    ghost by_roots: { (s : Self) → next s (roots_at (at s)) ≡ Self.round s };

    ghost moves: { (s : Self) → at (Self.round s) ≡ moved (at s) };
}

// Two recipes of the same x, y and z: while neither stops they make their rounds together, each root taken once; then each goes on alone.
pub fn together<A: Rooted, B: Rooted>(a: A, b: B) -> (Outcome, Outcome)
    requires same { A.at a ≡ B.at b }
    requires first { A.reached a 0 }
    requires second { B.reached b 0 }
    ensures first { result.0 ≡ duplicated A.stops A.round A.closed a }
    ensures second { result.1 ≡ duplicated B.stops B.round B.closed b }
{
    let mut s = a;
    let mut t = b;
    for k in 0..64 {
        if s.stops() | t.stops() {
            return (s.finish(k), t.finish(k));
        }
        let w = t.roots();
        s = s.round_by(w);
        t = t.round_by(w);
    }
    (s.closed(64), t.closed(64))
}

// Three arguments, their mean, and the distance that the stop test reads. RD and RJ of the same arguments make RF's rounds with their own, which saves its roots.
#[derive(Clone, Copy)]
pub struct State {
    pub x: f64,
    pub y: f64,
    pub z: f64,
    pub mean: f64,
    pub distance: f64,
}

#[tactic(auto, unfolding(crate::specs::Rf::start_of, crate::specs::Rf::next_of))]
impl State {
    pub fn start(x: f64, y: f64, z: f64) -> State
        ensures { result ≡ start_of x y z }
    {
        let mean = (x + y + z) / 3.0;
        State {
            x,
            y,
            z,
            mean,
            distance: larger(farther(mean, x, y), whole::magnitude(mean - z)),
        }
    }

    // A round, L being at hand.
    pub fn next(self, l: f64) -> State
        ensures { result ≡ next_of self l }
    {
        let moved = |a: f64| (a + l) / 4.0;
        State {
            x: moved(self.x),
            y: moved(self.y),
            z: moved(self.z),
            mean: moved(self.mean),
            distance: self.distance / 4.0,
        }
    }
}

#[tactic(auto, unfolding(crate::specs::Rf::stops_of, crate::specs::Rf::round_of, crate::specs::Rf::roots_of, crate::specs::Rf::closed_of, crate::specs::Rf::series_of))]
impl Recipe for State {
    ghost stops = { stops_of };

    ghost round = { round_of };

    ghost closed = { closed_of };

    ghost stays = { λ _ _ _. tt };

    fn stops(self) -> bool {
        self.distance < self.mean / 512.0
    }

    fn round(self) -> State {
        self.round_by(self.roots())
    }

    fn closed(self, rounds: usize) -> Outcome {
        let x = (self.mean - self.x) / self.mean;
        let y = (self.mean - self.y) / self.mean;
        let z = -(x + y);
        let e2 = x * y - z * z;
        let e3 = x * y * z;
        let series = 1.0 - e2 / 10.0 + e3 / 14.0 + e2 * e2 / 24.0 - 3.0 * e2 * e3 / 44.0;
        Outcome {
            value: series / root::root(self.mean),
            met: self.stops(),
            rounds,
            inside: 0,
        }
    }
}

impl Rooted for State {
    ghost at = { rf_recipe.at };

    ghost next = { λ s w. next_of s w.spread };

    ghost by_roots = { rf_by_roots };

    ghost moves = { rf_moves };

    fn roots(self) -> Roots {
        roots_of(self.x, self.y, self.z)
    }

    fn round_by(self, w: Roots) -> State {
        self.next(w.spread)
    }
}

#[tactic(auto, unfolding(crate::specs::Rf::rf_of, carlson::specs::Loop::finish_of, carlson::specs::Loop::duplicated))]
pub fn rf(x: f64, y: f64, z: f64) -> Outcome
    ensures { result ≡ rf_of x y z }
{
    State::start(x, y, z).finish(0)
}
