// Carlson's RC(x, y), which is RF(x, y, y), by duplication (01, module 5; DLMF 19.36(i); Carlson 1995).
// A round takes L = 2√x√y + y and makes both arguments and their mean, in which y counts twice, (itself + L) / 4. RC does not change (DLMF 19.26.25): that is the invariant.
// The distance between the mean and the farther argument is quartered; once it is below mean / 128 a series of seventh order closes.
#![tactic(auto)]

ghost use Rattle.std.specs.Prelude.{◌≡◌};
ghost use Rattle.rc.specs.Rc.{start_of, stops_of, round_of, closed_of, rc_of};

use carlson::{Outcome, Recipe, farther};

#[derive(Clone, Copy)]
pub(crate) struct State {
    pub x: f64,
    pub y: f64,
    pub mean: f64,
    pub distance: f64,
}

#[tactic(auto, unfolding(crate::specs::Rc::start_of))]
impl State {
    fn start(x: f64, y: f64) -> State
        ensures { result ≡ start_of x y }
    {
        let mean = (x + y + y) / 3.0;
        State {
            x,
            y,
            mean,
            distance: farther(mean, x, y),
        }
    }
}

#[tactic(auto, unfolding(crate::specs::Rc::stops_of, crate::specs::Rc::round_of, crate::specs::Rc::closed_of, crate::specs::Rc::series_of))]
impl Recipe for State {
    ghost stops = { stops_of };

    ghost round = { round_of };

    ghost closed = { closed_of };

    ghost stays = { λ _ _ _. tt };

    fn stops(self) -> bool {
        self.distance < self.mean / 128.0
    }

    fn round(self) -> State {
        let rx = root::root(self.x);
        let ry = root::root(self.y);
        let l = 2.0 * rx * ry + self.y;
        let moved = |a: f64| (a + l) / 4.0;
        State {
            x: moved(self.x),
            y: moved(self.y),
            mean: moved(self.mean),
            distance: self.distance / 4.0,
        }
    }

    fn closed(self, rounds: usize) -> Outcome {
        let s = (self.y - self.mean) / self.mean;
        let high = 9.0 / 22.0 + s * (159.0 / 208.0 + s * (9.0 / 8.0));
        let series = 1.0 + s * s * (3.0 / 10.0 + s * (1.0 / 7.0 + s * (3.0 / 8.0 + s * high)));
        Outcome {
            value: series / root::root(self.mean),
            met: self.stops(),
            rounds,
            inside: 0,
        }
    }
}

#[tactic(auto, unfolding(crate::specs::Rc::rc_of, carlson::specs::Loop::finish_of, carlson::specs::Loop::duplicated))]
pub fn rc(x: f64, y: f64) -> Outcome
    ensures { result ≡ rc_of x y }
{
    State::start(x, y).finish(0)
}
