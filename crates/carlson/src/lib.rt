// What Carlson's symmetric integrals share: each of RF, RC, RD and RJ is a crate of its own, by duplication (01, module 5; DLMF 19.36(i); Carlson 1995).
// docs/STEPS.md writes the steps down and says what infinite and NaN arguments do.
#![tactic(auto)]

ghost use Rattle.std.specs.Prelude.{◌≡◌, ℕ, ◌+◌, ◌<◌, Bool};
ghost use Rattle.laws.specs.Arithmetic.{◌⊖◌};
ghost use Rattle.whole.specs.Whole.{magnitude_of};
ghost use Rattle.carlson.specs.Loop.{finish_of};
ghost use Rattle.carlson.specs.Series.{larger_of, fifth_of, trusted_of};
ghost use Rattle.carlson.specs.declared.Outcome.{Outcome};

// What a recipe gives: `value` counts only where `met`, else the refusal is 5.
// Kept: a flag beside the value, since formulas go on with the value and the rounds of a recipe that is not met (`next_of` of RJ, `from_rest_of` of ellippi).
#[derive(Clone, Copy)]
pub struct Outcome {
    pub value: f64,
    pub met: bool,
    // the recipe's own rounds, and those of the RC calls inside RJ
    pub rounds: usize,
    pub inside: usize,
}

// What the loop of all four asks of a recipe's state.
pub trait Recipe: Copy {
    ghost stops: { Self → Bool };

    ghost round: { Self → Self };

    // the outcome, by the last state and the rounds made
    ghost closed: { Self → ℕ → Outcome };

    // what holds of the state after k rounds, where a round can't be made of any state
    ghost reached: { Self → ℕ → Type 0 } = { λ _ _. Unit {0} };

    fn stops(self) -> bool
        ensures { result ≡ stops self };

    fn round(self) -> Self
        requires { (k : ℕ) × (k < 64) × reached self k }
        ensures { result ≡ round self };

    fn closed(self, rounds: usize) -> Outcome
        ensures { result ≡ closed self rounds };

    ghost stays: { (s : Self) (k : ℕ) → reached s k → reached (round s) (k + 1) };

    // What is left of the recipe after k rounds: the stop test is tried before each round, and at most 64 rounds are made.
    final fn finish(self, k: usize) -> Outcome
        requires { reached self k }
        ensures { result ≡ finish_of stops round closed self k }
    {
        let mut s = self;
        for j in k..64 {
            if s.stops() {
                return s.closed(j);
            }
            s = s.round();
        }
        s.closed(k.max(64))
    }
}

#[tactic(auto, unfolding(crate::specs::Series::larger_of))]
pub fn larger(a: f64, b: f64) -> f64
    ensures { result ≡ larger_of a b }
{
    if a < b { b } else { a }
}

// The distance between the mean and the farther of two arguments.
pub fn farther(mean: f64, x: f64, y: f64) -> f64
    ensures { result ≡ larger_of (magnitude_of (mean ⊖ x)) (magnitude_of (mean ⊖ y)) }
{
    larger(whole::magnitude(mean - x), whole::magnitude(mean - y))
}

// The closing series that RD and RJ share.
#[tactic(auto, unfolding(crate::specs::Series::fifth_of))]
pub fn fifth(e2: f64, e3: f64, e4: f64, e5: f64) -> f64
    ensures { result ≡ fifth_of e2 e3 e4 e5 }
{
    1.0 - 3.0 * e2 / 14.0 + e3 / 6.0 + 9.0 * e2 * e2 / 88.0 - 3.0 * e4 / 22.0 - 9.0 * e2 * e3 / 52.0
        + 3.0 * e5 / 26.0
}

// 2^-960
const LEAST: f64 = 1.0261342003245941e-289;

// A value of RD or RJ that has not felt what is too small for an f64; NaN for one that may have.
#[tactic(auto, unfolding(crate::specs::Series::trusted_of))]
pub fn trusted(v: f64) -> f64
    ensures { result ≡ trusted_of v }
{
    if v < LEAST { 0.0 / 0.0 } else { v }
}
