// The order in which the three functions decide.
ghost use Rattle.std.specs.Prelude.{MatchResult};
ghost use Rattle.legendre.specs.Domain.{Decides, Refuses};

use answer::Refusal;

// Where m lies: 1, -∞, finite and below 0, or from 0 to below 1.
#[derive(Clone, Copy)]
pub(crate) enum Domain {
    One,
    Bottom,
    Negative,
    Unit,
}

impl Domain {
    pub(crate) fn of(m: f64) -> Result<Domain, Refusal>
        ensures { MatchResult result (Decides m) (Refuses m) }
    {
        if m.is_nan() {
            return Err(Refusal::NotANumber);
        }
        if m > 1.0 {
            return Err(Refusal::AboveOne);
        }
        if m == 1.0 {
            return Ok(Domain::One);
        }
        if m == f64::NEG_INFINITY {
            return Ok(Domain::Bottom);
        }
        if m < 0.0 {
            return Ok(Domain::Negative);
        }
        Ok(Domain::Unit)
    }
}
