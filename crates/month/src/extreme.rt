// The largest and the smallest finite first answer: the earliest of equal ones stays, and -0 is equal to +0.
ghost use Rattle.std.specs.Prelude.{◌≡◌, ℕ, Bool};
ghost use Rattle.laws.specs.Arithmetic.{float};
ghost use Rattle.month.specs.Month.{beyond, extreme_on};

use super::parts::{Extreme, FINITE, Share};

// The extreme, or the share's answer where `passes` says that it lies strictly beyond it.
pub(crate) fn extreme_on<F: Fn(f64, f64) -> bool>(
    extreme: Option<Extreme>,
    share: Share,
    passes: F,
) -> Option<Extreme>
    requires { F.IsAlwaysCallable passes }
    ensures { (top : Bool) → ((p q : ℕ) (b : Bool) → F.post passes (float p) (float q) b → b ≡ beyond top p q) → result ≡ extreme_on top extreme share }
{
    if share.class != FINITE {
        return extreme;
    }
    if let Some(held) = extreme {
        let next = bits::from_pattern(share.pattern);
        if !passes(bits::from_pattern(held.pattern), next) {
            return extreme;
        }
    }
    Some(Extreme {
        pattern: share.pattern,
        sheet: share.sheet,
        row: share.row,
    })
}
