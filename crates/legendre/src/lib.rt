// Complete elliptic integrals of the first and second kind, K(m) and E(m), for m ≤ 1 (01, modules 3 and 4; crate ellip 1.2.3).
// NaN is refusal 1 and m > 1 refusal 2. k.rt, e.rt and ke.rt are what ellipk.rs, ellipe.rs and ellipke.rs do below 1; the crate pieces has their tables.
#![tactic(auto)]

ghost use Rattle.std.specs.Prelude.{◌≡◌};
ghost use Rattle.answer.specs.Answer.{value_of};
ghost use Rattle.legendre.specs.Ellipk.{k_unchecked_of, ellipk_of};
ghost use Rattle.legendre.specs.Ellipe.{ellipe_of};
ghost use Rattle.legendre.specs.Ellipke.{ellipke_of};

use crate::domain::Domain;
use crate::e::{e_below_one, e_negative};
use crate::k::{k_below_one, k_mean};
use crate::ke::{both_below_one, both_negative, pair};
use answer::{Answer, Parameter, Refusal};

mod domain;
mod e;
mod k;
mod ke;
mod mean;

// 2^-26, the root of the distance from 1 to the next f64, exactly
const ROOT_EPSILON: f64 = 1.490116119384765625e-8;

// K(m), DLMF 19.2.8: K(1) = ∞, K(-∞) = 0.
pub fn ellipk(m: Parameter) -> Result<Answer, Refusal>
    ensures { result ≡ ellipk_of m.0 }
{
    let m = m.0;
    let place = Domain::of(m)?;
    match place {
        Domain::One => Ok(Answer::Infinite(false)),
        Domain::Bottom => Ok(Answer::One(0.0)),
        Domain::Negative => Ok(Answer::One(k_mean(root::root(1.0 - m)))),
        Domain::Unit => Ok(Answer::One(k_below_one(m))),
    }
}

// `ellipk_precise_unchecked` of ellipk.rs, as ellipf.rs calls it: the mean for any m, and no test. NaN for m > 1 and at -∞.
pub fn k_unchecked(m: Parameter) -> f64
    ensures { result ≡ k_unchecked_of m.0 }
{
    k_mean(root::root(1.0 - m.0))
}

// E(m), DLMF 19.2.8: E(1) = 1, E(-∞) = ∞.
pub fn ellipe(m: Parameter) -> Result<Answer, Refusal>
    ensures { result ≡ ellipe_of m.0 }
{
    let m = m.0;
    let place = Domain::of(m)?;
    match place {
        Domain::One => Ok(Answer::One(1.0)),
        Domain::Bottom => Ok(Answer::Infinite(false)),
        Domain::Negative => Ok(Answer::One(e_negative(m))),
        Domain::Unit => Ok(Answer::One(e_below_one(m))),
    }
}

// K(m) and E(m) together, a Pair always: (∞, 1) at 1, (0, ∞) at -∞. Its bits are not those of the two functions alone.
pub fn ellipke(m: Parameter) -> Result<Answer, Refusal>
    ensures { result ≡ ellipke_of m.0 }
{
    let m = m.0;
    let place = Domain::of(m)?;
    match place {
        Domain::One => Ok(Answer::Pair(f64::INFINITY, 1.0)),
        Domain::Bottom => Ok(Answer::Pair(0.0, f64::INFINITY)),
        Domain::Negative => pair(both_negative(m)),
        Domain::Unit => pair(both_below_one(m)),
    }
}

// K(m) and E(m) as a formula goes on with them: NaN for a refusal, the file's `unwrap_or(nan!())`.
pub fn complete_k(m: f64) -> f64
    ensures { result ≡ value_of (ellipk_of m) }
{
    answer::value(ellipk(Parameter(m)))
}

pub fn complete_e(m: f64) -> f64
    ensures { result ≡ value_of (ellipe_of m) }
{
    answer::value(ellipe(Parameter(m)))
}
