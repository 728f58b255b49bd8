// Cosine of |x| up to 4 by itself (01, module 2). NaN is refusal 1, any other x 12.
#![tactic(auto)]

ghost use Rattle.std.specs.Prelude.{◌≡◌};
ghost use Rattle.angle.specs.Series.{CosineWithin, UpToOne};
ghost use Rattle.angle.specs.Cosine.{cosine_of};

use answer::{Answer, Refusal};

// Within 2^-52 of 1 - x^2/2! + .. - x^42/42!, never above 1, and even.
pub fn cosine(x: f64) -> Result<Answer, Refusal>
    ensures { (result ≡ cosine_of x) × CosineWithin 46 x result × CosineWithin 52 x result × UpToOne result }
{
    let a = angle::view(x)?;
    Ok(Answer::One(angle::cosine_by(a.square)))
}
