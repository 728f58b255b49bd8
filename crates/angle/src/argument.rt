// What sine and cosine see of their argument.
ghost use Rattle.std.specs.Prelude.{◌≡◌, ◌*◌, ◌^◌, ◌≤◌, MatchResult};
ghost use Rattle.angle.specs.Alternating.{square_of, Refuses, Viewed};

use super::series::scaled;
use answer::Refusal;
use bits::{Parts, parts};

// From 2^-7 on nothing of x is lost.
fn square(p: Parts) -> u64
    requires { (p.exponent ≤ 1024) × (p.digits * 2 ^ p.exponent ≤ 4 * 2 ^ 1074) }
    ensures { result ≡ square_of (p.digits * 2 ^ p.exponent) (2 ^ 1074) }
{
    let x = p.fixed(59);
    scaled(x, x)
}

// ± digits * 2^exponent smallest f64, at most 4, with its square.
#[derive(Clone, Copy)]
pub struct Angle {
    pub negative: bool,
    pub digits: u64,
    pub exponent: u64,
    pub square: u64,
}

pub fn view(x: f64) -> Result<Angle, Refusal>
    ensures { MatchResult result (λ a. Viewed x a.negative a.digits a.exponent a.square) (λ r. Refuses x r) }
{
    if x != x {
        return Err(Refusal::NotANumber);
    }
    match parts(x) {
        Some(p) if !((x > 4.0) | (x < -4.0)) => Ok(Angle {
            negative: p.negative,
            digits: p.digits,
            exponent: p.exponent,
            square: square(p),
        }),
        _ => Err(Refusal::OutOfRange),
    }
}
