// What ellippi, ellipeinc and ellipf share: sine and cosine as numbers in a formula, and the period reduction of ellipeinc.rs and ellipf.rs.
#![tactic(auto)]

ghost use Rattle.std.specs.Prelude.{◌≡◌};
ghost use Rattle.answer.specs.Answer.{value_of};
ghost use Rattle.angle.specs.Sine.{sine_of};
ghost use Rattle.angle.specs.Cosine.{cosine_of};
ghost use Rattle.incomplete.specs.Period.{folded_of};
ghost use Rattle.incomplete.specs.Scaling.{large_of};

pub const PI: f64 = std::f64::consts::PI;

pub const HALF_PI: f64 = std::f64::consts::FRAC_PI_2;

// 2^52: a larger |φ| is not reduced.
pub const FAR_OUT: f64 = 4503599627370496.0;

// 2^200: from there on what the recipes are asked is divided by 4^256, and what they give by its root or as the formula has it.
const HUGE: f64 = 1.6069380442589903e60;

pub const SCALE: f64 = 1.3407807929942597e154;

pub const ROOT_OF_SCALE: f64 = 1.157920892373162e77;

// Sine and cosine as a formula goes on with them: NaN for a refusal, the file's `unwrap_or(nan!())`.
pub fn sine(x: f64) -> f64
    ensures { result ≡ value_of (sine_of x) }
{
    answer::value(angle::sine(x))
}

// The point of the unit circle at an angle.
#[derive(Clone, Copy)]
pub struct Point {
    pub sine: f64,
    pub cosine: f64,
}

pub fn on_circle(x: f64) -> Point
    ensures { (result.sine ≡ value_of (sine_of x)) × (result.cosine ≡ value_of (cosine_of x)) }
{
    let both = angle::sine_cosine(x);
    Point {
        sine: answer::value(both.sine),
        cosine: answer::value(both.cosine),
    }
}

// |φ| = mm·π/2 + s·angle, angle within a quarter period.
#[derive(Clone, Copy)]
pub struct Fold {
    pub angle: f64,
    pub mm: f64,
    pub s: f64,
}

pub fn folded(size: f64) -> Fold
    ensures { result ≡ folded_of size }
{
    let rest = remainder::remainder(size, HALF_PI);
    let mm = whole::round((size - rest) / HALF_PI);
    let odd = remainder::remainder(mm, 2.0);
    if odd > 0.5 {
        return Fold {
            angle: HALF_PI - rest,
            mm: mm + 1.0,
            s: -1.0,
        };
    }
    Fold {
        angle: rest,
        mm,
        s: 1.0,
    }
}

// Whether c or |m| is so large that the recipes want their arguments scaled.
pub fn large(m: f64, c: f64) -> bool
    ensures { result ≡ large_of m c }
{
    let size = whole::magnitude(m);
    (c > HUGE) | (size > HUGE)
}
