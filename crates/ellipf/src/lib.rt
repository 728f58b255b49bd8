// The incomplete integral of the first kind, F(φ, m) = ∫ dϑ / √(1 - m sin²ϑ) from 0 to φ (DLMF 19.2.4).
// Domain: m sin²φ < 1; m < 1 where |φ| reaches π/2. Branches and order of operations: ellipf.rs.
#![tactic(auto)]

ghost use Rattle.std.specs.Prelude.{◌≡◌};
ghost use Rattle.ellipf.specs.Ellipf.{signum_of, pole_of, far_of, middle_of, recipe_of, closed_of, with_periods_of, reduced_of, counted_of};

use answer::{
    Amplitude, Answer, Counted, Parameter, Refusal, Term, handed, infinite, settled, unasked,
};
use carlson::Outcome;
use incomplete::{FAR_OUT, HALF_PI, ROOT_OF_SCALE, SCALE, folded, large, on_circle, sine};
use rf::rf;

// 1/φ tells -0 from +0.
fn signum(phi: f64) -> f64
    ensures { result ≡ signum_of phi }
{
    if (phi < 0.0) | ((phi == 0.0) & (1.0 / phi < 0.0)) {
        -1.0
    } else {
        1.0
    }
}

// Sine is asked only of |φ| < π/2.
fn hides_pole(phi: f64, m: f64) -> bool
    ensures { result ≡ pole_of phi m }
{
    if !(m >= 1.0) {
        return false;
    }
    if whole::magnitude(phi) >= HALF_PI {
        return true;
    }
    let s = sine(phi);
    m * (s * s) >= 1.0
}

fn far(sign: f64, size: f64, m: f64) -> Result<Answer, Refusal>
    ensures { result ≡ far_of sign size m }
{
    if size == f64::INFINITY {
        return handed(sign * f64::INFINITY);
    }
    let k = legendre::k_unchecked(Parameter(m));
    handed(sign * size * (k / HALF_PI))
}

// c - m, by way of c1 = c - 1 where the difference would cancel.
fn middle(m: f64, c: f64, c1: f64) -> f64
    ensures { result ≡ middle_of m c c1 }
{
    let cross = whole::magnitude(c / m);
    if (cross > 0.9) & (cross < 1.1) {
        return c1 + 1.0 - m;
    }
    c - m
}

// A value formed of what RF gave.
fn of_rf(f: Outcome, value: f64) -> Term
    ensures { result ≡ record { value = value; met = f.met; rounds = f.rounds } }
{
    Term {
        value,
        met: f.met,
        rounds: f.rounds,
    }
}

fn recipe(s: f64, m: f64, sine: f64, cosine: f64) -> Term
    ensures { result ≡ recipe_of s m sine cosine }
{
    let s2 = sine * sine;
    let c2 = cosine * cosine;
    let c = 1.0 / s2;
    if infinite(c) {
        let f = rf(c2, 1.0 - m * sine * sine, 1.0);
        return of_rf(f, s * sine * f.value);
    }
    let c1 = c2 / s2;
    let y = middle(m, c, c1);
    if large(m, c) {
        let f = rf(c1 / SCALE, y / SCALE, c / SCALE);
        return of_rf(f, s * (f.value / ROOT_OF_SCALE));
    }
    let f = rf(c1, y, c);
    of_rf(f, s * f.value)
}

// F(φ, -∞) is 0 where there is no finite answer.
fn closed(m: f64, t: Term) -> Result<Answer, Refusal>
    ensures { result ≡ closed_of m t.met t.value }
{
    let lost = !t.met | (t.value.is_nan() | infinite(t.value));
    if (m == f64::NEG_INFINITY) & lost {
        return Ok(Answer::One(0.0));
    }
    settled(t.met, t.value)
}

fn with_periods(sign: f64, m: f64, mm: f64, t: Term) -> Result<Answer, Refusal>
    ensures { result ≡ with_periods_of sign m mm t }
{
    if mm != 0.0 {
        let k = legendre::k_unchecked(Parameter(m));
        let value = sign * (t.value + mm * k);
        return closed(m, Term { value, ..t });
    }
    let value = sign * t.value;
    closed(m, Term { value, ..t })
}

fn reduced(sign: f64, size: f64, m: f64) -> Counted
    ensures { result ≡ reduced_of sign size m }
{
    let f = folded(size);
    let p = on_circle(f.angle);
    let s = p.sine;
    if m * (s * s) >= 1.0 {
        return unasked(Err(Refusal::Beyond));
    }
    let t = recipe(f.s, m, s, p.cosine);
    Counted {
        answer: with_periods(sign, m, f.mm, t),
        rounds: t.rounds,
    }
}

// The answer, and the rounds of the recipe asked for it.
pub fn ellipf(phi: Amplitude, m: Parameter) -> Counted
    ensures { result ≡ counted_of phi.0 m.0 }
{
    let phi = phi.0;
    let m = m.0;
    if phi.is_nan() | m.is_nan() {
        return unasked(Err(Refusal::NotANumber));
    }
    if m == 0.0 {
        return unasked(handed(phi));
    }
    if hides_pole(phi, m) {
        return unasked(Err(Refusal::Beyond));
    }
    let sign = signum(phi);
    let size = whole::magnitude(phi);
    if size > FAR_OUT {
        return unasked(far(sign, size, m));
    }
    reduced(sign, size, m)
}
