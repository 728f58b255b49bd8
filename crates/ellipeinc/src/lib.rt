// The incomplete integral of the second kind, E(φ, m) = ∫ √(1 - m sin²ϑ) dϑ from 0 to φ (DLMF 19.2.5).
// Domain: m sin²φ < 1; m ≤ 1 where φ reaches beyond a quarter period. Steps are 01's, with 02's [7]; order of operations: ellipeinc.rs.
#![tactic(auto)]

ghost use Rattle.std.specs.Prelude.{◌≡◌, ◌≤◌, ◌+◌, ◌&&◌};
ghost use Rattle.whole.specs.Whole.{magnitude_of};
ghost use Rattle.ellipeinc.specs.Ellipeinc.{sign_of, itself_of, far_of, line_of, own_of, two_terms_from, two_terms_of, trusted_terms_of, below_of, above_of, recipe_of, with_periods_of, by_recipe_of, reduced_of, on_size_of, counted_of};

use answer::{Amplitude, Answer, Counted, Parameter, Refusal, Term, handed, unasked};
use carlson::{Outcome, trusted};
use incomplete::{FAR_OUT, Fold, PI, ROOT_OF_SCALE, SCALE, folded, large, on_circle, sine};
use legendre::complete_e;
use rd::with_rf;

// 2^12
const CANCELLING: f64 = 4096.0;

fn itself(phi: f64) -> Result<Answer, Refusal>
    ensures { result ≡ itself_of phi }
{
    if phi.is_nan() {
        return Err(Refusal::NotANumber);
    }
    handed(phi)
}

// The file's `m.is_finite()` changes nothing: an infinite m times an angle above 0 is no small product.
fn own(angle: f64, m: f64) -> bool
    ensures { result ≡ own_of angle m }
{
    (angle == 0.0) | (whole::magnitude(m) * angle * angle < 2.220446049250313e-16)
}

// A value formed of what RF and RD gave.
fn both(f: Outcome, d: Outcome, value: f64) -> Term
    requires { (f.rounds ≤ 64) × (d.rounds ≤ 64) }
    ensures { result ≡ record { value = value; met = f.met && d.met; rounds = f.rounds + d.rounds } }
{
    Term {
        value,
        met: f.met & d.met,
        rounds: f.rounds + d.rounds,
    }
}

// The two terms; v is RD's value as it is taken.
fn terms_from(m: f64, f: Outcome, d: Outcome, v: f64) -> Term
    requires { (f.rounds ≤ 64) × (d.rounds ≤ 64) }
    ensures { result ≡ two_terms_from m f d v }
{
    both(f, d, f.value - m * v / 3.0)
}

fn two_terms(m: f64, c: f64, c1: f64) -> Term
    ensures { result ≡ two_terms_of m c c1 }
{
    let (f, d) = with_rf(c1, c - m, c);
    terms_from(m, f, d, d.value)
}

// Of arguments that were scaled, RD's value is tested. Where nothing is scaled they are at most 2^201, and no term of RD can be lost for want of range.
fn trusted_terms(m: f64, c: f64, c1: f64) -> Term
    ensures { result ≡ trusted_terms_of m c c1 }
{
    let (f, d) = with_rf(c1, c - m, c);
    let v = trusted(d.value);
    terms_from(m, f, d, v)
}

// Both terms are positive for m < 0, and above CANCELLING their difference keeps its digits. Far out RD's own value is no f64, so the scaling stands here and not in RD.
fn below(m: f64, c: f64, c1: f64) -> Term
    ensures { result ≡ below_of m c c1 }
{
    if large(m, c) | (m > CANCELLING) {
        let t = trusted_terms(m / SCALE, c / SCALE, c1 / SCALE);
        return Term {
            value: t.value / ROOT_OF_SCALE,
            ..t
        };
    }
    two_terms(m, c, c1)
}

fn above(m: f64, c: f64, c1: f64) -> Term
    ensures { result ≡ above_of m c c1 }
{
    let (f, d) = with_rf(c1, c, c - m);
    let t = root::root(c1 / (c * (c - m)));
    both(
        f,
        d,
        (1.0 - m) * f.value + m * (1.0 - m) * d.value / 3.0 + m * t,
    )
}

fn recipe(m: f64, s2: f64, c2: f64) -> Term
    ensures { result ≡ recipe_of m s2 c2 }
{
    if (m < 0.0) | (m > CANCELLING) {
        return below(m, 1.0 / s2, c2 / s2);
    }
    above(m, 1.0 / s2, c2 / s2)
}

// φ as its sign, ±1, and |φ|.
#[derive(Clone, Copy)]
struct Signed {
    sign: f64,
    size: f64,
}

impl Signed {
    fn of(phi: f64) -> Signed
        ensures { result ≡ record { sign = sign_of phi; size = magnitude_of phi } }
    {
        let size = whole::magnitude(phi);
        if phi < 0.0 {
            return Signed { sign: -1.0, size };
        }
        Signed { sign: 1.0, size }
    }

    // Step 5.
    fn far(self, m: f64) -> Result<Answer, Refusal>
        ensures { result ≡ far_of self.sign self.size m }
    {
        if m > 1.0 {
            return Err(Refusal::AboveOne);
        }
        let e = complete_e(m);
        handed(self.sign * (self.size * (2.0 * e / PI)))
    }

    // Step 7.
    fn line(self) -> Result<Answer, Refusal>
        ensures { result ≡ line_of self.sign self.size }
    {
        let mm = whole::round(self.size / PI);
        let s = sine(self.size - mm * PI);
        handed(self.sign * (2.0 * mm + s))
    }

    // The refusals that come with a period term, the term itself, and the sign.
    fn with_periods(self, m: f64, mm: f64, t: Term) -> Result<Answer, Refusal>
        ensures { result ≡ with_periods_of self.sign m mm t.met t.value }
    {
        if (mm != 0.0) & (m > 1.0) {
            return Err(Refusal::AboveOne);
        }
        if !t.met {
            return Err(Refusal::Unmet);
        }
        if mm != 0.0 {
            let e = complete_e(m);
            return handed(self.sign * (t.value + mm * e));
        }
        handed(self.sign * t.value)
    }

    fn by_recipe(self, m: f64, f: Fold) -> Counted
        ensures { result ≡ by_recipe_of self.sign m f }
    {
        let p = on_circle(f.angle);
        let s = p.sine;
        let c = p.cosine;
        if m * (s * s) >= 1.0 {
            return unasked(Err(Refusal::Beyond));
        }
        let e = recipe(m, s * s, c * c);
        let t = Term {
            value: f.s * e.value,
            ..e
        };
        Counted {
            answer: self.with_periods(m, f.mm, t),
            rounds: t.rounds,
        }
    }

    // Step 8.
    fn reduced(self, m: f64) -> Counted
        ensures { result ≡ reduced_of self.sign self.size m }
    {
        let f = folded(self.size);
        if own(f.angle, m) {
            let t = Term {
                value: f.s * f.angle,
                met: true,
                rounds: 0,
            };
            return unasked(self.with_periods(m, f.mm, t));
        }
        self.by_recipe(m, f)
    }

    // Steps 5, 7 and 8.
    fn on_size(self, m: f64) -> Counted
        ensures { result ≡ on_size_of self.sign self.size m }
    {
        if self.size > FAR_OUT {
            return unasked(self.far(m));
        }
        if m == 1.0 {
            return unasked(self.line());
        }
        self.reduced(m)
    }
}

// The answer, and the rounds of all recipes asked for it.
pub fn ellipeinc(phi: Amplitude, m: Parameter) -> Counted
    ensures { result ≡ counted_of phi.0 m.0 }
{
    let phi = phi.0;
    let m = m.0;
    if phi == 0.0 {
        return unasked(Ok(Answer::One(0.0)));
    }
    if m == 0.0 {
        return unasked(itself(phi));
    }
    let a = Signed::of(phi);
    if a.size == f64::INFINITY {
        return unasked(Ok(Answer::Infinite(phi < 0.0)));
    }
    if phi.is_nan() & (m > 1.0) {
        return unasked(Err(Refusal::AboveOne));
    }
    if phi.is_nan() | m.is_nan() {
        return unasked(Err(Refusal::NotANumber));
    }
    if m == f64::NEG_INFINITY {
        return unasked(Ok(Answer::Infinite(phi < 0.0)));
    }
    a.on_size(m)
}
