// The complete integral of the third kind, Π(n, m) = ∫ dϑ / ((1 - n sin²ϑ) √(1 - m sin²ϑ)) from 0 to π/2 (DLMF 19.2.8).
// Domain: m ≤ 1, n ≠ 1; for n > 1 Cauchy's principal value. Arms and order of operations: ellippi.rs.
#![tactic(auto)]

ghost use Rattle.std.specs.Prelude.{◌≡◌, ◌≤◌, ◌+◌};
ghost use Rattle.ellippi.specs.Ellippi.{plain_term, from_rest_of, principal_of, weight_of, both_below_of, first_below_of, first_zero_of, diagonal_of, arms_of, counted_of};

use answer::{Answer, Characteristic, Counted, Parameter, Refusal, Term, settled, unasked};
use carlson::Outcome;
use incomplete::HALF_PI;
use legendre::{complete_e, complete_k};
use rj::{rj, with_rf};

// A formula that asks no recipe.
fn plain_term(value: f64) -> Term
    ensures { result ≡ plain_term value }
{
    Term {
        value,
        met: true,
        rounds: 0,
    }
}

// A value formed of what RJ gave.
fn of_rj(j: Outcome, value: f64) -> Term
    requires { (j.rounds ≤ 64) × (j.inside ≤ 4096) }
    ensures { result ≡ record { value = value; met = j.met; rounds = j.rounds + j.inside } }
{
    Term {
        value,
        met: j.met,
        rounds: j.rounds + j.inside,
    }
}

// `ellippi_vc`: `rest` is 1 - n.
fn from_rest(n: f64, m: f64, rest: f64) -> Term
    ensures { result ≡ from_rest_of n m rest }
{
    let (f, j) = with_rf(0.0, 1.0 - m, 1.0, rest);
    Term {
        value: f.value + n * j.value / 3.0,
        met: f.met & j.met,
        rounds: f.rounds + j.rounds + j.inside,
    }
}

fn principal(n: f64, m: f64) -> Term
    ensures { result ≡ principal_of n m }
{
    let j = rj(0.0, 1.0 - m, 1.0, 1.0 - m / n);
    of_rj(j, -(1.0 / 3.0) * m / n * j.value)
}

// 2^500: the square of a number above 2^511 is no f64.
const FAR: f64 = 3.273390607896142e150;

fn weight(n: f64, rn: f64, rm: f64) -> f64
    ensures { result ≡ weight_of n rn rm }
{
    if rn > FAR {
        return -n / rn * (rm / 3.0 / rn);
    }
    (-n) * rm / (3.0 * rn * rn)
}

fn both_below(n: f64, m: f64) -> Term
    ensures { result ≡ both_below_of n m }
{
    if m == n {
        let e = complete_e(m);
        return plain_term(e / (1.0 - m));
    }
    let rn = 1.0 - n;
    let rm = 1.0 - m;
    let k = complete_k(m);
    let w = weight(n, rn, rm);
    let j = rj(0.0, rm, 1.0, rm / rn);
    of_rj(j, k / rn + w * j.value)
}

fn first_below(n: f64, m: f64) -> Term
    ensures { result ≡ first_below_of n m }
{
    let t = from_rest((m - n) / (1.0 - n), m, (1.0 - m) / (1.0 - n));
    let a = t.value * -n / (1.0 - n);
    let b = a * (1.0 - m) / (m - n);
    let k = complete_k(m);
    Term {
        value: b + k * m / (m - n),
        ..t
    }
}

fn first_zero(m: f64) -> Term
    ensures { result ≡ first_zero_of m }
{
    if m == 0.0 {
        return plain_term(HALF_PI);
    }
    let k = complete_k(m);
    plain_term(k)
}

fn diagonal(m: f64) -> Term
    ensures { result ≡ diagonal_of m }
{
    let e = complete_e(m);
    plain_term(1.0 / (1.0 - m) * e)
}

fn arms(n: f64, m: f64) -> Term
    ensures { result ≡ arms_of n m }
{
    if n > 1.0 {
        return principal(n, m);
    }
    if (n < 0.0) & (m < 0.0) {
        return both_below(n, m);
    }
    if n < 0.0 {
        return first_below(n, m);
    }
    if n == 0.0 {
        return first_zero(m);
    }
    if m == n {
        return diagonal(m);
    }
    from_rest(n, m, 1.0 - n)
}

// The answer, and the rounds of all recipes asked for it.
pub fn ellippi(n: Characteristic, m: Parameter) -> Counted
    ensures { result ≡ counted_of n.0 m.0 }
{
    let n = n.0;
    let m = m.0;
    if n.is_nan() | m.is_nan() {
        return unasked(Err(Refusal::NotANumber));
    }
    if m > 1.0 {
        return unasked(Err(Refusal::AboveOne));
    }
    if n == 1.0 {
        return unasked(Err(Refusal::CharacteristicOne));
    }
    if m == 1.0 {
        return unasked(Ok(Answer::Infinite(1.0 - n < 0.0)));
    }
    if (n == f64::NEG_INFINITY) | (m == f64::NEG_INFINITY) {
        return unasked(Ok(Answer::One(0.0)));
    }
    let t = arms(n, m);
    Counted {
        answer: settled(t.met, t.value),
        rounds: t.rounds,
    }
}
