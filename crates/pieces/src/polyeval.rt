// Polynomials by their coefficients, lowest first (polyeval.rs).
ghost use Rattle.std.specs.Prelude.{◌≡◌, length};
ghost use Rattle.pieces.specs.Polyeval.{polyeval_of, paired_of, horner_of};

#[tactic(auto, unfolding(crate::specs::Polyeval::paired_of))]
fn paired(x: f64, c: &[f64]) -> f64
    requires { length c.now ≡ 12 }
    ensures { result ≡ paired_of x c.now }
{
    let x2 = x * x;
    let x4 = x2 * x2;
    let x8 = x4 * x4;
    let pair = |i: usize| c[i] + c[i + 1] * x;
    let q0 = pair(0) + pair(2) * x2;
    let q1 = pair(4) + pair(6) * x2;
    let q2 = pair(8) + pair(10) * x2;
    (q0 + q1 * x4) + q2 * x8
}

fn horner(x: f64, c: &[f64]) -> f64
    ensures { result ≡ horner_of x c.now }
{
    c.iter().rev().copied().fold(0.0, |sum, k| sum * x + k)
}

#[tactic(auto, unfolding(crate::specs::Polyeval::polyeval_of))]
pub(crate) fn polyeval(x: f64, c: &[f64]) -> f64
    ensures { result ≡ polyeval_of x c.now }
{
    if c.len() == 12 {
        return paired(x, c);
    }
    horner(x, c)
}
