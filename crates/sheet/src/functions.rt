// The functions by their numbers (01, "The leg sheet", and 02): the one file that knows them.
ghost use Rattle.std.specs.Prelude.{◌≡◌};
ghost use Rattle.sheet.specs.Functions.{counted_of, evaluate_of, used_of};

use answer::{Amplitude, Answer, Characteristic, Counted, Parameter, Refusal, unasked};

// How many of the three arguments the function of this number reads.
#[tactic(auto, unfolding(crate::specs::Functions::used_of))]
pub fn used(function: u8) -> u8
    ensures { result ≡ used_of function }
{
    match function {
        0 => 0,
        1..=3 => 1,
        _ => 2,
    }
}

// The function of this number at its arguments' bit patterns, which stand in the Rust's order, and the rounds of all recipes asked for it.
// Function 0, a blank row, has two zeros for its answers.
pub fn counted(function: u8, a: u64, b: u64, c: u64) -> Counted
    ensures { result ≡ counted_of function a b c }
{
    let x = bits::from_pattern(a);
    let y = bits::from_pattern(b);
    match function {
        0 => unasked(Ok(Answer::One(0.0))),
        1 => unasked(legendre::ellipk(Parameter(x))),
        2 => unasked(legendre::ellipe(Parameter(x))),
        3 => unasked(legendre::ellipke(Parameter(x))),
        4 => ellippi::ellippi(Characteristic(x), Parameter(y)),
        5 => ellipeinc::ellipeinc(Amplitude(x), Parameter(y)),
        6 => ellipf::ellipf(Amplitude(x), Parameter(y)),
        _ => unasked(Err(Refusal::NoSuchFunction)),
    }
}

// The answer alone.
pub fn evaluate(function: u8, a: u64, b: u64, c: u64) -> Result<Answer, Refusal>
    ensures { result ≡ evaluate_of function a b c }
{
    counted(function, a, b, c).answer
}
