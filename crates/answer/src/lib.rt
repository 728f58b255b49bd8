// What goes into an evaluation and what comes out of it (01, "Taken from the crate, and added").
#![tactic(auto)]

ghost use Rattle.std.specs.Prelude.{◌≡◌};
ghost use Rattle.answer.specs.Answer.{first, second, refusal_of, first_of, second_of, value_of};
ghost use Rattle.answer.specs.Numbers.{number, stored as Numbers·stored};
ghost use Rattle.answer.specs.Settle.{infinite_of, finite_of, settled_of, handed_of, unasked_of};

// The last function's number; above it is refusal 9.
pub const LAST: u8 = 6;

// Whether a row may store this refusal number; 0 is none.
pub fn stored(refusal: u8) -> bool
    ensures { result ≡ Numbers·stored refusal }
{
    refusal <= 6
}

// The three sorts of argument: a call that gives one where another belongs does not build.
#[derive(Clone, Copy)]
pub struct Amplitude(pub f64);

#[derive(Clone, Copy)]
pub struct Characteristic(pub f64);

#[derive(Clone, Copy)]
pub struct Parameter(pub f64);

// Why there is no answer, or why a call changes nothing (01 and 02); its number is the documents'.
#[derive(Clone, Copy, PartialEq, Eq)]
pub enum Refusal {
    // an argument is NaN
    NotANumber = 1,
    // m > 1
    AboveOne = 2,
    // m sin²φ ≥ 1
    Beyond = 3,
    // n = 1
    CharacteristicOne = 4,
    // a recipe's stop test, after 64 rounds
    Unmet = 5,
    NotFinite = 6,
    NotASheet = 7,
    NoSuchRow = 8,
    NoSuchFunction = 9,
    // the row to be replaced, or the counts
    Damaged = 10,
    TooManyRows = 11,
    // the logarithm's argument, or sine's and cosine's
    OutOfRange = 12,
    // the row counts of two sheets
    Unequal = 13,
    // a row that was driven other than once has no place in an old sheet
    DrivenOften = 17,
    // a line of text
    Malformed = 18,
    // function 1 is not entered any more
    Withdrawn = 22,
}

impl Refusal {
    // Kept: `r.number()` says what it gives, which `u8::from(r)` would not.
    pub fn number(self) -> u8
        ensures { result ≡ number self }
    {
        self as u8
    }
}

// One finite answer, a pair, or an infinity (true: -∞).
#[derive(Clone, Copy)]
pub enum Answer {
    One(f64),
    Pair(f64, f64),
    Infinite(bool),
}

impl Answer {
    // The value, or the first of a pair.
    pub fn first(self) -> f64
        ensures { result ≡ first self }
    {
        match self {
            Answer::One(x) => x,
            Answer::Pair(x, _) => x,
            Answer::Infinite(negative) => infinity(negative),
        }
    }

    // The second of a pair; +0 where there is none.
    pub fn second(self) -> f64
        ensures { result ≡ second self }
    {
        match self {
            Answer::Pair(_, y) => y,
            _ => 0.0,
        }
    }
}

// An answer read out: its refusal number, 0 where there is none, and its two values, +0 where there is none.
#[derive(Clone, Copy)]
pub struct Readout {
    // Kept: a row of a sheet (`row_bytes`) and `sm_evaluate` hold the refusal as this number.
    pub refusal: u8,
    pub first: f64,
    pub second: f64,
}

// The value of a formula over recipes; it counts only where each of them was met.
#[derive(Clone, Copy)]
pub struct Term {
    pub value: f64,
    // Kept: `KeptOrRefused` (scaling, `arms`) speaks of the value of every term, met or not, and the rounds of one that was not met count.
    pub met: bool,
    // the rounds of all recipes asked, those of the RC calls inside RJ too
    pub rounds: usize,
}

// An answer, and the rounds of all recipes that were asked for it.
#[derive(Clone, Copy)]
pub struct Counted {
    pub answer: Result<Answer, Refusal>,
    pub rounds: usize,
}

// ±∞; true is -∞.
pub fn infinity(negative: bool) -> f64
    ensures { result ≡ first (Answer.Infinite negative) }
{
    if negative {
        f64::NEG_INFINITY
    } else {
        f64::INFINITY
    }
}

pub fn read(answer: Result<Answer, Refusal>) -> Readout
    ensures { result ≡ record { refusal = refusal_of answer; first = first_of answer; second = second_of answer } }
{
    match answer {
        Ok(a) => Readout {
            refusal: 0,
            first: a.first(),
            second: a.second(),
        },
        Err(r) => Readout {
            refusal: r.number(),
            first: 0.0,
            second: 0.0,
        },
    }
}

// The first value, and NaN where the answer is a refusal: the Rust's `unwrap_or(nan!())`.
pub fn value(answer: Result<Answer, Refusal>) -> f64
    ensures { result ≡ value_of answer }
{
    match answer {
        Ok(a) => a.first(),
        Err(_) => f64::NAN,
    }
}

pub fn infinite(v: f64) -> bool
    ensures { result ≡ infinite_of v }
{
    v.is_infinite()
}

fn finite(v: f64) -> Result<Answer, Refusal>
    ensures { result ≡ finite_of v }
{
    if v.is_nan() | infinite(v) {
        return Err(Refusal::NotFinite);
    }
    Ok(Answer::One(v))
}

// A formula whose infinities are no answer: 5 where a recipe was not met, then 6.
pub fn settled(met: bool, v: f64) -> Result<Answer, Refusal>
    ensures { result ≡ settled_of met v }
{
    if !met {
        return Err(Refusal::Unmet);
    }
    finite(v)
}

// One whose infinities are: 6 for NaN alone.
pub fn handed(v: f64) -> Result<Answer, Refusal>
    ensures { result ≡ handed_of v }
{
    if v.is_nan() {
        return Err(Refusal::NotFinite);
    }
    if infinite(v) {
        return Ok(Answer::Infinite(v < 0.0));
    }
    Ok(Answer::One(v))
}

// An answer for which no recipe is asked.
pub fn unasked(answer: Result<Answer, Refusal>) -> Counted
    ensures { result ≡ unasked_of answer }
{
    Counted { answer, rounds: 0 }
}
