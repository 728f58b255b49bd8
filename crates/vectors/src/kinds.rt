// What each kind of list is worked out by. A line holds the arguments' patterns, then the answer's.
ghost use Rattle.std.specs.Prelude.{◌<◌, ◌≤◌};

use crate::spelling::{MOST_WORDS, words_of};
use answer::{Answer, Refusal};
use carlson::Outcome;

#[derive(Clone, Copy)]
pub(crate) enum Kind {
    Magnitude,
    Trunc,
    Floor,
    Round,
    Root,
    Fused,
    Complete,
    Ellippi,
    Ellipeinc,
    Ellipf,
    Sine,
    Cosine,
    Logarithm,
    Remainder,
    Rf,
    Rc,
    Rd,
    Rj,
    Rounds,
    // No kind, and no line of it agrees.
    Unknown(u8),
}

// Whether a line's answer comes out again, and how much of its bound the answer uses, in millionths: less than
// this many, and 0 where it uses none or bits are compared.
// Kept: no Option, as the part counts for a line that differs too.
#[derive(Clone, Copy)]
pub(crate) struct Shown {
    pub same: bool,
    pub part: u64,
}

// Kept: `same` is what was found, and picks no step.
fn exact(same: bool) -> Shown {
    Shown { same, part: 0 }
}

// Rounded up; where the quotient is no number or beyond a word, twice the bound.
fn millionths(part: f64) -> u64 {
    let t = part * 1000000.0;
    if t > -1.0 {
        if t < 18446744073709551616.0 {
            return std::num::truncating_f64_to_u64(t).wrapping_add(1);
        }
    }
    2000000
}

// Kept: `good` is what was found, and picks no step.
fn within(good: bool, distance: f64, bound: f64) -> Shown {
    if distance == 0.0 {
        return exact(good);
    }
    let part = distance / bound;
    Shown {
        same: good & (part <= 1.0),
        part: millionths(part),
    }
}

// Bit for bit.
fn equal(x: f64, pattern: u64) -> Shown {
    exact(bits::to_pattern(x) == pattern)
}

// K and E: the first word is function and refusal; bit for bit, refusals too.
fn complete(w: &[u64; MOST_WORDS]) -> Shown {
    let function = (w[0] / 256 % 256) as u8;
    let z = answer::read(sheet::evaluate(function, w[1], 0, 0));
    exact(
        u64::from(z.refusal) == w[0] % 256
            && bits::to_pattern(z.first) == w[4]
            && bits::to_pattern(z.second) == w[5],
    )
}

// The first word is a function of the sheet, the last the rounds of all recipes asked for it.
fn rounds(w: &[u64; MOST_WORDS]) -> Shown {
    let function = (w[0] % 256) as u8;
    let z = sheet::counted(function, w[1], w[2], 0);
    exact(z.rounds as u64 == w[3])
}

// A function of the sheet, within 2^-36 of the reference, relative; a zero must be a zero.
fn near(function: u8, w: &[u64; MOST_WORDS]) -> Shown {
    let z = answer::read(sheet::evaluate(function, w[0], w[1], 0));
    let y = bits::from_pattern(w[2]);
    within(
        z.refusal == 0,
        whole::magnitude(z.first - y),
        whole::magnitude(y) * 1.4551915228366852e-11,
    )
}

// The reference is the sum of two floats, and its bound stands beside it.
fn bounded(answer: Result<Answer, Refusal>, w: &[u64; MOST_WORDS]) -> Shown {
    let z = answer::read(answer);
    let away = z.first - bits::from_pattern(w[1]) - bits::from_pattern(w[2]);
    within(
        z.refusal == 0,
        whole::magnitude(away),
        bits::from_pattern(w[3]),
    )
}

// The stop test met, and within 2^-48 of the reference, the line's last word, relative.
fn recipe(r: Outcome, last: u64) -> Shown {
    let y = bits::from_pattern(last);
    within(
        r.met,
        whole::magnitude(r.value - y),
        whole::magnitude(y) * 3.552713678800501e-15,
    )
}

impl Kind {
    // The kind of this number.
    pub(crate) fn numbered(n: u8) -> Kind {
        match n {
            1 => Kind::Magnitude,
            2 => Kind::Trunc,
            3 => Kind::Floor,
            4 => Kind::Round,
            5 => Kind::Root,
            6 => Kind::Fused,
            7 => Kind::Complete,
            8 => Kind::Ellippi,
            9 => Kind::Ellipeinc,
            10 => Kind::Ellipf,
            11 => Kind::Sine,
            12 => Kind::Cosine,
            13 => Kind::Logarithm,
            14 => Kind::Remainder,
            15 => Kind::Rf,
            16 => Kind::Rc,
            17 => Kind::Rd,
            18 => Kind::Rj,
            19 => Kind::Rounds,
            _ => Kind::Unknown(n),
        }
    }

    // The kind whose number the text is.
    pub(crate) fn of(text: &[u8]) -> Kind {
        let n = line::decimal(text).and_then(|n| u8::try_from(n).ok());
        Kind::numbered(n.unwrap_or(0))
    }

    // How many words a line of this kind has: a divisor of 3,840, so that a part of the list holds whole lines.
    pub(crate) fn words(self) -> usize
        ensures { (0 < result) × (result ≤ 6) }
    {
        match self {
            Kind::Magnitude | Kind::Trunc | Kind::Floor | Kind::Round | Kind::Root => 2,
            Kind::Remainder | Kind::Rc | Kind::Ellippi | Kind::Ellipeinc | Kind::Ellipf => 3,
            Kind::Rj => 5,
            Kind::Complete => 6,
            Kind::Unknown(0) => 2,
            _ => 4,
        }
    }

    // Whether the answer in these words comes out again.
    fn worked_out(self, w: &[u64; MOST_WORDS]) -> Shown {
        let x = bits::from_pattern(w[0]);
        let y = bits::from_pattern(w[1]);
        let z = bits::from_pattern(w[2]);
        match self {
            Kind::Magnitude => equal(whole::magnitude(x), w[1]),
            Kind::Trunc => equal(floor::trunc(x), w[1]),
            Kind::Floor => equal(floor::floor(x), w[1]),
            Kind::Round => equal(whole::round(x), w[1]),
            Kind::Root => equal(root::root(x), w[1]),
            Kind::Fused => equal(fused::fused(x, y, z), w[3]),
            Kind::Remainder => equal(remainder::remainder(x, y), w[2]),
            Kind::Complete => complete(w),
            Kind::Rounds => rounds(w),
            Kind::Ellippi => near(4, w),
            Kind::Ellipeinc => near(5, w),
            Kind::Ellipf => near(6, w),
            Kind::Sine => bounded(angle::sine(x), w),
            Kind::Cosine => bounded(cosine::cosine(x), w),
            Kind::Logarithm => bounded(logarithm::logarithm(x), w),
            Kind::Rc => recipe(rc::rc(x, y), w[2]),
            Kind::Rf => recipe(rf::rf(x, y, z), w[3]),
            Kind::Rd => recipe(rd::with_rf(x, y, z).1, w[3]),
            Kind::Rj => recipe(rj::rj(x, y, z, bits::from_pattern(w[3])), w[4]),
            Kind::Unknown(_) => exact(false),
        }
    }

    // Whether the line's answer comes out again; a line that does not read differs.
    pub(crate) fn agrees(self, line: &[u8]) -> Shown {
        if line.len() != 17 * self.words() {
            return exact(false);
        }
        words_of(line).map_or(exact(false), |w| self.worked_out(&w))
    }
}
