// The square root (01, module 1; IEEE 754-2019, 5.4.1), digit by digit: shifts, additions, subtractions and choices, and no branch on a digit.
//
// The digits of x are moved up to 56 or 57 places, so that what is left of its exponent is even, and 51 zeros follow
// them: the root of that number, n, has 54 digits, one more than an f64. Say that q has those down to the place s, and zeros
// below. Then 8(n - q·q) is `rest` times s: with each digit s halves and the rest doubles, so that one word holds it to the
// end. The next digit, at s/2, adds s(8q + 2s)/8 to the square: it is 1 where `next`, 8q + 2s, can be taken from the rest.
// The 54th digit rounds: up where it is 1. There is no tie, since the root is then no whole number: n is even, and an odd square is not.
#![tactic(auto)]

ghost use Rattle.std.specs.Prelude.{◌≡◌, ℕ, ◌+◌, ◌*◌, ◌^◌, ◌<◌, ◌≤◌, Float};
ghost use Rattle.root.specs.Root.{root_of, whole_root};
ghost use Rattle.root.specs.Steps.{Tried, Moving, Aligned, Readied};

use bits::Parts;

// A float's digits moved up to 56 or 57 places, so that the rest of its exponent is even. The root of digits * 2^51 then has
// 54 places; times 2^half it is no larger than an f64.
#[derive(Clone, Copy)]
struct Radicand {
    digits: u64,
    half: u64,
    ghost least: { 2 ^ 55 ≤ digits },
    ghost most: { digits < 2 ^ 57 },
    ghost scale: { half ≤ 1600 },
}

// The rest, and the trial for the next digit.
#[derive(Clone, Copy)]
struct Trial {
    rest: u64,
    next: u64,
}

// What that digit adds to the trial: 3s for a 1, and for a 0 less than nothing, -s, kept as 2^64 - s. It is the same for every number.
#[derive(Clone, Copy)]
struct Moves {
    up: u64,
    down: u64,
}

// Half of a number below nothing, kept as 2^64 - s: its highest place stays 1. (So written it is one shift of the processor, which fills up with the highest place.)
fn negative_half(down: u64) -> u64
    ensures { (s : ℕ) → s ≤ 2 ^ 62 → down + 2 * s ≡ 2 ^ 64 → result + s ≡ 2 ^ 64 }
{
    let below = std::num::wrapping_sub_u64(down, 0x8000_0000_0000_0000);
    std::num::wrapping_sub_u64(below >> 1, 0x4000_0000_0000_0000)
}

fn halved(m: Moves) -> Moves
    ensures { (s : ℕ) → Moving (2 * s) m.up m.down → Moving s result.up result.down }
{
    Moves {
        up: m.up >> 1,
        down: negative_half(m.down),
    }
}

// One more binary digit of the root. It is 0 where taking the trial away would borrow: a choice, and not a branch, which
// would be guessed wrong at every other digit. `up` and `down` are kept, and not made of s, so that a digit costs the next
// one a subtraction, a choice and an addition.
fn step(p: Trial, m: Moves) -> Trial
    ensures { (n s : ℕ) → Tried n (2 * s) p.rest p.next → Moving (2 * s) m.up m.down → Tried n s result.rest result.next }
{
    let left = std::num::wrapping_sub_u64(p.rest, p.next);
    let borrow = left >> 63;
    let rest = if borrow == 1 { p.rest } else { left };
    let more = if borrow == 1 { m.down } else { m.up };
    Trial {
        rest: rest << 1,
        next: std::num::wrapping_add_u64(p.next, more),
    }
}

// Of the 54 digits the first is 1: s is 2^53, and so is q.
fn first_trial(r: Radicand) -> Trial
    ensures { Tried (r.digits * 2 ^ 54) (2 ^ 53) result.rest result.next }
{
    Trial {
        rest: (r.digits - 0x80_0000_0000_0000) << 1,
        next: 0x140_0000_0000_0000,
    }
}

fn first_moves() -> Moves
    ensures { Moving (2 ^ 53) result.up result.down }
{
    Moves {
        up: 0x60_0000_0000_0000,
        down: 0xffe0_0000_0000_0000,
    }
}

// The last needs no trial after it.
fn last_digit(p: Trial) -> u64
    ensures { (m : ℕ) → Tried (m * 2 ^ 54) 2 p.rest p.next → result ≡ whole_root (m * 2 ^ 51) }
{
    let left = std::num::wrapping_sub_u64(p.rest, p.next);
    (p.next >> 3) + 1 - (left >> 63)
}

// The digits between the first and the last.
const TRIED: u64 = 52;

// The root of its digits * 2^51.
fn digits(r: Radicand) -> u64
    ensures { result ≡ whole_root (r.digits * 2 ^ 51) }
{
    let mut p = first_trial(r);
    let mut m = first_moves();
    for _ in 0..TRIED {
        p = step(p, m);
        m = halved(m);
    }
    last_digit(p)
}

#[derive(Clone, Copy)]
struct ThreeDigits {
    x: u64,
    y: u64,
    z: u64,
}

// Kept: over an array of numbers the loop over the digits would hold a loop over the numbers, no plainer than these three lines.
// Those of three numbers. A digit waits for the one before it in the same number, and not for the others': so the processor works on all three at once.
fn digits_of_three(x: Radicand, y: Radicand, z: Radicand) -> ThreeDigits
    ensures { (result.x ≡ whole_root (x.digits * 2 ^ 51)) × (result.y ≡ whole_root (y.digits * 2 ^ 51)) × (result.z ≡ whole_root (z.digits * 2 ^ 51)) }
{
    let mut a = first_trial(x);
    let mut b = first_trial(y);
    let mut c = first_trial(z);
    let mut m = first_moves();
    for _ in 0..TRIED {
        a = step(a, m);
        b = step(b, m);
        c = step(c, m);
        m = halved(m);
    }
    ThreeDigits {
        x: last_digit(a),
        y: last_digit(b),
        z: last_digit(c),
    }
}

// x counts in 2^-1074, and 51 zeros follow its digits.
const SPARE: u64 = 1074 - 51;

fn aligned(p: Parts) -> Radicand
    requires { 0 < p.digits }
    ensures { Aligned p.digits p.exponent result.digits result.half }
{
    // all but subnormals have 53 digits
    if p.digits >= 0x10_0000_0000_0000 {
        return Radicand {
            digits: p.digits << (3 + (p.exponent & 1)),
            half: (p.exponent + SPARE - 3) >> 1,
        };
    }
    let zeros = u64::leading_zeros(p.digits) as u64;
    let shift = zeros - 7 - ((p.exponent + zeros) & 1);
    Radicand {
        digits: p.digits << shift,
        half: (p.exponent + SPARE - shift) >> 1,
    }
}

// What the digits are worked out of. Where x has no digits of a root the root is `settled`, and any radicand may stand for its own.
#[derive(Clone, Copy)]
struct Ready {
    settled: Option<f64>,
    radicand: Radicand,
}

fn settled(value: f64) -> Ready
    ensures { (x : Float) → value ≡ root_of x → Readied x result.settled result.radicand.digits result.radicand.half }
{
    Ready {
        settled: Some(value),
        radicand: Radicand {
            digits: 0x80_0000_0000_0000,
            half: 0,
        },
    }
}

const NAN: u64 = 0x7ff8_0000_0000_0000;

fn made_ready(x: f64) -> Ready
    ensures { Readied x result.settled result.radicand.digits result.radicand.half }
{
    if x > 0.0 {
        let Some(p) = bits::parts(x) else {
            return settled(x);
        };
        return Ready {
            settled: None,
            radicand: aligned(p),
        };
    }
    if x < 0.0 {
        return settled(bits::from_pattern(NAN));
    }
    settled(x) // a zero, with its sign, or NaN
}

// The root is neither subnormal nor too large, so its pattern is one sum: the leading one of its 53 digits adds 1 to the exponent's field, and a carry to 2^53 adds 2.
fn finished(r: Ready, digits: u64) -> f64
    requires { digits ≡ whole_root (r.radicand.digits * 2 ^ 51) }
    ensures { (x : Float) → Readied x r.settled r.radicand.digits r.radicand.half → result ≡ root_of x }
{
    match r.settled {
        Some(value) => value,
        None => f64::from_bits(((r.radicand.half + 1) << 52) + ((digits + 1) >> 1)),
    }
}

pub fn root(x: f64) -> f64
    ensures { result ≡ root_of x }
{
    let r = made_ready(x);
    match r.settled {
        Some(value) => value,
        None => finished(r, digits(r.radicand)),
    }
}

#[derive(Clone, Copy)]
pub struct ThreeRoots {
    pub x: f64,
    pub y: f64,
    pub z: f64,
}

// The roots of three numbers, which take less time together than one after the other.
pub fn three(x: f64, y: f64, z: f64) -> ThreeRoots
    ensures { (result.x ≡ root_of x) × (result.y ≡ root_of y) × (result.z ≡ root_of z) }
{
    let a = made_ready(x);
    let b = made_ready(y);
    let c = made_ready(z);
    let d = digits_of_three(a.radicand, b.radicand, c.radicand);
    ThreeRoots {
        x: finished(a, d.x),
        y: finished(b, d.y),
        z: finished(c, d.z),
    }
}
