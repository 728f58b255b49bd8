// A whole field.
ghost use Rattle.std.specs.Prelude.{◌≡◌, ℕ, ◌^◌, ◌≤◌, ◌<◌, length, IfSome};
ghost use Rattle.std.specs.Option.{option_map};
ghost use Rattle.hexfloat.specs.Reading.{power_of, scaled_by, behind_of, mantissa_of, float_of, prefixed_of, nan_of, read_of};
ghost use Rattle.hexfloat.specs.Steps.{Holds, Leads};

use crate::bytes::{after, find, front, past_plus};
use crate::digits::{Held, no_digits, scaled, take_digits};

// The exponent's digits: one to six.
fn power(s: &[u8]) -> Option<u64>
    ensures { result ≡ power_of s.now }
{
    match s.len() {
        1..=6 => line::read_digits(s, 10),
        _ => None,
    }
}

// What is held, with the exponent that s spells after the p.
fn with_exponent(negative: bool, h: Held, behind: usize, s: &[u8]) -> Option<u64>
    requires { (behind ≤ 40) × (h.dropped ≤ 40) }
    ensures { (n : ℕ) → Holds n h → n < 2 ^ 160 → result ≡ scaled_by negative n behind s.now }
{
    let down = 4 * (behind as u64);
    if let Some(digits) = s.strip_prefix(b"-") {
        let k = power(digits)?;
        return Some(bits::to_pattern(scaled(negative, h, 0, down + k)));
    }
    let k = power(past_plus(s))?;
    Some(bits::to_pattern(scaled(negative, h, k, down)))
}

// The digits before the exponent, and how many of them stand behind the point.
#[derive(Clone, Copy)]
struct Digits {
    held: Held,
    behind: usize,
}

fn digits_of(s: &[u8]) -> Option<Digits>
    ensures leads { Leads (mantissa_of s.now) (option_map (λ d. d.held) result) }
    ensures behind_value { IfSome result (λ d. (d.behind ≡ behind_of s.now) × (d.behind ≤ 40) × (d.held.dropped ≤ 40)) }
{
    let place = find(s, b'.', b'.');
    let behind = after(s, place + 1);
    let count = place + behind.len();
    if (count == 0) | (40 < count) {
        return None;
    }
    let before = take_digits(front(s, place), no_digits())?;
    let held = take_digits(behind, before)?;
    Some(Digits {
        held,
        behind: behind.len(),
    })
}

// What follows 0x.
fn float(negative: bool, s: &[u8]) -> Option<u64>
    ensures { result ≡ float_of negative s.now }
{
    let size = find(s, b'p', b'P');
    let m = digits_of(front(s, size))?;
    if size < s.len() {
        return with_exponent(negative, m.held, m.behind, after(s, size + 1));
    }
    Some(bits::to_pattern(scaled(negative, m.held, 0, 4 * (m.behind as u64))))
}

// 0x or 0X, and a number.
fn prefixed(negative: bool, s: &[u8]) -> Option<u64>
    ensures { result ≡ prefixed_of negative s.now }
{
    match s {
        [b'0', b'x' | b'X', size @ ..] => float(negative, size),
        _ => None,
    }
}

// A NaN's pattern, as it stands.
fn nan(s: &[u8]) -> Option<u64>
    ensures { result ≡ nan_of s.now }
{
    let p = line::pattern(s)?;
    let x = bits::from_pattern(p);
    if x != x { Some(p) } else { None }
}

// The bit pattern that a field says.
pub fn read_float(s: &[u8]) -> Option<u64>
    ensures { result ≡ read_of s.now }
{
    if s == b"inf".as_slice() {
        return Some(0x7ff0_0000_0000_0000);
    }
    if s == b"-inf".as_slice() {
        return Some(0xfff0_0000_0000_0000);
    }
    if let Some(pattern) = s.strip_prefix(b"nan:") {
        return nan(pattern);
    }
    if let Some(size) = s.strip_prefix(b"-") {
        return prefixed(true, size);
    }
    prefixed(false, past_plus(s))
}
