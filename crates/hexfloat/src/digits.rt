// Hex digits, one after the other, and the number that they come to.
ghost use Rattle.std.specs.Prelude.{◌≡◌, ◌+◌, ◌≤◌, ◌<◌, length};
ghost use Rattle.hexfloat.specs.Reading.{hex_value};
ghost use Rattle.hexfloat.specs.Steps.{no_digits, with_digit, held_from, scaled_of};

// 128 bits of the digits so far, how many were dropped behind those, and whether one of them was not 0.
#[derive(Clone, Copy)]
pub(crate) struct Held {
    pub(crate) digits: u128,
    pub(crate) more: bool,
    pub(crate) dropped: u64,
}

// Below this there is room for one digit more in 128 bits.
const ROOM: u128 = 0x1000_0000_0000_0000_0000_0000_0000_0000;

pub(crate) fn no_digits() -> Held
    ensures { result ≡ no_digits }
{
    Held {
        digits: 0,
        more: false,
        dropped: 0,
    }
}

// What a hex digit of either case is worth.
fn hex_digit(b: u8) -> Option<u64>
    ensures { result ≡ hex_value b }
{
    match b {
        b'A'..=b'F' => Some(u64::from(b - b'A') + 10),
        _ => line::digit(b),
    }
}

fn with_digit(h: Held, d: u64) -> Held
    requires { (d < 16) × (h.dropped < 64) }
    ensures { result ≡ with_digit h d }
{
    if h.digits < ROOM {
        return Held {
            digits: h.digits * 16 + u128::from(d),
            ..h
        };
    }
    Held {
        more: h.more | (0 < d),
        dropped: h.dropped + 1,
        ..h
    }
}

// Digits after those held; none where a byte is no digit. At most 40 are asked for in all.
pub(crate) fn take_digits(s: &[u8], from: Held) -> Option<Held>
    requires { from.dropped + length s.now ≤ 40 }
    ensures { result ≡ held_from from s.now }
{
    let mut h = from;
    for b in s {
        let d = hex_digit(*b)?;
        h = with_digit(h, d);
    }
    Some(h)
}

// What is held, times 2^up / 2^down, rounded once. The rounding counts in 2^-2340; below that there is nothing left of 160 digits.
pub(crate) fn scaled(negative: bool, h: Held, up: u64, down: u64) -> f64
    requires { (up < 2000000) × (down < 2000000) × (h.dropped ≤ 40) }
    ensures { result ≡ scaled_of negative h up down }
{
    if 2340 + up < down {
        return bits::rounded(negative, 0, false, 0);
    }
    bits::rounded(negative, h.digits, h.more, 2340 + up - down + 4 * h.dropped)
}
