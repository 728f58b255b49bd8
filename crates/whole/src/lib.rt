// Magnitude, and the whole number nearest to a value, halves away from zero. From 2^52 on every f64
// is a whole number and stays.
#![tactic(auto)]

ghost use Rattle.std.specs.Prelude.{◌≡◌, ◌^◌, ◌<◌, ◌≤◌};
ghost use Rattle.std.specs.Float.{binary64};
ghost use Rattle.std.specs.Float.Ieee.{round};
ghost use Rattle.whole.specs.Whole.{magnitude_of, round_of, half_up};

pub fn magnitude(x: f64) -> f64
    ensures { result ≡ magnitude_of x }
{
    if x != x {
        return x;
    }
    f64::from_bits(f64::to_bits(x) & 0x7fff_ffff_ffff_ffff)
}

// The whole number nearest to w / 2^s, a half going up.
fn closest(w: u64, s: u64) -> u64
    requires { (w < 2 ^ 53) × (0 < s) }
    ensures { (result ≡ half_up w (2 ^ s)) × (result ≤ 2 ^ 53) }
{
    if s >= 55 {
        0
    } else {
        (w + (1 << (s - 1))) >> s
    }
}

// ± n
pub fn signed(negative: bool, n: u64) -> f64
    requires { n ≤ 2 ^ 53 }
    ensures { result ≡ round binary64 negative n 1 }
{
    let y = n as f64;
    if negative { -y } else { y }
}

pub fn round(x: f64) -> f64
    ensures { result ≡ round_of x }
{
    match bits::parts(x) {
        Some(p) if p.exponent < 1074 => signed(p.negative, closest(p.digits, 1074 - p.exponent)),
        _ => x,
    }
}
