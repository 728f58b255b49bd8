// The whole number beside a value: toward zero, and below. From 2^52 on every f64 is a whole number
// and stays.
#![tactic(auto)]

ghost use Rattle.std.specs.Prelude.{◌≡◌, ◌/◌, ◌^◌, ◌<◌, ◌≤◌};
ghost use Rattle.floor.specs.Floor.{trunc_of, floor_of, ceiling};

// w / 2^s without its fraction.
fn lower(w: u64, s: u64) -> u64
    requires { w < 2 ^ 53 }
    ensures { (result ≡ w / 2 ^ s) × (result ≤ 2 ^ 53) }
{
    if s >= 64 { 0 } else { w >> s }
}

// The least whole number that is w / 2^s or more.
fn upper(w: u64, s: u64) -> u64
    requires { (w < 2 ^ 53) × (0 < s) }
    ensures { (result ≡ ceiling w (2 ^ s)) × (result ≤ 2 ^ 53) }
{
    if s >= 64 {
        return if w > 0 { 1 } else { 0 };
    }
    if w % (1 << s) > 0 {
        (w >> s) + 1
    } else {
        w >> s
    }
}

pub fn trunc(x: f64) -> f64
    ensures { result ≡ trunc_of x }
{
    match bits::parts(x) {
        Some(p) if p.exponent < 1074 => {
            whole::signed(p.negative, lower(p.digits, 1074 - p.exponent))
        }
        _ => x,
    }
}

pub fn floor(x: f64) -> f64
    ensures { result ≡ floor_of x }
{
    match bits::parts(x) {
        Some(p) if p.exponent < 1074 => {
            let below = 1074 - p.exponent;
            let n = if p.negative {
                upper(p.digits, below)
            } else {
                lower(p.digits, below)
            };
            whole::signed(p.negative, n)
        }
        _ => x,
    }
}
