// The one rounding: a sign, 128 digits, whether anything is left below them, and an exponent, to the
// nearest f64, a tie to the even one (IEEE 754-2019, 4.3.1). Subnormal results and overflow included.
ghost use Rattle.std.specs.Prelude.{◌≡◌, ℕ, ◌+◌, ◌/◌, ◌%◌, ◌^◌, ◌<◌, ◌≤◌};
ghost use Rattle.std.specs.Float.{binary64};
ghost use Rattle.std.specs.Float.Ieee.{nearest, units, round};
ghost use Rattle.bits.specs.Rounded.{Kept, rounded_of};
ghost use Rattle.bits.specs.Steps.{ord_of, Drop, spare};

// q * 2^k smallest values. One sum of sign, field and digits serves subnormal and normal results,
// and a carry to 2^53 or into infinity too.
fn packed(negative: bool, q: u64, k: u64) -> f64
    requires { (q ≤ 2 ^ 53) × (0 < k → 2 ^ 52 ≤ q) }
    ensures { result ≡ units binary64 negative q k }
{
    let sign = u64::from(negative) << 63;
    if k < 2046 {
        f64::from_bits(sign + ((k << 52) + q))
    } else {
        f64::from_bits(sign + 0x7ff0_0000_0000_0000)
    }
}

// w / 2, and a fraction below that where `more`, to the nearest whole number.
fn nearest_half(w: u64, more: bool) -> u64
    ensures { result ≡ nearest (w / 2) (ord_of (w % 2) more) }
{
    let q = w / 2;
    let up = if more { 1 } else { q % 2 };
    q + w % 2 * up
}

// How many of 64 digits are dropped where e more follow: 11, so that 53 stay, or as many as lie
// below the smallest f64.
fn dropped(e: u64) -> u64
    ensures { Drop e result }
{
    u64::max(11, 1394u64.saturating_sub(e))
}

// 64 digits, the leading one set, and e others below them.
fn round_full(negative: bool, w: u64, more: bool, e: u64) -> f64
    requires { (2 ^ 63 ≤ w) × (e < 2 ^ 32) }
    ensures { (n : ℕ) → Kept n w e more → result ≡ round binary64 negative n (2 ^ (spare + 1074)) }
{
    let d = dropped(e);
    if d > 64 {
        return packed(negative, 0, 0);
    }
    let s = d - 1;
    let q = nearest_half(w >> s, more | (w % (1 << s) > 0));
    packed(negative, q, d + e - 1394)
}

// `more` stands for half of a last place: it is the digit after the others, or where all 128 are
// there, only something below them. The leading 64 are taken.
fn round_digits(negative: bool, digits: u128, more: bool, e: u64) -> f64
    requires { e ≤ 4096 }
    ensures { result ≡ rounded_of negative digits more e }
{
    if digits >= 1 << 127 {
        let low = digits % (1 << 64);
        return round_full(negative, (digits >> 64) as u64, more | (low > 0), e + 192);
    }
    let n = 2 * digits + u128::from(more);
    if n == 0 {
        return packed(negative, 0, 0);
    }
    let zeros = n.leading_zeros() as u64;
    let w = n << zeros;
    let low = w % (1 << 64);
    round_full(negative, (w >> 64) as u64, low > 0, e + 191 - zeros)
}

// From 2^4096 on every number but zero overflows.
pub fn rounded(negative: bool, digits: u128, more: bool, exponent: u64) -> f64
    ensures { result ≡ rounded_of negative digits more exponent }
{
    round_digits(negative, digits, more, u64::min(exponent, 4096))
}
