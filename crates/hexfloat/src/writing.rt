// The one spelling of a bit pattern, part by part.
ghost use Rattle.std.specs.Prelude.{◌≡◌, [], ◌∷◌, ◌++◌, ◌+◌, ◌^◌, ◌≤◌, ◌<◌, length};
ghost use Rattle.text.specs.Text.{decimal};
ghost use Rattle.text.specs.Writing.{Put, Puts};
ghost use Rattle.hexfloat.specs.Spelled.{sign_text, digits_text, lead_of, behind_text, exponent_text, size_text, spelled_of};

use text::{lacks, put_bytes, put_decimal, put_hex, put_pattern};

fn put_sign(out: &mut [u8], at: usize, p: u64) -> usize
    requires { at + 1 ≤ length out.old }
    ensures put { Put out.old out.new at result (sign_text p) }
    ensures upper_bound { result ≤ at + 1 }
{
    if 0x8000_0000_0000_0000 <= p {
        return put_bytes(out, at, b"-");
    }
    at
}

// The digits behind the point, from the left. A digit is put where there is room for 16.
fn put_digits(out: &mut [u8], at: usize, k: usize, n: u64) -> usize
    requires { (n < 2 ^ 52) × (at + k + 15 ≤ length out.old) }
    ensures put { Put out.old out.new at result (digits_text k n) }
    ensures upper_bound { result ≤ at + k }
{
    if k == 0 {
        return at;
    }
    if n == 0 {
        return at;
    }
    let next = put_hex(out, at, false, n / 0x1_0000_0000_0000);
    put_digits(out, next, k - 1, n % 0x1_0000_0000_0000 * 16)
}

// The point and the digits behind it, where there are any.
fn put_behind(out: &mut [u8], at: usize, fraction: u64) -> usize
    requires { (fraction < 2 ^ 52) × (at + 29 ≤ length out.old) }
    ensures put { Put out.old out.new at result (behind_text fraction) }
    ensures upper_bound { result ≤ at + 14 }
{
    if fraction == 0 {
        return at;
    }
    let next = put_bytes(out, at, b".");
    put_digits(out, next, 13, fraction)
}

// A sign and a number in decimal after the p, and the byte after it.
fn put_power(out: &mut [u8], at: usize, sign: u8, n: u64, after: u8) -> usize
    requires { (n < 10 ^ 4) × (at + 23 ≤ length out.old) }
    ensures put { Put out.old out.new at result (112 ∷ (sign ∷ (decimal n ++ (after ∷ [])))) }
    ensures upper_bound { result ≤ at + 7 }
{
    let next = put_bytes(out, at, &[b'p', sign]);
    put_decimal(out, next, n, after)
}

fn put_exponent(out: &mut [u8], at: usize, field: u64, fraction: u64, after: u8) -> usize
    requires { (field < 2 ^ 11) × (at + 23 ≤ length out.old) }
    ensures put { Put out.old out.new at result (exponent_text field fraction ++ (after ∷ [])) }
    ensures upper_bound { result ≤ at + 7 }
{
    if (field == 0) & (fraction == 0) {
        return put_power(out, at, b'+', 0, after);
    }
    if field == 0 {
        return put_power(out, at, b'-', 1022, after);
    }
    if field < 1023 {
        return put_power(out, at, b'-', 1023 - field, after);
    }
    put_power(out, at, b'+', field - 1023, after)
}

fn lead(field: u64) -> u8
    ensures { result ≡ lead_of field }
{
    if field == 0 { b'0' } else { b'1' }
}

// Without its sign, and the byte after it.
fn put_size(out: &mut [u8], at: usize, field: u64, fraction: u64, after: u8) -> usize
    requires { (field < 2 ^ 11) × (fraction < 2 ^ 52) × (at + 40 ≤ length out.old) }
    ensures put { Put out.old out.new at result (size_text field fraction ++ (after ∷ [])) }
    ensures upper_bound { result ≤ at + 24 }
{
    if field == 2047 {
        return put_bytes(out, at, &[b'i', b'n', b'f', after]);
    }
    let a = put_bytes(out, at, &[b'0', b'x', lead(field)]);
    let b = put_behind(out, a, fraction);
    put_exponent(out, b, field, fraction, after)
}

// The spelling of a bit pattern, and the byte after it.
pub fn put_float(out: &mut [u8], at: usize, p: u64, after: u8) -> usize
    ensures { Puts out.old out.new at result 41 (spelled_of p ++ (after ∷ [])) }
{
    if lacks(out.len(), at, 41) {
        return at;
    }
    let field = p / 0x10_0000_0000_0000 % 2048;
    let fraction = p % 0x10_0000_0000_0000;
    if (field == 2047) & (fraction != 0) {
        let a = put_bytes(out, at, b"nan:");
        return put_pattern(out, a, p, after);
    }
    let a = put_sign(out, at, p);
    put_size(out, a, field, fraction, after)
}
