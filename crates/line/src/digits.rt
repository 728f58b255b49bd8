// A number's digits: decimal, or a bit pattern in 16 digits.
ghost use Rattle.std.specs.Prelude.{◌≡◌};
ghost use Rattle.line.specs.Line.{digit_value, few_of, decimal_of, pattern_of};

// What a digit is worth, '0' to '9' and 'a' to 'f'.
pub fn digit(b: u8) -> Option<u64>
    ensures { result ≡ digit_value b }
{
    match b {
        b'0'..=b'9' => Some(u64::from(b - b'0')),
        b'a'..=b'f' => Some(u64::from(b - b'a') + 10),
        _ => None,
    }
}

// Up to 16 digits of a base up to 16: their number fits, so nothing wraps.
pub fn read_digits(s: &[u8], base: u64) -> Option<u64>
    ensures { result ≡ few_of base s.now }
{
    if 16 < base {
        return None;
    }
    if 16 < s.len() {
        return None;
    }
    let mut n: u64 = 0;
    for b in s {
        let d = digit(*b)?;
        if base <= d {
            return None;
        }
        n = n * base + d;
    }
    Some(n)
}

// A decimal number of one to ten digits, no zero in front of others.
pub fn decimal(s: &[u8]) -> Option<u64>
    ensures { result ≡ decimal_of s.now }
{
    if s.len() > 10 {
        return None;
    }
    match s {
        [] | [b'0', _, ..] => None,
        _ => read_digits(s, 10),
    }
}

// A bit pattern: 16 digits.
pub fn pattern(s: &[u8]) -> Option<u64>
    ensures { result ≡ pattern_of s.now }
{
    if s.len() != 16 {
        return None;
    }
    read_digits(s, 16)
}
