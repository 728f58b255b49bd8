// Patterns of f64 (IEEE 754-2019, 3.4). There is one NaN: every NaN pattern reads as it, and it is
// written as 7ff8000000000000.
ghost use Rattle.std.specs.Prelude.{◌≡◌, from_bits, to_bits};
ghost use Rattle.std.specs.Float.{binary64};

pub fn from_pattern(pattern: u64) -> f64
    ensures { result ≡ from_bits binary64 pattern }
{
    if pattern % 0x8000_0000_0000_0000 > 0x7ff0_0000_0000_0000 {
        return 0.0 / 0.0;
    }
    f64::from_bits(pattern)
}

pub fn to_pattern(x: f64) -> u64
    ensures { result ≡ to_bits binary64 x }
{
    if x != x {
        return 0x7ff8_0000_0000_0000;
    }
    f64::to_bits(x)
}
