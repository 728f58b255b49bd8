// What `parts` returns. (A function and a struct of one name do not stand in one file.)
ghost use Rattle.std.specs.Prelude.{◌≡◌, ◌+◌, ◌*◌, ◌/◌, ◌^◌, ◌<◌, ◌≤◌};

// digits * 2^exponent smallest values, 2^-1074 each. But for the lowest exponent the leading one of 53 digits is set.
#[derive(Clone, Copy)]
pub struct Parts {
    pub negative: bool,
    pub digits: u64,
    pub exponent: u64,
    pub ghost digits_fit: { digits < 2 ^ 53 },
    pub ghost exponent_fits: { exponent ≤ 2045 },
    pub ghost leading: { 0 < exponent → 2 ^ 52 ≤ digits },
}

impl Parts {
    // The size in units of 2^-places, cut: 64 places or more below the unit nothing of it is left.
    pub fn fixed(self, places: u64) -> u64
        requires { (places ≤ 1074) × (self.exponent + places ≤ 1085) }
        ensures { result ≡ self.digits * 2 ^ self.exponent * 2 ^ places / 2 ^ 1074 }
    {
        let unit = 1074 - places;
        if self.exponent >= unit {
            return self.digits << (self.exponent - unit);
        }
        let below = unit - self.exponent;
        if below < 64 { self.digits >> below } else { 0 }
    }
}
