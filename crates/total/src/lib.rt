// The exact total of a sheet: f64s added and taken away with no rounding, and rounded once when it is read.
#![tactic(auto)]

ghost use Rattle.std.specs.Prelude.{◌≡◌};
ghost use Rattle.total.specs.Total.{val, limbs_of, add_of, take_of, size_of_total, signed_of, round_total};

mod limbs;
mod rounding;

use rounding::TOP_BIT;
pub use rounding::{Signed, highest};

// 2,176 digits: 2,098 of the largest value, 16 for how often it counts, and room for many of them.
pub const LIMBS: usize = 34;

// Kept: the clauses speak of the limbs, and not of a model that is the number, since `of` and `limbs` promise the very limbs.
#[derive(Clone, Copy)]
pub struct Total {
    pub limbs: [u64; LIMBS],
}

impl Total {
    pub fn zero() -> Total
        ensures { (val result.limbs ≡ 0) × (result.limbs ≡ limbs_of 0) }
    {
        Total { limbs: [0; LIMBS] }
    }

    pub fn of(limbs: [u64; LIMBS]) -> Total
        ensures { result.limbs ≡ limbs }
    {
        Total { limbs }
    }

    // x added so many times. NaN or an infinity leaves the total as it stands.
    pub fn add(mut self, x: f64, times: u16) -> Total
        ensures { (val result.limbs ≡ add_of (val self.limbs) times x) × (result.limbs ≡ limbs_of (add_of (val self.limbs) times x)) }
    {
        if let Some(p) = bits::parts(x) {
            limbs::moved(&mut self.limbs, p, times, p.negative);
        }
        self
    }

    // x taken away so many times, which undoes adding it.
    pub fn take(mut self, x: f64, times: u16) -> Total
        ensures { (val result.limbs ≡ take_of (val self.limbs) times x) × (result.limbs ≡ limbs_of (take_of (val self.limbs) times x)) }
    {
        if let Some(p) = bits::parts(x) {
            limbs::moved(&mut self.limbs, p, times, !p.negative);
        }
        self
    }

    // The limbs, handed back.
    pub fn limbs(self) -> [u64; LIMBS]
        ensures { result ≡ self.limbs }
    {
        self.limbs
    }

    // Its sign and its size, a whole number of units of 2^-1074.
    pub fn size(self) -> Signed
        ensures { (result ≡ signed_of (val self.limbs)) × (val result.limbs ≡ size_of_total (val self.limbs)) }
    {
        let limbs = self.limbs;
        let mut size = Signed {
            negative: false,
            limbs,
        };
        size.negative = rounding::sized(&mut size.limbs);
        size
    }

    // The total rounded once. One that is not below zero is its own size, and is rounded where it lies.
    pub fn rounded(self) -> f64
        ensures { result ≡ round_total (val self.limbs) }
    {
        if self.limbs[LIMBS - 1] < TOP_BIT {
            return rounding::round_size(false, &self.limbs);
        }
        let size = self.size();
        rounding::round_size(size.negative, &size.limbs)
    }
}
