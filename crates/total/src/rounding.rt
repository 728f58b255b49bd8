// A number of 34 limbs in two's complement, rounded once.
ghost use Rattle.std.specs.Prelude.{◌≡◌, ◌+◌, ◌-◌, ◌^◌, ◌<◌, ◌≤◌, length, take, nat_lt, nat_le, slice_index, MatchOption};
ghost use Rattle.std.specs.Float.Ieee.{round};
ghost use Rattle.std.specs.Float.{binary64};
ghost use Rattle.total.specs.Total.{val, limbs_of, size_of_total, Half, N};

use super::LIMBS;
use super::limbs::ripple;

// Of the highest limb: a number from here on is negative.
pub(crate) const TOP_BIT: u64 = 1 << 63;

// Where a total's units of 2^-1074 stand in the one rounding, which counts from 2^-2340.
const UNIT: u64 = 1266;

// The place of the highest limb that is not 0.
pub fn highest(limbs: &[u64]) -> Option<usize>
    ensures { MatchOption result (val limbs.now ≡ 0) (λ at. (at < length limbs.now) × (val (take (at + 1) limbs.now) ≡ val limbs.now) × (0 < slice_index limbs.now at)) }
{
    limbs.iter().rposition(|limb| *limb != 0)
}

// A number becomes N less it: its digits turned over, and 1 added.
fn negate(limbs: &mut [u64])
    requires { length limbs.old ≡ 34 }
    ensures { limbs.new ≡ limbs_of (N - val limbs.old) }
{
    for limb in limbs.iter_mut() {
        *limb = !*limb;
    }
    ripple(limbs, 0, 1, false);
}

// A number without its sign: the two highest limbs, and whether anything is left below them, go to the one rounding.
pub(crate) fn round_size(negative: bool, limbs: &[u64; LIMBS]) -> f64
    ensures { result ≡ round binary64 negative (val limbs.now) (2 ^ 1074) }
{
    let top = highest(limbs).unwrap_or(0).max(1);
    let more = highest(&limbs[..top - 1]).is_some();
    let digits = (u128::from(limbs[top]) << 64) + u128::from(limbs[top - 1]);
    bits::rounded(negative, digits, more, 64 * (top as u64 - 1) + UNIT)
}

// The sign of a number and its size.
#[derive(Clone, Copy)]
pub struct Signed {
    pub negative: bool,
    pub limbs: [u64; LIMBS],
}

// A total's limbs become those of its size, where they lie; whether it was negative.
pub(crate) fn sized(limbs: &mut [u64; LIMBS]) -> bool
    ensures { (result ≡ nat_le Half (val limbs.old)) × (limbs.new ≡ limbs_of (size_of_total (val limbs.old))) × (val limbs.new ≡ size_of_total (val limbs.old)) }
{
    let negative = limbs[LIMBS - 1] >= TOP_BIT;
    if negative {
        negate(limbs);
    }
    negative
}
