// The difference of two totals of 34 limbs.
//
// Adding half of 2^2176 modulo 2^2176 turns a two's complement into a number without a sign that keeps the order and
// every distance. Two such are subtracted limb by limb from the lowest; what is borrowed at the end tells which is larger.
ghost use Rattle.std.specs.Prelude.{◌≡◌, ◌+◌, ◌<◌, MatchOption};
ghost use Rattle.total.specs.Total.{val, N};
ghost use Rattle.difference.specs.Limbs.{raised_of};

// The number with half of the modulus added: the highest digit turned over.
pub(crate) fn raised(limbs: [u64; 34]) -> [u64; 34]
    ensures { (val result ≡ raised_of (val limbs)) × (val limbs < N) }
{
    let mut out = limbs;
    out[33] = limbs[33].wrapping_add(0x8000_0000_0000_0000);
    out
}

// a less b, where b is not larger.
pub(crate) fn minus(a: [u64; 34], b: [u64; 34]) -> Option<[u64; 34]>
    ensures { MatchOption result (val a < val b) (λ d. val d + val b ≡ val a) }
{
    let mut out = a;
    let mut borrow = false;
    for i in 0..34 {
        let (limb, owed) = a[i].borrowing_sub(b[i], borrow);
        out[i] = limb;
        borrow = owed;
    }
    if borrow { None } else { Some(out) }
}
