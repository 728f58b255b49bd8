// 34 limbs of 64 bits, least first: a number modulo 2^2176.
//
// A value is digits·2^exponent, of at most 53 digits, and it may count up to 65,535 times. Digits and times are
// multiplied once, into 128 digits, so that an edit costs the same however often a leg was driven. Shifted to its
// place within a limb that product of at most 69 digits lies across three limbs; it reaches the third where it is
// shifted by 60 to 63 places. Its words are then added to the total's limbs, or taken from them, where they lie,
// one after the other, and each carry goes up as far as it must. The limbs are lent and not copied.
ghost use Rattle.std.specs.Prelude.{◌≡◌, ◌+◌, ◌*◌, ◌^◌, ◌<◌, ◌≤◌, length};
ghost use Rattle.total.specs.Total.{val, limbs_of, complement};
ghost use Rattle.std.specs.Int.{from_bool};
ghost use Rattle.total.specs.Carry.{Balance, W};

use bits::Parts;

// One limb with a word added, or taken away where it is negative, and whether that carries 1 into the next or borrows it from there.
fn step(limb: u64, word: u64, negative: bool) -> (u64, bool)
    ensures { Balance negative result.0 limb word (0x1_0000_0000_0000_0000 * from_bool result.1) }
{
    if negative {
        limb.overflowing_sub(word)
    } else {
        limb.overflowing_add(word)
    }
}

// A word added to the limb at a place, or taken from it where it is negative. The carry is the word at first, then 1, and the limbs
// above the last carry are not touched.
pub(crate) fn ripple(limbs: &mut [u64], at: usize, word: u64, negative: bool)
    requires { (length limbs.old ≡ 34) × (at < 34) }
    ensures { limbs.new ≡ limbs_of (val limbs.old + complement negative (W at * word)) }
{
    let mut carry = word;
    for limb in &mut limbs[at..] {
        let (sum, carried) = step(*limb, carry, negative);
        *limb = sum;
        if !carried {
            return;
        }
        carry = 1;
    }
}

// Digits times over, shifted by less than a limb: three words, least first.
fn spread(digits: u64, times: u16, by: u64) -> [u64; 3]
    requires { by < 64 }
    ensures { val result ≡ times * digits * 2 ^ by }
{
    let product = bits::product(digits, times as u64);
    let low = product << by;
    [
        (low % (1 << 64)) as u64,
        (low >> 64) as u64,
        ((product >> 1) >> (127 - by)) as u64,
    ]
}

// The parts of a value, with this sign, added so many times.
pub(crate) fn moved(limbs: &mut [u64], parts: Parts, times: u16, negative: bool)
    requires { length limbs.old ≡ 34 }
    ensures { limbs.new ≡ limbs_of (val limbs.old + complement negative (times * (parts.digits * 2 ^ parts.exponent))) }
{
    let at = (parts.exponent / 64) as usize;
    let [low, middle, high] = spread(parts.digits, times, parts.exponent % 64);
    ripple(limbs, at, low, negative);
    ripple(limbs, at + 1, middle, negative);
    ripple(limbs, at + 2, high, negative);
}
