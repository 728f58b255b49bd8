// A whole number that takes 34 limbs, in hex: an exact total, or the difference of two.
#![tactic(auto)]

ghost use Rattle.std.specs.Prelude.{◌≡◌, [], ◌∷◌, ◌++◌, ◌+◌, ◌*◌, ◌≤◌, true, length};
ghost use Rattle.total.specs.Total.{val};
ghost use Rattle.exact.specs.Exact.{sign_of, signed_hex};
ghost use Rattle.text.specs.Text.{digits_of};
ghost use Rattle.text.specs.Writing.{Puts};
ghost use Rattle.placing.specs.Placed.{Placed};

use text::{lacks, put_bytes, put_hex};
use total::{LIMBS, highest};

// Room for a sign, 16 digits a limb, and the byte after them.
const ROOM: usize = 546;

// All 16 digits of each limb, from the highest down.
fn put_limbs(out: &mut [u8], from: usize, limbs: &[u64]) -> usize
    requires { from + 16 * length limbs.now ≤ length out.old }
    ensures { Placed out.old out.new from result (16 * length limbs.now) (digits_of true 16 (16 * length limbs.now) (val limbs.now)) }
{
    let mut at = from;
    for limb in limbs.iter().rev() {
        at = put_hex(out, at, true, *limb);
    }
    at
}

fn put_sign(out: &mut [u8], at: usize, negative: bool) -> usize
    requires { at + 1 ≤ length out.old }
    ensures { Placed out.old out.new at result 1 (sign_of negative) }
{
    if negative {
        put_bytes(out, at, b"-")
    } else {
        at
    }
}

// The number, a sign in front where it is below zero, and the byte after it. Zero has no sign.
pub fn put_whole(
    out: &mut [u8],
    at: usize,
    negative: bool,
    limbs: &[u64; LIMBS],
    after: u8,
) -> usize
    ensures { Puts out.old out.new at result 546 (signed_hex negative (val limbs.now) ++ (after ∷ [])) }
{
    if lacks(out.len(), at, ROOM) {
        return at;
    }
    let Some(top) = highest(limbs) else {
        return put_bytes(out, at, &[b'0', after]);
    };
    let sign = put_sign(out, at, negative);
    let first = put_hex(out, sign, false, limbs[top]);
    let rest = put_limbs(out, first, &limbs[..top]);
    put_bytes(out, rest, &[after])
}
