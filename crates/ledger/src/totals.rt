// The totals: five counts, four zeros, the 272-byte total.
ghost use Rattle.std.specs.Prelude.{◌≡◌, true, ◌+◌, ◌*◌, ◌≤◌, ◌<◌, length, get_or, [], ◌∷◌, ◌++◌};
ghost use Rattle.total.specs.Total.{val, limbs_of, add_of, take_of};
ghost use Rattle.laws.specs.Splice.{splice};
ghost use Rattle.ledger.specs.Bytes.{number, fields};
ghost use Rattle.ledger.specs.Sheet.{most_rows, row_place, sound, class_of};
ghost use Rattle.ledger.specs.Class.{number_of};
ghost use Rattle.ledger.specs.Calls.{Sized, rows_in, counts_in, total_in, plus, recount, revised};

use super::bytes::{pair, part, put_words};
use super::row::{Class, Share, index, share_of};
use std::array::from_fn;
use total::Total;

// Where the totals start: they are the last 296 bytes.
fn totals_place(s: &[u8]) -> usize
    requires { Sized s.now }
    ensures { (result ≡ row_place (rows_in s.now)) × (result + 296 ≡ length s.now) }
{
    s.len() - 296
}

pub(crate) fn read_counts(s: &[u8]) -> [u32; 5]
    requires { Sized s.now }
    ensures { result ≡ counts_in s.now }
{
    let at = totals_place(s);
    from_fn(|k| u32::from_le_bytes(part(s, at + 4 * k)))
}

pub(crate) fn sum(counts: &[u32]) -> u64
    requires { length counts.now ≤ 5 }
    ensures { result ≡ plus counts.now }
{
    counts.iter().map(|count| *count as u64).sum()
}

// 34 limbs.
fn read_limbs(s: &[u8]) -> [u64; 34]
    requires { length s.now ≡ 272 }
    ensures { val result ≡ number s.now }
{
    let mut limbs = [0; 34];
    for (i, limb) in limbs.iter_mut().enumerate() {
        *limb = u64::from_le_bytes(part(s, 8 * i));
    }
    limbs
}

// The sheet's total.
pub(crate) fn read_total(s: &[u8]) -> [u64; 34]
    requires { Sized s.now }
    ensures { val result ≡ total_in s.now }
{
    let from = totals_place(s) + 24;
    let to = s.len();
    read_limbs(&s[from..to])
}

// One less of the old class, one more of the new, two counts to a word; the four bytes after the counts are zero.
fn recounted(counts: [u32; 5], old: Class, new: Class) -> [u64; 3]
    requires { (0 < get_or counts (number_of old) 0) × (plus counts ≤ most_rows) }
    ensures { fields 8 result ≡ fields 4 (recount counts (number_of old) (number_of new) ++ (0 ∷ [])) }
{
    let mut c = counts;
    c[index(old)] -= 1;
    c[index(new)] += 1;
    [pair(c[0], c[1]), pair(c[2], c[3]), pair(c[4], 0)]
}

// The total's limbs with an old row's share taken away and a new row's added.
fn moved(s: &[u8], old: Share, new: Share) -> [u64; 34]
    requires { Sized s.now }
    ensures { result ≡ limbs_of (add_of (take_of (total_in s.now) old.times old.value) new.times new.value) }
{
    let total = Total::of(read_total(s));
    total
        .take(old.value, old.times)
        .add(new.value, new.times)
        .limbs()
}

fn write_totals(s: &mut [u8], counts: [u64; 3], limbs: [u64; 34])
    requires { length s.old ≡ 296 }
    ensures { s.new ≡ fields 8 counts ++ fields 8 limbs }
{
    put_words(&mut s[0..24], &counts);
    put_words(&mut s[24..296], &limbs);
}

// An old row's share taken out of the totals, and a new row's put in.
pub(crate) fn revise(sheet: &mut [u8], old: &[u8; 48], new: &[u8; 48])
    requires { Sized sheet.old × (sound old.now ≡ true) × (sound new.now ≡ true) × (0 < get_or (counts_in sheet.old) (class_of old.now) 0) × (plus (counts_in sheet.old) ≤ most_rows) }
    ensures { sheet.new ≡ splice sheet.old (row_place (rows_in sheet.old)) (revised sheet.old old.now new.now) }
{
    let out = share_of(old);
    let put = share_of(new);
    let counts = recounted(read_counts(sheet), out.class.unwrap(), put.class.unwrap());
    let limbs = moved(sheet, out, put);
    let from = totals_place(sheet);
    let to = sheet.len();
    write_totals(&mut sheet[from..to], counts, limbs);
}
