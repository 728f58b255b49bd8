// The report's lines.
ghost use Rattle.std.specs.Prelude.{[], ◌∷◌, ◌++◌, ◌+◌, ◌≤◌, length};
ghost use Rattle.total.specs.Total.{val};
ghost use Rattle.placing.specs.Placed.{Placed};
ghost use Rattle.monthly.specs.Monthly.{note, counts_text, total_text, exact_text, place_text, extreme_text, refusal_text, refusal_lines};

use exact::put_whole;
use month::Extreme;
use text::{put_bytes, put_decimal, put_pattern, put_three};
use total::Total;

// Words, a number and the byte after it.
pub(crate) fn put_note(out: &mut [u8], at: usize, words: &[u8], n: u64, after: u8) -> usize
    requires { at + (length words.now + 21) ≤ length out.old }
    ensures { Placed out.old out.new at result (length words.now + 21) (note words.now n ++ (after ∷ [])) }
{
    let a = put_bytes(out, at, words);
    put_decimal(out, a, n, after)
}

pub(crate) fn put_counts(out: &mut [u8], at: usize, counts: [u64; 5]) -> usize
    requires { at + 112 ≤ length out.old }
    ensures { Placed out.old out.new at result 112 (counts_text counts) }
{
    let a = put_bytes(out, at, b"counts ");
    let b = put_three(out, a, counts[0], counts[1], counts[2], b' ');
    let c = put_decimal(out, b, counts[3], b' ');
    put_decimal(out, c, counts[4], b'\n')
}

pub(crate) fn put_total(out: &mut [u8], at: usize, total: Total) -> usize
    requires { at + 23 ≤ length out.old }
    ensures { Placed out.old out.new at result 23 (total_text (val total.limbs)) }
{
    let a = put_bytes(out, at, b"total ");
    let rounded = bits::to_pattern(total.rounded());
    put_pattern(out, a, rounded, b'\n')
}

// The exact total, in units of 2^-1074.
pub(crate) fn put_exact(out: &mut [u8], at: usize, total: Total) -> usize
    requires { at + 552 ≤ length out.old }
    ensures { Placed out.old out.new at result 552 (exact_text (val total.limbs)) }
{
    let a = put_bytes(out, at, b"exact ");
    let size = total.size();
    put_whole(out, a, size.negative, &size.limbs, b'\n')
}

fn put_place(out: &mut [u8], at: usize, place: Extreme) -> usize
    requires { at + 52 ≤ length out.old }
    ensures { Placed out.old out.new at result 52 (place_text place.sheet place.row) }
{
    let a = put_note(out, at, b"sheet ", place.sheet as u64, b' ');
    put_note(out, a, b"row ", place.row as u64, b'\n')
}

pub(crate) fn put_extreme(
    out: &mut [u8],
    at: usize,
    words: &[u8],
    extreme: Option<Extreme>,
) -> usize
    requires { at + (length words.now + 69) ≤ length out.old }
    ensures { Placed out.old out.new at result (length words.now + 69) (extreme_text words.now extreme) }
{
    let a = put_bytes(out, at, words);
    let Some(held) = extreme else {
        return put_bytes(out, a, b"none\n");
    };
    let b = put_pattern(out, a, held.pattern, b' ');
    put_place(out, b, held)
}

// No line where no row holds the number.
fn put_refusal(out: &mut [u8], at: usize, number: u64, rows: u64) -> usize
    requires { at + 50 ≤ length out.old }
    ensures { Placed out.old out.new at result 50 (refusal_text number rows) }
{
    if rows == 0 {
        return at;
    }
    let a = put_note(out, at, b"refusal ", number, b' ');
    put_decimal(out, a, rows, b'\n')
}

// The numbers rising.
pub(crate) fn put_refusals(out: &mut [u8], from: usize, refusals: [u64; 32]) -> usize
    requires { from + 1600 ≤ length out.old }
    ensures { Placed out.old out.new from result 1600 (refusal_lines refusals 32) }
{
    let mut at = from;
    for (i, rows) in refusals.iter().enumerate() {
        at = put_refusal(out, at, i as u64, *rows);
    }
    at
}
