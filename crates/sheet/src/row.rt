// The words of the row that an edit stores.
ghost use Rattle.std.specs.Prelude.{◌≡◌};
ghost use Rattle.ledger.specs.Bytes.{fields};
ghost use Rattle.sheet.specs.Edit.{keep, kept_of, answered, row_of};

use crate::Entry;
use crate::functions::{evaluate, used};

// Argument k, where the function reads it.
fn argument(function: u8, k: u8, x: u64) -> u64
    ensures { result ≡ keep function k x }
{
    if k < used(function) { x } else { 0 }
}

fn kept(entry: Entry) -> Entry
    ensures { result ≡ kept_of entry }
{
    Entry {
        a: argument(entry.function, 0, entry.a),
        b: argument(entry.function, 1, entry.b),
        c: argument(entry.function, 2, entry.c),
        ..entry
    }
}

// The function at these arguments.
fn worked(entry: Entry) -> [u64; 6]
    ensures { fields 8 result ≡ answered entry }
{
    let z = answer::read(evaluate(entry.function, entry.a, entry.b, entry.c));
    let first = bits::to_pattern(z.first);
    let second = bits::to_pattern(z.second);
    [
        (entry.function as u64) + 256 * (z.refusal as u64) + 65536 * (entry.times as u64),
        entry.a,
        entry.b,
        entry.c,
        first,
        second,
    ]
}

// The row of an entry, in words of eight bytes.
pub fn words(entry: Entry) -> [u64; 6]
    ensures { fields 8 result ≡ row_of entry }
{
    if entry.function == 0 {
        return [0u64; 6];
    }
    worked(kept(entry))
}
