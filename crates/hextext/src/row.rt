// A row's line: what it enters, and whether it says what is worked out.
ghost use Rattle.std.specs.Prelude.{◌≡◌, ◌*◌, ◌<◌};
ghost use Rattle.ledger.specs.Bytes.{fields, pattern_at};
ghost use Rattle.ledger.specs.Sheet.{refusal_in};
ghost use Rattle.hextext.specs.HexText.{halt_of, entry_of, differ_of, line_halt};

use crate::{Halt, malformed};
use answer::Refusal;
use hexline::{column, stop, value};
use sheet::Entry;

// The function that goes out ([13]).
const WITHDRAWN: u64 = 1;

pub(crate) fn entry(line: &[u8]) -> Entry
    ensures { result ≡ entry_of line.now }
{
    Entry {
        function: value(line, 0) as u8,
        a: value(line, 1),
        b: value(line, 2),
        c: value(line, 3),
        times: value(line, 4) as u16,
    }
}

// The refusal that a row's words have, and word k.
fn refusal_of(words: [u64; 6]) -> u64
    ensures { result ≡ refusal_in (fields 8 words) }
{
    words[0] / 256 % 256
}

fn word_of(words: [u64; 6], k: usize) -> u64
    requires { k < 6 }
    ensures { result ≡ pattern_at (fields 8 words) (8 * k) }
{
    words[k]
}

// The column of the first of refusal and answers that is not the one worked out.
fn differ(line: &[u8]) -> Option<usize>
    ensures { result ≡ differ_of line.now }
{
    let words = sheet::words(entry(line));
    if refusal_of(words) != value(line, 5) {
        return Some(column(line, 5));
    }
    if word_of(words, 4) != value(line, 6) {
        return Some(column(line, 6));
    }
    if word_of(words, 5) != value(line, 7) {
        return Some(column(line, 7));
    }
    None
}

// Line k is taken; or why it is not.
pub(crate) fn line_halt(k: u32, line: &[u8]) -> Result<(), Halt>
    ensures { halt_of result ≡ line_halt k line.now }
{
    if let Some(column) = stop(line) {
        return Err(malformed(k, column));
    }
    if value(line, 0) == WITHDRAWN {
        return Err(Halt {
            refusal: Refusal::Withdrawn,
            line: k,
            column: 0,
        });
    }
    if let Some(column) = differ(line) {
        return Err(malformed(k, column));
    }
    Ok(())
}
