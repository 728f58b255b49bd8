// Hex text read into a lent sheet (02, [10]): line 1 makes it blank, and each further line is one edit, whose refusal and answers must be those worked out. The first line that
// fails ends it.
#![tactic(auto)]

mod count;
mod row;

ghost use Rattle.std.specs.Prelude.{◌≡◌, ◌≤◌, ◌<◌};
ghost use Rattle.ledger.specs.Sheet.{most_rows};
ghost use Rattle.hextext.specs.HexText.{halt_of, came, told, line_into, rows_into, text_into};

use answer::Refusal;
pub use count::rows;
use hexline::{next, part};
use row::{entry, line_halt};

// Why and where reading halted: the refusal, the line and the column, both from 1; 0 where it is no line's, or no column's.
#[derive(Clone, Copy)]
pub struct Halt {
    pub refusal: Refusal,
    pub line: u32,
    pub column: usize,
}

// A line that does not read from this column on.
pub(crate) fn malformed(line: u32, column: usize) -> Halt
    ensures { result ≡ record { refusal = Refusal.Malformed; line = line; column = column } }
{
    Halt {
        refusal: Refusal::Malformed,
        line,
        column,
    }
}

// One line from a place of the text, into row i.
fn read_line(sheet: &mut [u8], text: &[u8], i: u32, at: usize) -> Result<(), Halt>
    requires { i < most_rows }
    ensures { came sheet.new (halt_of result) ≡ told (line_into text.now sheet.old i at) }
{
    if text.len() <= at {
        return Err(malformed(i + 2, 1));
    }
    let line = part(b'\n', text, at);
    line_halt(i + 2, line)?;
    match sheet::edit(sheet, i, entry(line)) {
        Ok(()) => Ok(()),
        Err(refusal) => Err(Halt {
            refusal,
            line: i + 2,
            column: 0,
        }),
    }
}

// So many rows from a place of the text on.
fn read_rows(sheet: &mut [u8], text: &[u8], rows: u32, from: usize) -> Result<(), Halt>
    requires { rows ≤ most_rows }
    ensures { came sheet.new (halt_of result) ≡ rows_into text.now rows sheet.old 0 from }
{
    let mut at = from;
    for i in 0..rows {
        read_line(sheet, text, i, at)?;
        at = next(b'\n', text, at);
    }
    if at < text.len() {
        return Err(malformed(rows + 2, 1));
    }
    Ok(())
}

// The text, into the lent sheet.
pub fn read_text(sheet: &mut [u8], text: &[u8]) -> Result<(), Halt>
    ensures { came sheet.new (halt_of result) ≡ text_into text.now sheet.old }
{
    let Some(n) = rows(text) else {
        return Err(malformed(1, 1));
    };
    match ledger::make_blank(sheet, n as u32) {
        Ok(()) => read_rows(sheet, text, n as u32, next(b'\n', text, 0)),
        Err(refusal) => Err(Halt {
            refusal,
            line: 0,
            column: 0,
        }),
    }
}
