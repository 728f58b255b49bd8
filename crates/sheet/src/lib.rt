// The leg sheet (01): the functions by their numbers, and its edits, in bytes that the caller lends: a row worked out by the function of its number, and put in
// its place. Each call answers for any bytes; a refused edit changes none.
#![tactic(auto)]

ghost use Rattle.std.specs.Prelude.{◌≡◌};
ghost use Rattle.answer.specs.Answer.{refusal_of};
ghost use Rattle.sheet.specs.Edit.{edit_refusal, edit_of};

use answer::Refusal;
pub use row::words;

mod functions;
mod row;

pub use functions::{counted, evaluate, used};

// What is entered in a row: a function's number, its arguments' bit patterns, and how often the leg was driven.
#[derive(Clone, Copy)]
pub struct Entry {
    pub function: u8,
    pub a: u64,
    pub b: u64,
    pub c: u64,
    pub times: u16,
}

// An entry worked out in a row, or 7, 8, 22, 9 or 10.
pub fn edit(sheet: &mut [u8], row: u32, entry: Entry) -> Result<(), Refusal>
    ensures { (refusal_of result ≡ edit_refusal sheet.old row entry.function) × (sheet.new ≡ edit_of sheet.old row entry) }
{
    ledger::place(sheet, row, words(entry))
}
