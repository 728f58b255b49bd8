// What is refused.
ghost use Rattle.std.specs.Prelude.{◌≡◌, true, ◌+◌, ◌*◌, ◌≤◌, ◌<◌, length};
ghost use Rattle.answer.specs.Answer.{refusal_of};
ghost use Rattle.ledger.specs.Bytes.{read};
ghost use Rattle.ledger.specs.Sheet.{with_times, most_rows, entries, function_in, sound};
ghost use Rattle.ledger.specs.Calls.{Sized, rows_in, row_in, equal, is_sheet_of, is_sheet, miscounted, damaged, row_rungs, function_rungs, row_refusal, place_refusal};

use super::bytes::part;
use super::row::{index, is_sound, row_in, share_of};
use super::totals::{read_counts, sum};
use crate::{MOST_ROWS, row_place, rows_in, size_for};
use answer::{LAST, Refusal};

// What a sheet's first word says of its rows: whether they keep times.
pub(crate) enum Kind {
    WithoutTimes = 1,
    WithTimes = 3,
}

// Kind, place, length and how many, of the rows and of the totals.
pub(crate) fn contents(kind: u32, rows: u32) -> [u32; 8]
    requires { rows ≤ most_rows }
    ensures { result ≡ entries kind rows }
{
    let end = row_place(rows) as u32;
    [kind, 32, 48 * rows, rows, 2, end, 296, 1]
}

fn starts_with(s: &[u8], words: [u32; 8]) -> bool
    requires { 32 ≤ length s.now }
    ensures { result ≡ equal (read 4 8 s.now) words }
{
    words
        .iter()
        .enumerate()
        .all(|(i, word)| u32::from_le_bytes(part(s, 4 * i)) == *word)
}

// Whether the bytes are a sheet whose first word is this one: 3 where its rows keep times, 1 where they do not.
pub fn says(sheet: &[u8], kind: u32) -> bool
    ensures { result ≡ is_sheet_of kind sheet.now }
{
    let rows = rows_in(sheet);
    if rows > MOST_ROWS {
        return false;
    }
    if sheet.len() != size_for(rows as u32) {
        return false;
    }
    starts_with(sheet, contents(kind, rows as u32))
}

pub(crate) fn is_sheet(s: &[u8]) -> bool
    ensures { result ≡ is_sheet s.now }
{
    says(s, Kind::WithTimes as u32) || says(s, Kind::WithoutTimes as u32)
}

// Whether a sheet's rows keep times: its first word decides.
pub(crate) fn keeps_times(s: &[u8]) -> bool
    requires { is_sheet s.now ≡ true }
    ensures { result ≡ is_sheet_of with_times s.now }
{
    u32::from_le_bytes(part(s, 0)) == Kind::WithTimes as u32
}

// Whether the counts do not add up, or that of a sound row's class is 0.
fn is_miscounted(s: &[u8], row: u32) -> bool
    requires { Sized s.now × (row < rows_in s.now) × (sound (row_in s.now row) ≡ true) }
    ensures { result ≡ miscounted s.now row }
{
    let class = share_of(&row_in(s, row)).class.unwrap();
    let counts = read_counts(s);
    if sum(&counts) != rows_in(s) as u64 {
        return true;
    }
    counts[index(class)] == 0
}

// Whether the row that is to be replaced, or the counts, are damaged.
fn is_damaged(s: &[u8], row: u32) -> bool
    requires { Sized s.now × (row < rows_in s.now) }
    ensures { result ≡ damaged s.now row }
{
    if !is_sound(&row_in(s, row)) {
        return true;
    }
    is_miscounted(s, row)
}

// `taken`: the bytes are a sheet, for the call that asks.
fn refusal_in(s: &[u8], row: u32, taken: bool) -> Result<(), Refusal>
    ensures { refusal_of result ≡ row_rungs taken (rows_in s.now) row }
{
    if !taken {
        return Err(Refusal::NotASheet);
    }
    if row as usize >= rows_in(s) {
        return Err(Refusal::NoSuchRow);
    }
    Ok(())
}

// 7 or 8, or the row can be read.
pub fn row_refusal(sheet: &[u8], row: u32) -> Result<(), Refusal>
    ensures { refusal_of result ≡ row_refusal sheet.now row }
{
    refusal_in(sheet, row, is_sheet(sheet))
}

// The function that goes out: rows of it stand, and no new one is put in (02, [13]).
const WITHDRAWN: u8 = 1;

// What refuses a new row's function.
fn refusal_of_function(function: u8) -> Result<(), Refusal>
    ensures { refusal_of result ≡ function_rungs function 0 }
{
    if function == WITHDRAWN {
        return Err(Refusal::Withdrawn);
    }
    if function > LAST {
        return Err(Refusal::NoSuchFunction);
    }
    Ok(())
}

// A sheet without times is only read.
pub(crate) fn refusal_of_place(s: &[u8], row: u32, new: &[u8; 48]) -> Result<(), Refusal>
    ensures { refusal_of result ≡ place_refusal s.now row new.now }
{
    refusal_in(s, row, says(s, Kind::WithTimes as u32))?;
    refusal_of_function(new[0])?;
    if !is_sound(new) {
        return Err(Refusal::Damaged);
    }
    if is_damaged(s, row) {
        return Err(Refusal::Damaged);
    }
    Ok(())
}
