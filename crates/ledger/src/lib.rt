// The leg sheet's bytes, in memory that the caller lends (01, "The leg sheet"): contents, rows, counts and total. Nothing here knows the integrals.
// Every call answers for any bytes; a refused one changes none.
#![tactic(auto)]

ghost use Rattle.std.specs.Prelude.{◌≡◌, true, false, ◌+◌, ◌*◌, ◌≤◌, ◌<◌};
ghost use Rattle.total.specs.Total.{val};
ghost use Rattle.answer.specs.Answer.{refusal_of};
ghost use Rattle.ledger.specs.Bytes.{fields};
ghost use Rattle.ledger.specs.Sheet.{most_rows, size_for, row_place, sound};
ghost use Rattle.ledger.specs.Calls.{Sized, rows_in, blank_refusal, blank_of, damaged, edited, place_refusal, place_of, read_of, times_of, total_refusal, total_of, exact_of, count_of};

use answer::Refusal;
pub use bytes::pattern_at;
use bytes::{pair, put_words};
use checks::{Kind, contents, is_sheet, keeps_times, refusal_of_place};
pub use checks::{row_refusal, says};
pub use row::{Class, Share, can_stand, share_of};
use row::{row_in, row_of, row_part, times, write_row};
use total::Total;
use totals::{read_counts, read_total, revise};

mod bytes;
mod checks;
mod row;
mod totals;

// The most rows of a sheet.
pub const MOST_ROWS: usize = 1024;

// How many bytes a sheet of so many rows has.
pub fn size_for(rows: u32) -> usize
    ensures { result ≡ size_for rows }
{
    328 + 48 * (rows as usize)
}

// How many rows so many bytes have room for.
pub fn rows_in(sheet: &[u8]) -> usize
    ensures { result ≡ rows_in sheet.now }
{
    if sheet.len() < 328 {
        return 0;
    }
    (sheet.len() - 328) / 48
}

// Where a row starts.
pub fn row_place(row: u32) -> usize
    ensures { result ≡ row_place row }
{
    32 + 48 * (row as usize)
}

// Eight numbers of four bytes, two to a word.
fn paired(xs: [u32; 8]) -> [u64; 4]
    ensures { fields 8 result ≡ fields 4 xs }
{
    let [a, b, c, d, e, f, g, h] = xs;
    [pair(a, b), pair(c, d), pair(e, f), pair(g, h)]
}

// A blank sheet of so many rows, which keep times: 11 more than 1,024, 7 another length.
pub fn make_blank(sheet: &mut [u8], rows: u32) -> Result<(), Refusal>
    ensures { (refusal_of result ≡ blank_refusal sheet.old rows) × (sheet.new ≡ blank_of sheet.old rows) }
{
    if rows as usize > MOST_ROWS {
        return Err(Refusal::TooManyRows);
    }
    if sheet.len() != size_for(rows) {
        return Err(Refusal::NotASheet);
    }
    sheet.fill(0);
    put_words(
        &mut sheet[0..32],
        &paired(contents(Kind::WithTimes as u32, rows)),
    );
    let at = row_place(rows);
    let end = at + 4;
    sheet[at..end].copy_from_slice(&rows.to_le_bytes());
    Ok(())
}

// A row in place of what stands there, and the totals revised.
fn store(sheet: &mut [u8], row: u32, new: &[u8; 48])
    requires { Sized sheet.old × (rows_in sheet.old ≤ most_rows) × (row < rows_in sheet.old) × (damaged sheet.old row ≡ false) × (sound new.now ≡ true) }
    ensures { sheet.new ≡ edited sheet.old row new.now }
{
    let old = row_in(sheet, row);
    let at = row_place(row);
    let end = at + 48;
    write_row(&mut sheet[at..end], new);
    revise(sheet, &old, new);
}

// A row of these words in place of another: 7 (no sheet, or one without times), 8, 22 and 9 (their function), 10 (the old row or the counts damaged, or the new row not one that an edit stores).
pub fn place(sheet: &mut [u8], row: u32, words: [u64; 6]) -> Result<(), Refusal>
    ensures { (refusal_of result ≡ place_refusal sheet.old row (fields 8 words)) × (sheet.new ≡ place_of sheet.old row (fields 8 words)) }
{
    let new = row_of(words);
    refusal_of_place(sheet, row, &new)?;
    store(sheet, row, &new);
    Ok(())
}

// The row's own 48 bytes, or an empty part; `row_refusal` says why.
pub fn read_row(sheet: &[u8], row: u32) -> &[u8]
    ensures { result.now ≡ read_of sheet.now row }
{
    if row_refusal(sheet, row).is_err() {
        return &sheet[0..0];
    }
    row_part(sheet, row)
}

// How often the row was driven: once in a sheet that keeps no times, where a blank row never was; 0 where it can't be read.
pub fn row_times(sheet: &[u8], row: u32) -> u16
    ensures { result ≡ times_of sheet.now row }
{
    if row_refusal(sheet, row).is_err() {
        return 0;
    }
    let bytes = row_in(sheet, row);
    if keeps_times(sheet) {
        return times(&bytes);
    }
    if bytes[0] == 0 { 0 } else { 1 }
}

// 7, or the bytes are a sheet.
pub fn total_refusal(sheet: &[u8]) -> Result<(), Refusal>
    ensures { refusal_of result ≡ total_refusal sheet.now }
{
    if is_sheet(sheet) {
        Ok(())
    } else {
        Err(Refusal::NotASheet)
    }
}

// The total as it is stored, in limbs; 0 where it is refused.
pub fn exact_total(sheet: &[u8]) -> [u64; 34]
    ensures { val result ≡ exact_of sheet.now }
{
    if total_refusal(sheet).is_err() {
        return Total::zero().limbs();
    }
    read_total(sheet)
}

// The total rounded once to f64, and +0 where it is refused.
pub fn total(sheet: &[u8]) -> f64
    ensures { result ≡ total_of sheet.now }
{
    Total::of(exact_total(sheet)).rounded()
}

// How many rows are blank (0), finite (1), +∞ (2), -∞ (3) or refused (4), by the sheet's own counts; 0 for another class or where it is refused.
pub fn count(sheet: &[u8], class: u8) -> u32
    ensures { result ≡ count_of sheet.now class }
{
    if total_refusal(sheet).is_err() {
        return 0;
    }
    if class > 4 {
        return 0;
    }
    read_counts(sheet)[class as usize]
}
