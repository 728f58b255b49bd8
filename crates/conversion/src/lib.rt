// From a sheet that says 1 to one that says 3, and back (02, [9]), in the caller's bytes: the length stays. Counts and total are carried over.
#![tactic(auto)]

ghost use Rattle.std.specs.Prelude.{◌≡◌, true, ◌++◌, ◌+◌, ◌≤◌, length, take, drop, eqb, ltb, Some, None};
ghost use Rattle.laws.specs.Ladder.{when◌gives◌else◌};
ghost use Rattle.laws.specs.Splice.{splice};
ghost use Rattle.ledger.specs.Bytes.{bytes};
ghost use Rattle.ledger.specs.Sheet.{row_place};
ghost use Rattle.ledger.specs.Calls.{row_in};
ghost use Rattle.conversion.specs.Conversion.{is_forth, says_before, says_after, turned, turned_rows, first_of, rejected, uncounted, oftener, stopped_of, stop_of, converted_of};

use answer::Refusal;
use ledger::Class;

// From a sheet that says 1 to one that says 3, or the way back.
#[derive(Clone, Copy, PartialEq, Eq)]
pub enum Way {
    Forth,
    Back,
}

// What refuses the call, and the row that it is about.
#[derive(Clone, Copy)]
pub struct Stop {
    pub refusal: Refusal,
    pub row: u32,
}

// What the sheet must say, and what it says afterwards.
fn word_before(way: Way) -> u32
    ensures { result ≡ says_before (is_forth way) }
{
    match way {
        Way::Forth => 1,
        Way::Back => 3,
    }
}

fn word_after(way: Way) -> u32
    ensures { result ≡ says_after (is_forth way) }
{
    match way {
        Way::Forth => word_before(Way::Back),
        Way::Back => word_before(Way::Forth),
    }
}

// Whether the row tests reject the row, or its class counts 0.
fn is_rejected(sheet: &[u8], row: u32) -> bool
    ensures { result ≡ rejected sheet.now row }
{
    if !inspection::row_sound(sheet, row) {
        return true;
    }
    let class = inspection::class_number(inspection::row_class(sheet, row));
    ledger::count(sheet, class as u8) == 0
}

// Whether the row is not blank and was driven other than once.
fn is_oftener(sheet: &[u8], row: u32) -> bool
    ensures { result ≡ oftener sheet.now row }
{
    inspection::row_class(sheet, row) != Some(Class::Blank) && ledger::row_times(sheet, row) != 1
}

// Whether the counts do not add up to the rows.
fn is_uncounted(sheet: &[u8]) -> bool
    ensures { result ≡ uncounted sheet.now }
{
    let all: u64 = [0, 1, 2, 3, 4]
        .iter()
        .map(|class| ledger::count(sheet, *class) as u64)
        .sum();
    all != ledger::rows_in(sheet) as u64
}

// The first row that is rejected, if there is one. A loop, and no `find`: with that the compiled code tests the whole sheet anew for every row.
fn first_rejected(sheet: &[u8], rows: u32) -> Option<u32>
    ensures { result ≡ (when ltb (first_of (rejected sheet.now) rows) rows gives Some (first_of (rejected sheet.now) rows) else None) }
{
    for i in 0..rows {
        let found = is_rejected(sheet, i);
        if found {
            return Some(i);
        }
    }
    None
}

// The first row that was driven other than once, if there is one.
fn first_oftener(sheet: &[u8], rows: u32) -> Option<u32>
    ensures { result ≡ (when ltb (first_of (oftener sheet.now) rows) rows gives Some (first_of (oftener sheet.now) rows) else None) }
{
    for j in 0..rows {
        let found = is_oftener(sheet, j);
        if found {
            return Some(j);
        }
    }
    None
}

// 7 (the wrong direction too), 10 for a row, 10 for the counts (the row is then the number of rows), back also 17; or it would be converted.
pub fn refusal(sheet: &[u8], way: Way) -> Result<(), Stop>
    ensures { stopped_of result ≡ stop_of (is_forth way) sheet.now }
{
    if !ledger::says(sheet, word_before(way)) {
        return Err(Stop {
            refusal: Refusal::NotASheet,
            row: 0,
        });
    }
    let rows = ledger::rows_in(sheet) as u32;
    let damaged = first_rejected(sheet, rows);
    if let Some(row) = damaged {
        return Err(Stop {
            refusal: Refusal::Damaged,
            row,
        });
    }
    if is_uncounted(sheet) {
        return Err(Stop {
            refusal: Refusal::Damaged,
            row: rows,
        });
    }
    if way == Way::Forth {
        return Ok(());
    }
    let often = first_oftener(sheet, rows);
    match often {
        Some(row) => Err(Stop {
            refusal: Refusal::DrivenOften,
            row,
        }),
        None => Ok(()),
    }
}

// The times that a row of this function then has.
fn times_after(function: u8, way: Way) -> u8
    ensures { result ≡ (when is_forth way gives (when eqb function 0 gives 0 else 1) else 0) }
{
    match way {
        Way::Forth => if function == 0 { 0 } else { 1 },
        Way::Back => 0,
    }
}

// Times stand in a row's bytes 2 and 3.
fn turn_row(row: &mut [u8], way: Way)
    requires { length row.old ≡ 48 }
    ensures { row.new ≡ turned (is_forth way) row.old }
{
    row[2] = times_after(row[0], way);
    row[3] = 0;
}

fn turn_part(sheet: &mut [u8], row: u32, way: Way)
    requires { row_place row + 48 ≤ length sheet.old }
    ensures { sheet.new ≡ splice sheet.old (row_place row) (turned (is_forth way) (row_in sheet.old row)) }
{
    let at = ledger::row_place(row);
    let end = at + 48;
    turn_row(&mut sheet[at..end], way);
}

fn turn_rows(sheet: &mut [u8], rows: u32, way: Way)
    requires { row_place rows ≤ length sheet.old }
    ensures { sheet.new ≡ take 32 sheet.old ++ turned_rows (is_forth way) rows (drop 32 sheet.old) }
{
    for row in 0..rows {
        turn_part(sheet, row, way);
    }
}

// The first word.
fn say(sheet: &mut [u8], word: u32)
    requires { 4 ≤ length sheet.old }
    ensures { sheet.new ≡ splice sheet.old 0 (bytes 4 word) }
{
    sheet[0..4].copy_from_slice(&word.to_le_bytes());
}

// The other sheet in the same bytes, or what refuses it; then no byte changes.
pub fn convert(sheet: &mut [u8], way: Way) -> Result<(), Stop>
    ensures { (stopped_of result ≡ stop_of (is_forth way) sheet.old) × (sheet.new ≡ converted_of (is_forth way) sheet.old) }
{
    refusal(sheet, way)?;
    let rows = ledger::rows_in(sheet) as u32;
    say(sheet, word_after(way));
    turn_rows(sheet, rows, way);
    Ok(())
}
