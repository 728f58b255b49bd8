// What a sheet's rows say, for the programs that compare, report and convert. Every call answers for any bytes.
#![tactic(auto)]

ghost use Rattle.std.specs.Prelude.{◌≡◌};
ghost use Rattle.ledger.specs.Class.{class_at, class_number};
ghost use Rattle.inspection.specs.Rows.{sound_row, rejected_row, class_in, word_of, value_in};

use ledger::Class;

// Whether the row passes refusal 10's row tests; false where it can't be read.
pub fn row_sound(sheet: &[u8], row: u32) -> bool
    ensures { result ≡ sound_row sheet.now row }
{
    let bytes = ledger::read_row(sheet, row);
    if bytes.len() != 48 {
        return false;
    }
    let first = bits::from_pattern(ledger::pattern_at(bytes, 32));
    ledger::can_stand(bytes[0], bytes[1], first)
}

// The first row of a sheet that refusal 10's row tests reject.
pub fn first_rejected(sheet: &[u8]) -> Option<u32>
    ensures { result ≡ rejected_row sheet.now }
{
    if ledger::total_refusal(sheet).is_err() {
        return None;
    }
    let rows = ledger::rows_in(sheet) as u32;
    (0..rows).find(|row| !row_sound(sheet, *row))
}

// The row's class; none where its first answer is a NaN, or the row can't be read.
pub fn row_class(sheet: &[u8], row: u32) -> Option<Class>
    ensures { result ≡ class_at (class_in sheet.now row) }
{
    ledger::share_of(ledger::read_row(sheet, row)).class
}

// The number of a class, as `ledger::count` takes it; 5 for none.
pub fn class_number(class: Option<Class>) -> usize
    ensures { result ≡ class_number class }
{
    match class {
        Some(class) => class as usize,
        None => 5,
    }
}

// Word k of the row: function, refusal number and times (0), the arguments (1 to 3) and the answers (4 and 5) as bit patterns; 0 where there is no such word or the row can't be read.
// Kept: it can't fail, and its clause, `word_of`, says 0 there.
pub fn row_word(sheet: &[u8], row: u32, k: usize) -> u64
    ensures { result ≡ word_of sheet.now row k }
{
    if k > 5 {
        return 0;
    }
    ledger::pattern_at(ledger::read_row(sheet, row), 8 * k)
}

// What the row brings to the total each time it was driven: its first answer where that is finite, else +0; +0 where it can't be read.
pub fn row_value(sheet: &[u8], row: u32) -> f64
    ensures { result ≡ value_in sheet.now row }
{
    ledger::share_of(ledger::read_row(sheet, row)).value
}
