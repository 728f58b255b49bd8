// A sheet as hex text (02, [10]): a line at a time at the start of a lent buffer, so that memory does not grow with the rows.
#![tactic(auto)]

ghost use Rattle.std.specs.Prelude.{◌≡◌, ◌+◌, ◌≤◌, length, slice_index};
ghost use Rattle.text.specs.Writing.{Put};
ghost use Rattle.placing.specs.Placed.{Placed};
ghost use Rattle.hexpage.specs.HexPage.{entered_text, worked_text, row_line, count_line};
ghost use Rattle.ledger.specs.Bytes.{pattern_at};

use hexfloat::put_float;
use ledger::pattern_at;
use text::put_decimal;

// Room for the longest line: three numbers and five floats, each with the byte after it.
pub const LINE: usize = 268;

// The bytes of a row, and where its arguments and its answers begin in them.
const ROW: usize = 48;

const A: usize = 8;

const B: usize = 16;

const C: usize = 24;

const FIRST: usize = 32;

const SECOND: usize = 40;

// What was entered, function, arguments and times, each with a comma after it.
fn put_entered(out: &mut [u8], row: &[u8; ROW], times: u16) -> usize
    requires { 268 ≤ length out.old }
    ensures { Placed out.old out.new 0 result 165 (entered_text (slice_index row.now 0) (pattern_at row.now 8) (pattern_at row.now 16) (pattern_at row.now 24) times) }
{
    let at = put_decimal(out, 0, row[0] as u64, b',');
    let at = put_float(out, at, pattern_at(row, A), b',');
    let at = put_float(out, at, pattern_at(row, B), b',');
    let at = put_float(out, at, pattern_at(row, C), b',');
    put_decimal(out, at, times as u64, b',')
}

// What it was worked out to, refusal and answers, and the line's end.
fn put_worked(out: &mut [u8], at: usize, row: &[u8; ROW]) -> usize
    requires { at + 103 ≤ length out.old }
    ensures { Placed out.old out.new at result 103 (worked_text (slice_index row.now 1) (pattern_at row.now 32) (pattern_at row.now 40)) }
{
    let at = put_decimal(out, at, row[1] as u64, b',');
    let at = put_float(out, at, pattern_at(row, FIRST), b',');
    put_float(out, at, pattern_at(row, SECOND), b'\n')
}

// A row's line at the start of the buffer: its length, 0 where there is no such row.
// Kept: the answer is a length, as the clauses put and upper_bound of put_row and put_count say; no line has none.
pub fn put_row(out: &mut [u8; LINE], sheet: &[u8], i: u32) -> usize
    ensures put { Put out.old out.new 0 result (row_line sheet.now i) }
    ensures upper_bound { result ≤ length out.new }
{
    let Some(row) = ledger::read_row(sheet, i).as_array() else {
        return 0;
    };
    let at = put_entered(out, row, ledger::row_times(sheet, i));
    put_worked(out, at, row)
}

// The first line, at the start of the buffer: its length.
// Kept: the answer is a length, as the clauses put and upper_bound say.
pub fn put_count(out: &mut [u8; LINE], sheet: &[u8]) -> usize
    ensures put { Put out.old out.new 0 result (count_line sheet.now) }
    ensures upper_bound { result ≤ length out.new }
{
    put_decimal(out, 0, ledger::rows_in(sheet) as u64, b'\n')
}
