// One row's line.
ghost use Rattle.std.specs.Prelude.{◌≡◌, ◌+◌, ◌≤◌, ◌<◌, length};
ghost use Rattle.ledger.specs.Sheet.{most_rows};
ghost use Rattle.page.specs.Page.{row_text, row_line};
ghost use Rattle.placing.specs.Placed.{Placed};

use ledger::pattern_at;
use text::{put_decimal, put_pattern, put_three};

// The bytes of a row, and where its two answers begin in them.
const ROW: usize = 48;

const FIRST: usize = 32;

const SECOND: usize = 40;

// The line of a row that was read: its number, function and refusal number, two answers, and the times.
fn put_text(out: &mut [u8], at: usize, i: u32, row: &[u8; ROW], times: u16) -> usize
    requires { (at + 68 ≤ length out.old) × (i < most_rows) }
    ensures { Placed out.old out.new at result 54 (row_text i row.now times) }
{
    let a = put_three(out, at, i as u64, row[0] as u64, row[1] as u64, b' ');
    let b = put_pattern(out, a, pattern_at(row, FIRST), b' ');
    let c = put_pattern(out, b, pattern_at(row, SECOND), b' ');
    put_decimal(out, c, times as u64, b'\n')
}

// The line of row i.
pub(crate) fn put_row(out: &mut [u8], at: usize, sheet: &[u8], i: u32) -> usize
    requires { (at + 68 ≤ length out.old) × (i < most_rows) }
    ensures { Placed out.old out.new at result 54 (row_line sheet.now i) }
{
    let Some(row) = ledger::read_row(sheet, i).as_array() else {
        return at;
    };
    put_text(out, at, i, row, ledger::row_times(sheet, i))
}
