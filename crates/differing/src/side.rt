// A row of one of the two sheets.
ghost use Rattle.std.specs.Prelude.{◌≡◌, ◌+◌, ◌≤◌, length, get_or};
ghost use Rattle.text.specs.Writing.{Put};
ghost use Rattle.differing.specs.Differing.{head_of, arguments_of, side_of};

use text::{put_decimal, put_pattern};

// Byte k of a row; 0 where it can't be read.
// Kept: 0 is what `head_of` says of a row that can't be read.
fn byte_of(row: &[u8], k: usize) -> u8
    ensures { result ≡ get_or row.now k 0 }
{
    row.get(k).copied().unwrap_or(0)
}

// Function and refusal number.
fn put_head(out: &mut [u8], at: usize, row: &[u8]) -> usize
    requires { at + 42 ≤ length out.old }
    ensures put { Put out.old out.new at result (head_of row.now) }
    ensures upper_bound { result ≤ at + 8 }
{
    let function = byte_of(row, 0);
    let refusal = byte_of(row, 1);
    let a = put_decimal(out, at, function as u64, 32);
    put_decimal(out, a, refusal as u64, 32)
}

// The three arguments.
fn put_arguments(out: &mut [u8], at: usize, sheet: &[u8], row: u32) -> usize
    requires { at + 51 ≤ length out.old }
    ensures put { Put out.old out.new at result (arguments_of sheet.now row) }
    ensures upper_bound { result ≤ at + 51 }
{
    let first = inspection::row_word(sheet, row, 1);
    let second = inspection::row_word(sheet, row, 2);
    let third = inspection::row_word(sheet, row, 3);
    let a = put_pattern(out, at, first, 32);
    let b = put_pattern(out, a, second, 32);
    put_pattern(out, b, third, 32)
}

// A row of one of the sheets.
pub(crate) fn put_side(out: &mut [u8], at: usize, sheet: &[u8], row: u32) -> usize
    requires { at + 80 ≤ length out.old }
    ensures put { Put out.old out.new at result (side_of sheet.now row) }
    ensures upper_bound { result ≤ at + 65 }
{
    let bytes = ledger::read_row(sheet, row);
    let times = ledger::row_times(sheet, row);
    let a = put_head(out, at, bytes);
    let b = put_arguments(out, a, sheet, row);
    put_decimal(out, b, times as u64, 32)
}
