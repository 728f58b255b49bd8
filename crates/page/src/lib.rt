// What the program prints, written into a lent buffer: the whole page, or one line instead of it.
#![tactic(auto)]

mod row;

ghost use Rattle.std.specs.Prelude.{◌≡◌, ◌++◌, ◌+◌, ◌*◌, ◌≤◌, length};
ghost use Rattle.ledger.specs.Sheet.{most_rows};
ghost use Rattle.text.specs.Text.{decimal, end};
ghost use Rattle.page.specs.Page.{largest, shown_of, row_lines, count_fields, counts_line, total_line, page_of, bad_line, failed_line};
ghost use Rattle.text.specs.Writing.{Put};
ghost use Rattle.placing.specs.Placed.{Placed};

use row::put_row;
use text::{put_bytes, put_decimal, put_pattern};

// The bytes of the largest sheet, 1,024 rows.
pub const LARGEST: usize = 49480;

// Room for its page: 54 bytes a row, and 128 for the counts and the total.
pub const ROOM: usize = 55424;

// The last class, of rows that were refused. Those before it are blank, finite, +∞ and -∞.
const REFUSED: u8 = 4;

// How many rows are shown.
pub fn shown(sheet: &[u8]) -> u32
    ensures { (result ≡ shown_of sheet.now) × (result ≤ most_rows) }
{
    if sheet.len() > LARGEST {
        return 0;
    }
    ledger::rows_in(sheet) as u32
}

// The lines of the first rows.
fn put_rows(out: &mut [u8], sheet: &[u8], rows: u32) -> usize
    requires { (rows ≤ most_rows) × (length out.old ≡ 55424) }
    ensures { Placed out.old out.new 0 result (54 * rows) (row_lines sheet.now rows) }
{
    let mut at = 0;
    for i in 0..rows {
        at = put_row(out, at, sheet, i);
    }
    at
}

// The counts of the classes before the last one, each with a space after it.
fn put_counts(out: &mut [u8], from: usize, sheet: &[u8]) -> usize
    requires { from + 54 ≤ length out.old }
    ensures { Placed out.old out.new from result 44 (count_fields sheet.now 4) }
{
    let mut at = from;
    for class in 0..REFUSED {
        at = put_decimal(out, at, ledger::count(sheet, class) as u64, b' ');
    }
    at
}

fn put_counts_line(out: &mut [u8], at: usize, sheet: &[u8]) -> usize
    requires { at + 72 ≤ length out.old }
    ensures { Placed out.old out.new at result 62 (counts_line sheet.now) }
{
    let a = put_bytes(out, at, b"counts ");
    let b = put_counts(out, a, sheet);
    put_decimal(out, b, ledger::count(sheet, REFUSED) as u64, b'\n')
}

fn put_total_line(out: &mut [u8], at: usize, sheet: &[u8]) -> usize
    requires { at + 23 ≤ length out.old }
    ensures { Placed out.old out.new at result 23 (total_line sheet.now) }
{
    let a = put_bytes(out, at, b"total ");
    put_pattern(out, a, bits::to_pattern(ledger::total(sheet)), b'\n')
}

fn put_sheet(out: &mut [u8], sheet: &[u8]) -> usize
    requires { (length sheet.now ≤ largest) × (length out.old ≡ 55424) }
    ensures { Placed out.old out.new 0 result 55424 (page_of sheet.now) }
{
    let rows = shown(sheet);
    let a = put_rows(out, sheet, rows);
    let b = put_counts_line(out, a, sheet);
    put_total_line(out, b, sheet)
}

// A line of words and a number.
fn put_note(out: &mut [u8], words: &[u8], n: u64) -> usize
    requires { length words.now + 21 ≤ length out.old }
    ensures { Placed out.old out.new 0 result (length words.now + 21) (words.now ++ decimal n ++ end) }
{
    let a = put_bytes(out, 0, words);
    put_decimal(out, a, n, b'\n')
}

// The whole page at the start of the buffer: its length.
// Kept: the answer is a length, as the clauses put and upper_bound of put_page, put_bad and put_failed say.
pub fn put_page(out: &mut [u8; ROOM], sheet: &[u8]) -> usize
    ensures put { Put out.old out.new 0 result (page_of sheet.now) }
    ensures upper_bound { result ≤ length out.new }
{
    if sheet.len() > LARGEST {
        return 0;
    }
    put_sheet(out, sheet)
}

// Line k of the input is malformed, or its call was refused.
pub fn put_bad(out: &mut [u8; ROOM], k: u64) -> usize
    ensures put { Put out.old out.new 0 result (bad_line k) }
    ensures upper_bound { result ≤ length out.new }
{
    put_note(out, b"bad line ", k)
}

// The input could not be read on after line k.
pub fn put_failed(out: &mut [u8; ROOM], k: u64) -> usize
    ensures put { Put out.old out.new 0 result (failed_line k) }
    ensures upper_bound { result ≤ length out.new }
{
    put_note(out, b"input failed after line ", k)
}
