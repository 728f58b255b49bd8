// What legdiff prints: a line at a time at the start of a lent buffer, so that memory does not grow with the rows.
#![tactic(auto)]

mod change;
mod side;

ghost use Rattle.std.specs.Prelude.{◌++◌, ◌+◌, ◌≤◌, length};
ghost use Rattle.laws.specs.Ascii.{ascii};
ghost use Rattle.total.specs.Total.{val};
ghost use Rattle.text.specs.Text.{end};
ghost use Rattle.exact.specs.Exact.{signed_hex};
ghost use Rattle.text.specs.Writing.{Put};
ghost use Rattle.differing.specs.Differing.{field, last, row_text, line_of, end_of, stop_text};

use change::put_change;
use exact::put_whole;
use side::put_side;
use text::{put_bytes, put_decimal};
use total::Signed;

// Room for the longest line: the end's, with a whole number of 544 digits.
pub const LINE: usize = 640;

// The whole line of a row that differs.
fn put_text(out: &mut [u8], old: &[u8], new: &[u8], row: u32) -> usize
    requires { 256 ≤ length out.old }
    ensures put { Put out.old out.new 0 result (row_text old.now new.now row) }
    ensures upper_bound { result ≤ 189 }
{
    let change = difference::changed(old, new, row);
    let a = put_decimal(out, 0, row as u64, 32);
    let b = put_side(out, a, old, row);
    let c = put_side(out, b, new, row);
    put_change(out, c, change)
}

// The row's line at the start of the buffer: its length, 0 where its bytes agree.
// Kept: the answer is a length, as the clauses put and upper_bound say; where the bytes agree there is no line.
pub fn put_line(out: &mut [u8; LINE], old: &[u8], new: &[u8], row: u32) -> usize
    ensures put { Put out.old out.new 0 result (line_of old.now new.now row) }
    ensures upper_bound { result ≤ length out.new }
{
    if difference::agreeing(old, new, row) {
        return 0;
    }
    put_text(out, old, new, row)
}

// The two lines of the end, of a whole number and a count.
fn put_sums(out: &mut [u8], growth: Signed, rows: u32) -> usize
    requires { 640 ≤ length out.old }
    ensures put { Put out.old out.new 0 result ((ascii "difference " ++ (signed_hex growth.negative (val growth.limbs) ++ end)) ++ (ascii "rows " ++ last rows)) }
    ensures upper_bound { result ≤ length out.new }
{
    let a = put_bytes(out, 0, b"difference ");
    let b = put_whole(out, a, growth.negative, &growth.limbs, 10);
    let c = put_bytes(out, b, b"rows ");
    put_decimal(out, c, rows as u64, 10)
}

// What stands after the last row's line, at the start of the buffer: its length.
// Kept: the answer is a length, as the clauses put and upper_bound say.
pub fn put_end(out: &mut [u8; LINE], old: &[u8], new: &[u8]) -> usize
    ensures put { Put out.old out.new 0 result (end_of old.now new.now) }
    ensures upper_bound { result ≤ length out.new }
{
    let rows = difference::changed_rows(old, new);
    let growth = difference::grown(old, new);
    put_sums(out, growth, rows)
}

fn put_rejected(out: &mut [u8], row: u32) -> usize
    requires { 36 ≤ length out.old }
    ensures put { Put out.old out.new 0 result (ascii "refused 10 row " ++ field row) }
    ensures upper_bound { result ≤ length out.new }
{
    let a = put_bytes(out, 0, b"refused 10 row ");
    put_decimal(out, a, row as u64, 32)
}

// What stands in front of the name of a refused file, or of the line's end where neither is named.
// Kept: the contract of this public function, put_stop, holds for every number; an enum would ask more of its callers.
pub fn put_stop(out: &mut [u8; LINE], refusal: u8, row: u32) -> usize
    ensures put { Put out.old out.new 0 result (stop_text refusal row) }
    ensures upper_bound { result ≤ length out.new }
{
    if refusal == 13 {
        return put_bytes(out, 0, b"refused 13");
    }
    if refusal == 10 {
        return put_rejected(out, row);
    }
    put_bytes(out, 0, b"refused 7 ")
}
