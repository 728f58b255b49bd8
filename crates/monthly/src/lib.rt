// What legmonth prints: the month's report, written into a lent buffer, and the start of the line of a file that is not taken.
#![tactic(auto)]

mod lines;

ghost use Rattle.std.specs.Prelude.{◌+◌, ◌≤◌, length};
ghost use Rattle.total.specs.Total.{val};
ghost use Rattle.text.specs.Writing.{Put};
ghost use Rattle.placing.specs.Placed.{Placed};
ghost use Rattle.monthly.specs.Monthly.{head_text, sums_text, extremes_text, report_text, stop_text, unread_text};

use lines::{put_counts, put_exact, put_extreme, put_note, put_refusals, put_total};
use month::{Extreme, Report};
use text::put_bytes;
use total::Total;

// Room for a report: at most 7 lines, the exact total's among them, and 32 of refusals.
pub const ROOM: usize = 4096;

// The lines before the total.
fn put_head(out: &mut [u8], sheets: u64, apart: u64, counts: [u64; 5]) -> usize
    requires { 167 ≤ length out.old }
    ensures { Placed out.old out.new 0 result 167 (head_text sheets apart counts) }
{
    let a = put_note(out, 0, b"sheets ", sheets, b'\n');
    let b = put_note(out, a, b"apart ", apart, b'\n');
    put_counts(out, b, counts)
}

fn put_extremes(
    out: &mut [u8],
    at: usize,
    largest: Option<Extreme>,
    smallest: Option<Extreme>,
) -> usize
    requires { at + 155 ≤ length out.old }
    ensures { Placed out.old out.new at result 155 (extremes_text largest smallest) }
{
    let a = put_extreme(out, at, b"largest ", largest);
    put_extreme(out, a, b"smallest ", smallest)
}

fn put_sums(out: &mut [u8], at: usize, total: Total) -> usize
    requires { at + 575 ≤ length out.old }
    ensures { Placed out.old out.new at result 575 (sums_text (val total.limbs)) }
{
    let a = put_total(out, at, total);
    put_exact(out, a, total)
}

fn put_lines(out: &mut [u8], report: Report, apart: u64) -> usize
    requires { 2497 ≤ length out.old }
    ensures { Placed out.old out.new 0 result 2497 (report_text apart report) }
{
    let a = put_head(out, report.sheets, apart, report.counts);
    let b = put_sums(out, a, report.total);
    let c = put_extremes(out, b, report.largest, report.smallest);
    put_refusals(out, c, report.refusals)
}

// The whole report at the start of the buffer: its length. `apart`: how many files were not taken.
// Kept: the answer is a length, as the clauses put and upper_bound say.
pub fn put_report(out: &mut [u8; ROOM], report: Report, apart: u64) -> usize
    ensures put { Put out.old out.new 0 result (report_text apart report) }
    ensures upper_bound { result ≤ length out.new }
{
    put_lines(out, report, apart)
}

// The start of the line of a file that is not taken: `file 7 `, or `file 10 row I `. Its name and the line's end follow.
// Kept: the contract of this public function, put_stop, holds for every number; an enum would ask more of its callers.
pub fn put_stop(out: &mut [u8; ROOM], refusal: u8, row: u32) -> usize
    ensures put { Put out.old out.new 0 result (stop_text refusal row) }
    ensures upper_bound { result ≤ length out.new }
{
    if refusal == 10 {
        return put_note(out, 0, b"file 10 row ", row as u64, b' ');
    }
    put_note(out, 0, b"file ", refusal as u64, b' ')
}

// The start of the line of one that can't be read.
pub fn put_unread(out: &mut [u8; ROOM]) -> usize
    ensures put { Put out.old out.new 0 result unread_text }
    ensures upper_bound { result ≤ length out.new }
{
    put_bytes(out, 0, b"file unread ")
}
