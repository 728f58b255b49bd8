// The page of legrounds, for each row its number, its function, and the rounds that working out its answer makes; and its run, which is legsheet's but for the page.
#![tactic(auto)]

ghost use Rattle.std.specs.Prelude.{◌≡◌, false, [], ◌+◌, ◌≤◌, ◌<◌, length};
ghost use Rattle.ledger.specs.Sheet.{most_rows};
ghost use Rattle.text.specs.Writing.{Put};
ghost use Rattle.ending.specs.Outcome.{Start};
ghost use Rattle.files.specs.Calls.{number_of};
ghost use Rattle.runner.specs.Done.{Done};
ghost use Rattle.rounds.specs.Rounds.{rounds_in, rounds_line, rounds_page};

use ending::Page;
use files::{Program, Source};
use ledger::pattern_at;
use page::{ROOM, shown};
use text::put_three;

// The rounds that working out this row makes.
fn rounds_in(row: &[u8]) -> usize
    requires { length row.now ≡ 48 }
    ensures { result ≡ rounds_in row.now }
{
    let a = pattern_at(row, 8);
    let b = pattern_at(row, 16);
    let c = pattern_at(row, 24);
    sheet::counted(row[0], a, b, c).rounds
}

// The line of row i: at most 30 bytes.
fn put_line(out: &mut [u8], at: usize, sheet: &[u8], i: u32) -> usize
    requires { (at + 63 ≤ length out.old) × (i < most_rows) }
    ensures put { Put out.old out.new at result (rounds_line sheet.now i) }
    ensures upper_bound { result ≤ at + 30 }
{
    let row = ledger::read_row(sheet, i);
    if row.len() == 48 {
        let n = rounds_in(row);
        return put_three(out, at, i as u64, row[0] as u64, n as u64, 10);
    }
    at
}

// The whole page at the start of the buffer: its length.
// Kept: the answer is a length, as the clauses put and upper_bound say.
pub fn put_rounds(out: &mut [u8; ROOM], sheet: &[u8]) -> usize
    ensures put { Put out.old out.new 0 result (rounds_page sheet.now) }
    ensures upper_bound { result ≤ length out.new }
{
    let mut at: usize = 0;
    for i in 0..shown(sheet) {
        at = put_line(out, at, sheet, i);
    }
    at
}

// The page of legrounds.
pub struct Rounds;

impl Page for Rounds {
    ghost text = { rounds_page };

    fn put(out: &mut [u8; ROOM], sheet: &[u8]) -> usize {
        put_rounds(out, sheet)
    }
}

// One run, from an input to an output.
pub fn run(program: Program<'_>, input: Source<'_>)
    ensures { Done (number_of input.entry) program.entry.output rounds_page false [] Start }
{
    runner::run_paged::<Rounds>(program, input, None, b"");
}
