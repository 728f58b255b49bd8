// The whole input, taken line by line.
ghost use Rattle.std.specs.Prelude.{◌≡◌, suc, ◌<◌};
ghost use Rattle.std.specs.Result.{is_err};
ghost use Rattle.runner.specs.Machine.{room};
ghost use Rattle.files.specs.Calls.{read, number_of};
ghost use Rattle.ending.specs.Outcome.{state_of};
ghost use Rattle.runner.specs.Turns.{turned, goes_on_after, failed_in};
ghost use Rattle.runner.specs.Reads.{Next, most_reads, OneRead, SomeReads};
ghost use Rattle.runner.specs.Done.{Took};

use super::engine::{feed, finish};
use ending::State;
use files::Source;
use line::LONGEST;
use page::LARGEST;

// What the reads so far came to: there may be more, there are none, or the last one failed.
#[derive(Clone, Copy)]
pub(crate) enum Turn {
    More(State),
    End(State),
    Failed(State),
}

// What a read that answered got has brought: so many bytes at the start of its buffer are the next part of the input, none at its end, or it failed.
// After a bad line nothing more is read.
fn take_part(
    got: Option<usize>,
    part: &[u8],
    st: State,
    line: &mut [u8; LONGEST],
    sheet: &mut [u8; LARGEST],
) -> Turn
    ensures { Next (room st line.old sheet.old) (read got part.now) (room (turned result) line.new sheet.new) (goes_on_after result) (failed_in result) }
{
    let n = files::count(got, part);
    let next = feed(st, &part[..n], line, sheet);
    if got.is_none() {
        return Turn::Failed(next);
    }
    if (0 < n) & !next.bad {
        return Turn::More(next);
    }
    Turn::End(next)
}

// One read, and what it brings.
fn read_part(
    rt: &HostRuntime,
    input: Source<'_>,
    left: &mut u64,
    st: State,
    line: &mut [u8; LONGEST],
    sheet: &mut [u8; LARGEST],
) -> Turn
    requires { 0 < left.old }
    ensures left_value { left.old ≡ suc left.new }
    ensures one_read { OneRead (number_of input.entry) left.old (room st line.old sheet.old) (room (turned result) line.new sheet.new) (goes_on_after result) (failed_in result) }
{
    let mut part = [0u8; 4096];
    let got = files::read_some(rt, input, left, &mut part);
    take_part(got, &part, st, line, sheet)
}

// The whole input, from any state: on Err a read failed. A loop has to end, so reading on past 2^64 - 1 reads counts as a failure.
fn read_all(
    rt: &HostRuntime,
    input: Source<'_>,
    from: State,
    line: &mut [u8; LONGEST],
    sheet: &mut [u8; LARGEST],
) -> Result<State, State>
    ensures { SomeReads (number_of input.entry) most_reads (room from line.old sheet.old) (room (state_of result) line.new sheet.new) (is_err result) }
{
    let mut st = from;
    let mut left = u64::MAX;
    // Kept: no index is counted by hand: each read says how far it goes.
    while 0 < left {
        match read_part(rt, input, &mut left, st, line, sheet) {
            Turn::More(next) => st = next,
            Turn::End(end) => return Ok(end),
            Turn::Failed(end) => return Err(end),
        }
    }
    Err(st)
}

// All of its lines, the last one too. A failed read, which is the Err, is not the end of the input, and ends no line.
pub fn take_all(
    rt: &HostRuntime,
    input: Source<'_>,
    from: State,
    line: &mut [u8; LONGEST],
    sheet: &mut [u8; LARGEST],
) -> Result<State, State>
    ensures { Took (number_of input.entry) (room from line.old sheet.old) (state_of result) sheet.new (is_err result) }
{
    let st = read_all(rt, input, from, line, sheet)?;
    Ok(finish(st, line, sheet))
}
