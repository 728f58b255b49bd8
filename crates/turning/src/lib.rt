// A sheet file turned into one of the other kind: all that legforth and legback do (02, [9]). The second file is written by one call, and only with a sheet that was accepted and converted.
#![tactic(auto)]

ghost use Rattle.std.specs.Result.{is_ok};
ghost use Rattle.answer.specs.Numbers.{number};
ghost use Rattle.conversion.specs.Conversion.{is_forth, stopped};
ghost use Rattle.files.specs.Save.{Save};
ghost use Rattle.files.specs.Output.{output_of, Wrote};
ghost use Rattle.turning.specs.Turning.{stop_line, Converted, Answered, Done, Ran};

use answer::Refusal;
use conversion::Stop;
pub use conversion::Way;
use files::{Output, Program, Unsaved, WORD};
use loading::{MOST, put_number};

// What refused the sheet.
fn put_stop(rt: &HostRuntime, out: Output, stop: Stop, rows: u64) -> Output
    ensures { Wrote out (stop_line (stopped (number stop.refusal) stop.row) rows) result }
{
    match stop.refusal {
        Refusal::NotASheet => loading::refused_7(rt, out),
        Refusal::DrivenOften => put_number(rt, out, b"refused 17 row ", stop.row as u64),
        _ if stop.row as u64 == rows => out.put(rt, b"refused 10 counts\n"),
        _ => put_number(rt, out, b"refused 10 row ", stop.row as u64),
    }
}

// The one call that writes a file: with a sheet that was accepted, and converted. So where a sheet is refused no file is written.
fn save_sheet(rt: &HostRuntime, to: &[u8], sheet: &[u8]) -> Result<(), Unsaved>
    requires { Converted sheet.now }
    ensures { Save to.now sheet.now (is_ok result) }
{
    files::save(rt, to, sheet)
}

// The sheet that was read, converted where it lies and put into the file of this name; or why not.
fn settle(program: Program<'_>, sheet: &mut [u8], to: &[u8], way: Way) -> Output
    ensures { Answered sheet.old to.now (is_forth way) (output_of program.entry.output) result }
{
    let out = program.begin();
    let rows = ledger::rows_in(sheet) as u64;
    if let Err(stop) = conversion::convert(sheet, way) {
        program.tell(
            b": the sheet is not converted, and the second file is as it was; docs/PROGRAM.md says what the number means\n",
        );
        return put_stop(program.rt, out, stop, rows);
    }
    if save_sheet(program.rt, to, sheet).is_err() {
        program.tell(
            b": the second file is as it was; make room on its disk, or name a file in a folder that may be written\n",
        );
        return out.cannot_write(program.rt, to);
    }
    put_number(program.rt, out, b"rows ", rows)
}

// The file named first is read, the one named second is written, and what came of it is said.
fn turn(program: Program<'_>, from: &[u8], to: &[u8], way: Way) -> Output
    ensures { Done program.entry.output from.now to.now (is_forth way) result }
{
    let mut sheet = [0u8; MOST];
    let Some(bytes) = loading::load(program.rt, from, &mut sheet) else {
        return loading::unread(
            program,
            from,
            b": nothing was converted; look at the first name, and whether that file may be read\n",
        );
    };
    settle(program, bytes, to, way)
}

// One run of the program, which is called so.
pub fn run(program: Program<'_>, call: &[u8], way: Way)
    ensures { Ran program.entry.output call.now (is_forth way) }
{
    if files::word_count(program.rt) != 3 {
        program.usage(call);
        return;
    }
    let mut from = [0u8; WORD];
    let mut to = [0u8; WORD];
    let from = files::word(program.rt, 1, &mut from);
    let to = files::word(program.rt, 2, &mut to);
    let end = turn(program, from, to, way);
    program.tell_lost(
        end,
        b": the output could not be written; look at the second file to see whether it was converted\n",
    );
}
