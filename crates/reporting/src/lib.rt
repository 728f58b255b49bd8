// The month's report of the files that are named: all that legmonth does (02, [2]). Files are taken one after the other, and no more than one sheet is in memory;
// what stays of a file is its share of the report and what came of it.
#![tactic(auto)]

mod parts;
mod saying;
mod taking;

ghost use Rattle.std.specs.Prelude.{◌≤◌};
ghost use Rattle.files.specs.Output.{output_of};
ghost use Rattle.month.specs.Files.{most_files};
ghost use Rattle.reporting.specs.Reporting.{Reported, Ran};

use files::{Output, Program};
pub use parts::Apart;
use parts::MOST_FILES;
use saying::{put_files, put_page};
use taking::gather;

// What is said on standard error where files are not taken.
fn advise(program: Program<'_>, apart: usize) {
    if apart != 0 {
        program.tell(
            b": the files in the last lines are not in the report; look at their names, and whether they may be read; docs/PROGRAM.md says what a number means\n",
        );
    }
}

// The files are taken, and then all is said.
fn answer(program: Program<'_>, files: usize) -> Output
    requires { files ≤ most_files }
    ensures { Reported (output_of program.entry.output) files result }
{
    let mut all = [Ok(()); MOST_FILES];
    let fates = &mut all[..files];
    let report = gather(program.rt, fates);
    let apart = fates.iter().filter(|fate| fate.is_err()).count();
    let page = put_page(program.rt, program.begin(), report, apart as u64);
    let end = put_files(program.rt, page, fates);
    advise(program, apart);
    end
}

// One run of the program, which is called so.
pub fn run(program: Program<'_>, call: &[u8])
    ensures { Ran program.entry.output call.now }
{
    let words = files::word_count(program.rt);
    if words < 2 {
        program.usage(call);
        return;
    }
    let files = words - 1;
    if MOST_FILES < files {
        program.begin().put(program.rt, b"too many files\n");
        return;
    }
    let end = answer(program, files);
    program.tell_lost(
        end,
        b": the output could not be written, and what is there is cut off; no file was changed\n",
    );
}
