// A whole run: its reads, what is saved, what is written. What the bytes mean is the engine's, and each call of the system stands in `files`; this only carries them.
// No call but `files::save` writes a file, and `save_sheet` alone calls it: so after a bad line or a failed read the file holds what it held.
#![tactic(auto)]

mod engine;
mod keeping;
mod lines;
mod reading;

ghost use Rattle.std.specs.Prelude.{◌≡◌, is_some};
ghost use Rattle.page.specs.Page.{largest, page_of};
ghost use Rattle.files.specs.Calls.{number_of};
ghost use Rattle.runner.specs.Run.{zeros};
ghost use Rattle.runner.specs.Machine.{longest, room, Begins};
ghost use Rattle.runner.specs.Done.{begun_of, named, Done};

use ending::{Legs, Page, State};
pub use engine::start;
use files::{Program, Source};
use keeping::keep;
use line::LONGEST;
use lines::between;
use page::LARGEST;
pub use reading::take_all;

// Where a run begins: with the sheet in these bytes, at the front of the memory, or with none where they are no sheet.
fn begin(from: &[u8], sheet: &mut [u8; LARGEST]) -> State
    requires { sheet.old ≡ zeros largest }
    ensures { Begins (begun_of from.now) (room result (zeros longest) sheet.new) }
{
    if ledger::total_refusal(from).is_err() {
        return start();
    }
    text::put_bytes(sheet, 0, from);
    between(0, from.len(), false)
}

// A run from an input to an output. It begins with the sheet in `from`, or with none where these bytes are no sheet; where there is a file for it, the sheet is then in
// the file of this name.
pub fn run(program: Program<'_>, input: Source<'_>, file: Option<&[u8]>, from: &[u8])
    ensures { Done (number_of input.entry) program.entry.output page_of (is_some file.entry) (named file.entry) (begun_of from.now) }
{
    run_paged::<Legs>(program, input, file, from);
}

// The same by any page.
pub fn run_paged<P: Page>(program: Program<'_>, input: Source<'_>, file: Option<&[u8]>, from: &[u8])
    ensures { Done (number_of input.entry) program.entry.output P.text (is_some file.entry) (named file.entry) (begun_of from.now) }
{
    let mut line = [0u8; LONGEST];
    let mut sheet = [0u8; LARGEST];
    let st = begin(from, &mut sheet);
    let end = take_all(program.rt, input, st, &mut line, &mut sheet);
    let saved = keep(program.rt, file, end, &sheet);
    let out = ending::write_page::<P>(program, saved, end, &sheet);
    ending::tell_cut(program, out);
}
