// How a run ends: what it has come to, its text, which is written, and where something failed it is said what to do next.
#![tactic(auto)]

mod outcome;

ghost use Rattle.std.specs.Prelude.{◌≡◌, false};
ghost use Rattle.std.specs.Result.{is_err};
ghost use Rattle.files.specs.Output.{output_of, Wrote};
ghost use Rattle.ending.specs.Outcome.{state_of, text_of};
ghost use Rattle.ending.specs.Ending.{kept_or, Told};

use files::{Output, Program};
use outcome::put_text;
pub use outcome::{Legs, Page, State, bytes, put_instead};
use page::{LARGEST, ROOM};

// The text, once the file is saved; where it could not be, that alone. The Err has the file's name.
// Kept: `failed` picks no other step; it is told beside the text.
pub fn write_run(
    program: Program<'_>,
    saved: Result<(), &[u8]>,
    failed: bool,
    text: &[u8],
) -> Output
    ensures { Wrote (output_of program.entry.output) (kept_or saved.entry text.now) result }
{
    if let Err(name) = saved {
        program.tell(
            b": the file could not be written, and holds what it held; see to its folder and run it again\n",
        );
        return program.begin().cannot_write(program.rt, name);
    }
    if failed {
        program.tell(
            b": the input could not be read to its end, so no sheet is printed; give it again as a whole\n",
        );
    }
    program.begin().put(program.rt, text)
}

// The same, of the page of the sheet that the run came to, or, on Err, had come to before a read that failed.
pub fn write_page<P: Page>(
    program: Program<'_>,
    saved: Result<(), &[u8]>,
    end: Result<State, State>,
    sheet: &[u8; LARGEST],
) -> Output
    ensures { Wrote (output_of program.entry.output) (kept_or saved.entry (text_of P.text (is_err end) (state_of end) sheet.now)) result }
{
    let mut out = [0u8; ROOM];
    let n = put_text::<P>(end, sheet, &mut out);
    write_run(program, saved, end.is_err(), &out[..n])
}

// What was written may be cut off: then standard error is told so.
pub fn tell_cut(program: Program<'_>, out: Output)
    ensures { out.ok ≡ false → Told program.entry.name.now }
{
    program.tell_lost(
        out,
        b": the output could not be written, and what is there is cut off; run it again\n",
    );
}
