// Hex text read into a sheet file: all that legread does (02, [10]). The file is written by one call, and only with a sheet that every line of the text was taken into.
#![tactic(auto)]

mod ends;
mod saying;

ghost use Rattle.std.specs.Prelude.{◌≡◌, replicate, ◌≤◌};
ghost use Rattle.std.specs.Result.{is_ok};
ghost use Rattle.page.specs.Page.{largest};
ghost use Rattle.files.specs.Calls.{number_of};
ghost use Rattle.files.specs.Save.{Save};
ghost use Rattle.files.specs.Output.{output_of};
ghost use Rattle.hexline.specs.Parts.{part_at};
ghost use Rattle.hextext.specs.HexText.{halt_of, count_of};
ghost use Rattle.reading.specs.Taken.{lent_for, taken_of, end_of, Readable, Answered, Done, Ran};

use answer::Refusal;
use ends::line_ends;
use files::{Output, Program, Source, Unsaved, WORD};
use hextext::Halt;
use loading::put_number;
use page::LARGEST;
use saying::put_halt;

// One byte more than any text that reads has.
pub const MOST_TEXT: usize = 290822;

// How many bytes the text's sheet has; none where there is no such sheet.
// Kept: a length that can't fail: `lent_for` lends no byte where there is no such sheet.
fn lent(text: &[u8]) -> usize
    ensures { (result ≡ lent_for (count_of (part_at 10 text.now 0))) × (result ≤ largest) }
{
    let Some(n) = hextext::rows(text) else {
        return 0;
    };
    if n > 1024 {
        return 0;
    }
    ledger::size_for(n as u32)
}

// The text into the lent zeros: where it halted.
fn take(sheet: &mut [u8], text: &[u8]) -> Result<(), Halt>
    requires { sheet.old ≡ replicate (lent_for (count_of (part_at 10 text.now 0))) 0 }
    ensures { (halt_of result ≡ end_of text.now) × (sheet.new ≡ (taken_of text.now).sheet) }
{
    hextext::read_text(sheet, text)?;
    if MOST_TEXT <= text.len() {
        return Err(Halt {
            refusal: Refusal::Malformed,
            line: 1,
            column: 1,
        });
    }
    Ok(())
}

// The one call that writes a file: with a sheet that a whole text was taken into. So where a text is refused no file is written.
fn save_sheet(rt: &HostRuntime, name: &[u8], sheet: &[u8]) -> Result<(), Unsaved>
    requires { Readable sheet.now }
    ensures { Save name.now sheet.now (is_ok result) }
{
    files::save(rt, name, sheet)
}

// The text taken and put into the file of this name; or why not.
fn settle(program: Program<'_>, sheet: &mut [u8], text: &[u8], name: &[u8]) -> Output
    requires { sheet.old ≡ replicate (lent_for (count_of (part_at 10 text.now 0))) 0 }
    ensures { Answered text.now name.now (output_of program.entry.output) result }
{
    let out = program.begin();
    if let Err(halt) = take(sheet, text) {
        program.tell(
            b": the file is as it was; mend the line that is named, and read the whole text again\n",
        );
        return put_halt(program.rt, out, halt);
    }
    if save_sheet(program.rt, name, sheet).is_err() {
        program.tell(
            b": the file is as it was; make room on its disk, or name a file in a folder that may be written\n",
        );
        return out.cannot_write(program.rt, name);
    }
    put_number(program.rt, out, b"rows ", ledger::rows_in(sheet) as u64)
}

// The text, with a sheet's memory.
fn take_text(program: Program<'_>, text: &[u8], name: &[u8]) -> Output
    ensures { Answered text.now name.now (output_of program.entry.output) result }
{
    let mut sheet = [0u8; LARGEST];
    let n = lent(text);
    settle(program, &mut sheet[0..n], text, name)
}

// The whole input is read before anything is tested.
fn read_input(program: Program<'_>, input: Source<'_>, name: &[u8]) -> Output
    ensures { Done (number_of input.entry) program.entry.output name.now result }
{
    let mut text = [0u8; MOST_TEXT];
    match loading::read_whole(program.rt, input, &mut text) {
        Ok(read) => take_text(program, read, name),
        Err(read) => {
            program.tell(
                b": the input could not be read to its end, and the file is as it was; run it again\n",
            );
            let out = program.begin();
            put_number(
                program.rt,
                out,
                b"input failed after line ",
                line_ends(read),
            )
        }
    }
}

// One run of the program, which is called so.
pub fn run(program: Program<'_>, call: &[u8], input: Source<'_>)
    ensures { Ran (number_of input.entry) program.entry.output call.now }
{
    if files::word_count(program.rt) != 2 {
        program.usage(call);
        return;
    }
    let mut name = [0u8; WORD];
    let name = files::word(program.rt, 1, &mut name);
    let end = read_input(program, input, name);
    ending::tell_cut(program, end);
}
