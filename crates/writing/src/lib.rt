// A sheet file as hex text: all that legwrite does (02, [10]). Lines are sent one after the other from one small buffer, so memory does not grow with them.
#![tactic(auto)]

ghost use Rattle.files.specs.Output.{output_of, Wrote};
ghost use Rattle.hexpage.specs.HexPage.{row_line, row_lines, count_line};
ghost use Rattle.writing.specs.Writing.{written_text, Done, Ran};

use files::{Output, Program, WORD};
use hexpage::LINE;
use loading::MOST;

// The line with the row count.
// Kept: a closure that fills the buffer would make one function of these, but the check does not cover a bound of Fn over an array of any length.
fn send_count(rt: &HostRuntime, out: Output, sheet: &[u8]) -> Output
    ensures { Wrote out (count_line sheet.now) result }
{
    let mut line = [0u8; LINE];
    let n = hexpage::put_count(&mut line, sheet);
    out.put(rt, &line[0..n])
}

// A row's line.
fn send_row(rt: &HostRuntime, out: Output, sheet: &[u8], i: u32) -> Output
    ensures { Wrote out (row_line sheet.now i) result }
{
    let mut line = [0u8; LINE];
    let n = hexpage::put_row(&mut line, sheet, i);
    out.put(rt, &line[0..n])
}

// The lines of the first rows.
fn send_rows(rt: &HostRuntime, out: Output, sheet: &[u8], rows: u32) -> Output
    ensures { Wrote out (row_lines sheet.now rows) result }
{
    let mut sent = out;
    for i in 0..rows {
        sent = send_row(rt, sent, sheet, i);
    }
    sent
}

// These bytes as text, or that they are no sheet.
fn write(program: Program<'_>, sheet: &[u8]) -> Output
    ensures { Wrote (output_of program.entry.output) (written_text sheet.now) result }
{
    if ledger::total_refusal(sheet).is_err() {
        program.tell(b": the file is no sheet; make one with legsheet FILE\n");
        return loading::refused_7(program.rt, program.begin());
    }
    let rows = ledger::rows_in(sheet) as u32;
    let sent = send_count(program.rt, program.begin(), sheet);
    send_rows(program.rt, sent, sheet, rows)
}

// The file of this name as text, or that it can't be read.
fn write_file(program: Program<'_>, name: &[u8]) -> Output
    ensures { Done program.entry.output name.now result }
{
    let mut file = [0u8; MOST];
    let Some(sheet) = loading::load(program.rt, name, &mut file) else {
        return loading::unread(
            program,
            name,
            b": the file could not be read; name a sheet file that is there\n",
        );
    };
    write(program, sheet)
}

// One run of the program, which is called so.
pub fn run(program: Program<'_>, call: &[u8])
    ensures { Ran program.entry.output call.now }
{
    if files::word_count(program.rt) != 2 {
        program.usage(call);
        return;
    }
    let mut name = [0u8; WORD];
    let name = files::word(program.rt, 1, &mut name);
    let end = write_file(program, name);
    ending::tell_cut(program, end);
}
