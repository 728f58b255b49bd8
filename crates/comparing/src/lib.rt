// Two sheet files compared: all that legdiff does (02, [5]). Lines are sent one after the other from one small buffer, so memory does not grow with them.
#![tactic(auto)]

ghost use Rattle.std.specs.Prelude.{◌≡◌};
ghost use Rattle.loading.specs.Notes.{cannot_read};
ghost use Rattle.files.specs.Output.{output_of, Wrote};
ghost use Rattle.differing.specs.Differing.{line_of, lines_of, end_of, name_in, refused_text};
ghost use Rattle.comparing.specs.Comparing.{compared_text, Done, Ran};

use difference::{Side, Stop};
use differing::LINE;
use files::{Output, Program, WORD};
use loading::MOST;

// The line of a row that differs; nothing where it does not.
// Kept: a closure that fills the buffer would make one function of these, but the check does not cover a bound of Fn over an array of any length.
fn send_line(rt: &HostRuntime, out: Output, old: &[u8], new: &[u8], row: u32) -> Output
    ensures { Wrote out (line_of old.now new.now row) result }
{
    let mut line = [0u8; LINE];
    let n = differing::put_line(&mut line, old, new, row);
    out.put(rt, &line[0..n])
}

// The lines of the first rows.
fn send_lines(rt: &HostRuntime, out: Output, old: &[u8], new: &[u8], rows: u32) -> Output
    ensures { Wrote out (lines_of old.now new.now rows) result }
{
    let mut sent = out;
    for i in 0..rows {
        sent = send_line(rt, sent, old, new, i);
    }
    sent
}

// The difference of the totals, and how many rows differ.
fn send_end(rt: &HostRuntime, out: Output, old: &[u8], new: &[u8]) -> Output
    ensures { Wrote out (end_of old.now new.now) result }
{
    let mut line = [0u8; LINE];
    let n = differing::put_end(&mut line, old, new);
    out.put(rt, &line[0..n])
}

// The name of the file that the refusal is about; empty where it is about both.
fn name_in<'a>(stop: Stop, old: &'a [u8], new: &'a [u8]) -> &'a [u8]
    ensures { result.now ≡ name_in old.now new.now stop }
{
    match stop {
        Stop::NotASheet(Side::Old) | Stop::Damaged(Side::Old, _) => old,
        Stop::NotASheet(Side::New) | Stop::Damaged(Side::New, _) => new,
        Stop::Unequal => b"",
    }
}

// Why the sheets are not compared, and the name of the file that it is about.
fn send_refusal(rt: &HostRuntime, out: Output, old: &[u8], new: &[u8], stop: Stop) -> Output
    ensures { Wrote out (refused_text old.now new.now stop) result }
{
    let mut line = [0u8; LINE];
    let n = differing::put_stop(&mut line, stop.number(), stop.row());
    out.put(rt, &line[0..n])
        .put(rt, name_in(stop, old, new))
        .put(rt, b"\n")
}

// Two sheets, or what refuses them: nothing is sent before every test has passed.
fn compare(program: Program<'_>, first: &[u8], second: &[u8], old: &[u8], new: &[u8]) -> Output
    ensures { Wrote (output_of program.entry.output) (compared_text first.now second.now old.now new.now) result }
{
    let out = program.begin();
    if let Err(stop) = difference::stopped(old, new) {
        return send_refusal(program.rt, out, first, second, stop);
    }
    let rows = ledger::rows_in(old) as u32;
    let sent = send_lines(program.rt, out, old, new, rows);
    send_end(program.rt, sent, old, new)
}

// A file that can't be read.
fn unread(program: Program<'_>, name: &[u8]) -> Output
    ensures { Wrote (output_of program.entry.output) (cannot_read name.now) result }
{
    loading::unread(
        program,
        name,
        b": nothing was compared; look at the name, and whether that file may be read\n",
    )
}

// Both files are read before either is tested.
fn compare_files(program: Program<'_>, old: &[u8], new: &[u8]) -> Output
    ensures { Done program.entry.output old.now new.now result }
{
    let mut first = [0u8; MOST];
    let mut second = [0u8; MOST];
    let before = loading::load(program.rt, old, &mut first);
    let after = loading::load(program.rt, new, &mut second);
    let Some(before) = before else {
        return unread(program, old);
    };
    let Some(after) = after else {
        return unread(program, new);
    };
    compare(program, old, new, before, after)
}

// One run of the program, which is called so.
pub fn run(program: Program<'_>, call: &[u8])
    ensures { Ran program.entry.output call.now }
{
    if files::word_count(program.rt) != 3 {
        program.usage(call);
        return;
    }
    let mut old = [0u8; WORD];
    let mut new = [0u8; WORD];
    let old = files::word(program.rt, 1, &mut old);
    let new = files::word(program.rt, 2, &mut new);
    let end = compare_files(program, old, new);
    program.tell_lost(
        end,
        b": the output could not be written, and what is there is cut off; run it again\n",
    );
}
