// One whole line: the row count or an edit, and the call that it asks for.
ghost use Rattle.std.specs.Prelude.{◌≡◌, length};
ghost use Rattle.line.specs.Line.{decimal_of, line_of};
ghost use Rattle.page.specs.Page.{largest};
ghost use Rattle.runner.specs.Machine.{held, count_line, edit_line, take_line};
ghost use Rattle.runner.specs.Machine.{between as Machine·between};

use ending::State;
use ledger::MOST_ROWS;
use sheet::Entry;

// The state where there is a sheet, after line number lines, with nothing of the next one held.
// Kept: `bad` is a field of State, which `between` of the specs takes.
pub(crate) fn between(lines: u64, size: usize, bad: bool) -> State
    ensures { result ≡ Machine·between lines size bad }
{
    State {
        lines,
        held: 0,
        size,
        begun: true,
        bad,
    }
}

// Line k is the row count.
fn count_line(k: u64, s: &[u8], sheet: &mut [u8]) -> State
    requires { length sheet.old ≡ largest }
    ensures { held result sheet.new ≡ count_line k sheet.old (decimal_of s.now) }
{
    let Some(rows) = line::decimal(s) else {
        return between(k, 0, true);
    };
    if (MOST_ROWS as u64) < rows {
        return between(k, 0, true);
    }
    let n = ledger::size_for(rows as u32);
    let made = ledger::make_blank(&mut sheet[0..n], rows as u32);
    between(k, n, made.is_err())
}

// Line k is an edit.
fn edit_line(k: u64, size: usize, s: &[u8], sheet: &mut [u8]) -> State
    ensures { held result sheet.new ≡ edit_line k size sheet.old (line_of s.now) }
{
    let Some(edit) = line::read_edit(s) else {
        return between(k, size, true);
    };
    let n = size.min(sheet.len());
    let done = sheet::edit(
        &mut sheet[0..n],
        edit.row,
        Entry {
            function: edit.function,
            a: edit.a,
            b: edit.b,
            c: edit.c,
            times: edit.times,
        },
    );
    between(k, size, done.is_err())
}

pub(crate) fn take_line(st: State, s: &[u8], sheet: &mut [u8]) -> State
    requires { length sheet.old ≡ largest }
    ensures { held result sheet.new ≡ take_line st s.now sheet.old }
{
    let k = st.lines.wrapping_add(1);
    if st.begun {
        return edit_line(k, st.size, s, sheet);
    }
    count_line(k, s, sheet)
}
