// The run, byte by byte, over lent memory: no input and no output.
ghost use Rattle.std.specs.Prelude.{◌≡◌, ◌≤◌, length};
ghost use Rattle.page.specs.Page.{largest};
ghost use Rattle.runner.specs.Machine.{longest, room, start_of, longer_of, end_of, step_of, feed_of, finish_of};

use super::lines::{between, take_line};
use ending::State;
use line::LONGEST;

// No sheet yet: line 1 is the row count.
pub fn start() -> State
    ensures { result ≡ start_of }
{
    State {
        lines: 0,
        held: 0,
        size: 0,
        begun: false,
        bad: false,
    }
}

// One more byte of a line is held; the 84th stands for all that follow.
fn longer(st: State) -> State
    requires { st.held ≤ longest }
    ensures { result ≡ longer_of st }
{
    State {
        held: st.held + 1,
        bad: false,
        ..st
    }
}

// A line end. The input's end is one too, and calls this itself: `step` is then called in one place, and becomes a part of the loop there.
fn end_line(st: State, line: &[u8], sheet: &mut [u8]) -> State
    requires { (length line.now ≡ longest) × (length sheet.old ≡ largest) }
    ensures { room result line.now sheet.new ≡ end_of (room st line.now sheet.old) }
{
    let at = st.held;
    if LONGEST < at {
        let k = st.lines.wrapping_add(1);
        return between(k, st.size, true);
    }
    take_line(st, &line[0..at], sheet)
}

// One byte of the input.
fn step(st: State, b: u8, line: &mut [u8], sheet: &mut [u8]) -> State
    requires { (length line.old ≡ longest) × (length sheet.old ≡ largest) }
    ensures { room result line.new sheet.new ≡ step_of (room st line.old sheet.old) b }
{
    if st.bad {
        return st;
    }
    if b == b'\n' {
        return end_line(st, line, sheet);
    }
    let at = st.held;
    if LONGEST < at {
        return st;
    }
    if at == LONGEST {
        return longer(st);
    }
    line[at] = b;
    longer(st)
}

// A part of the input.
pub(crate) fn feed(st: State, part: &[u8], line: &mut [u8], sheet: &mut [u8]) -> State
    requires { (length line.old ≡ longest) × (length sheet.old ≡ largest) }
    ensures { room result line.new sheet.new ≡ feed_of (room st line.old sheet.old) part.now }
{
    let mut now = st;
    for b in part {
        now = step(now, *b, line, sheet);
    }
    now
}

// The end of the input.
pub(crate) fn finish(st: State, line: &[u8], sheet: &mut [u8]) -> State
    requires { (length line.now ≡ longest) × (length sheet.old ≡ largest) }
    ensures { room result line.now sheet.new ≡ finish_of (room st line.now sheet.old) }
{
    if (st.held == 0) & st.begun {
        return st;
    }
    if st.bad {
        return st;
    }
    end_line(st, line, sheet)
}
