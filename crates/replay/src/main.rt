// Replays a script of calls (oracle/sheet_model.py) from standard input on the library, and prints how many answers were wrong.
#![tactic(auto)]

ghost use Rattle.std.specs.Prelude.{◌≡◌, ◌≤◌, length};

use calls::{call, is_kept, keep};
use files::Source;

mod calls;
mod script;

// The buffer has two halves: in the first stands the sheet, of so many bytes, in the second the one that `D` kept aside.
#[derive(Clone, Copy)]
pub struct State {
    pub held: usize,
    pub length: usize,
    pub kept: usize,
    pub lines: u64,
    pub wrong: u64,
    pub first: Option<u64>,
}

// `L` says how long the buffer is from now on.
fn length_of(line: &[u8], length: usize) -> usize
    requires { length ≤ 49664 }
    ensures { result ≤ 49664 }
{
    if line.first() == Some(&b'L') {
        let digits = line.get(2..10).unwrap_or(&[]);
        return (line::read_digits(digits, 16).unwrap_or(0) % 49664) as usize;
    }
    length
}

fn is_letter(line: &[u8], c: u8) -> bool {
    line == [c].as_slice()
}

fn kept_of(line: &[u8], kept: usize, size: usize) -> usize {
    if is_letter(line, b'D') { size } else { kept }
}

// Whether the line's answer is right. `D` and `B` are letters alone.
fn answer(line: &[u8], size: usize, kept: usize, buffer: &mut [u8]) -> bool
    requires { (length buffer.old ≡ 99328) × (size ≤ 49664) }
{
    if is_letter(line, b'D') {
        keep(buffer, size);
        return true;
    }
    if is_letter(line, b'B') {
        if kept != size {
            return false;
        }
        return is_kept(buffer, size);
    }
    call(line, &mut buffer[0..size]) == Some(true)
}

// A line is whole.
fn finish(st: State, line: &[u8], buffer: &mut [u8]) -> State
    requires { (length buffer.old ≡ 99328) × (st.length ≤ 49664) }
    ensures { (result.length ≤ 49664) × (result.held ≡ 0) }
{
    let length = length_of(line, st.length);
    let right = answer(line, length, st.kept, buffer);
    let kept = kept_of(line, st.kept, length);
    let lines = st.lines.wrapping_add(1);
    if right {
        return State {
            held: 0,
            length,
            kept,
            lines,
            ..st
        };
    }
    State {
        held: 0,
        length,
        kept,
        lines,
        wrong: st.wrong.wrapping_add(1),
        first: st.first.or(Some(lines)),
    }
}

// One byte more. A line longer than the buffer for it keeps its start.
fn feed(st: State, b: u8, line: &mut [u8], buffer: &mut [u8]) -> State
    requires { (length buffer.old ≡ 99328) × (st.length ≤ 49664) × (length line.old ≡ 256) × (st.held ≤ 256) }
    ensures { (result.length ≤ 49664) × (result.held ≤ 256) }
{
    let held = st.held;
    if b == 10 {
        return finish(st, &line[0..held], buffer);
    }
    if held < 256 {
        line[held] = b;
        return State {
            held: held + 1,
            ..st
        };
    }
    st
}

fn feed_all(st: State, part: &[u8], line: &mut [u8], buffer: &mut [u8]) -> State
    requires { (length buffer.old ≡ 99328) × (st.length ≤ 49664) × (length line.old ≡ 256) × (st.held ≤ 256) }
    ensures { (result.length ≤ 49664) × (result.held ≤ 256) }
{
    let mut s = st;
    for b in part {
        s = feed(s, *b, line, buffer);
    }
    s
}

fn say(rt: &HostRuntime, st: State) {
    println!(rt;
        "{} lines, {} wrong, the first {}",
        st.lines,
        st.wrong,
        st.first.unwrap_or(0)
    )
    .is_ok();
}

#[derive(Clone, Copy)]
pub struct Read {
    pub st: State,
    pub more: bool,
}

// One read, and what it brings.
fn turn(rt: &HostRuntime, number: u64, st: State, line: &mut [u8], buffer: &mut [u8]) -> Read
    requires { (length buffer.old ≡ 99328) × (st.length ≤ 49664) × (length line.old ≡ 256) × (st.held ≤ 256) }
    ensures { (result.st.length ≤ 49664) × (result.st.held ≤ 256) }
{
    let mut part = [0u8; 4096];
    let got = files::call_read(rt, Source::Standard, number, &mut part);
    let n = files::count(got, &part);
    if n == 0 {
        return Read { st, more: false };
    }
    let next = feed_all(st, &part[..n], line, buffer);
    Read {
        st: next,
        more: true,
    }
}

fn run(rt: &HostRuntime, line: &mut [u8], buffer: &mut [u8]) -> State
    requires { (length buffer.old ≡ 99328) × (length line.old ≡ 256) }
{
    let mut st = State {
        held: 0,
        length: 0,
        kept: 0,
        lines: 0,
        wrong: 0,
        first: None,
    };
    for turns in (0..u64::MAX).rev() {
        let t = turn(rt, turns, st, line, buffer);
        st = t.st;
        if !t.more {
            return st;
        }
    }
    st
}

fn main(rt: HostRuntime) {
    let mut buffer = [0u8; 99328];
    let mut line = [0u8; 256];
    let st = run(&rt, &mut line, &mut buffer);
    say(&rt, st);
}
