// A file's bytes, for the programs that read sheets, and what is said where there are none.
#![tactic(auto)]

ghost use Rattle.std.specs.Prelude.{◌≡◌, ◌≤◌, true, false, [], length, take, drop, MatchOption, MatchResult, IfSome};
ghost use Rattle.files.specs.Calls.{Called, opens, read, reads, number_of, number_if};
ghost use Rattle.files.specs.Output.{output_of, Wrote};
ghost use Rattle.loading.specs.Load.{most, Brought, Load};
ghost use Rattle.loading.specs.Notes.{cannot_read, refused7, number_line};

use files::{Output, Program, Source};
use std::fs::File;

// The largest sheet, and one byte more: so much of a file is read.
pub const MOST: usize = 49481;

// The one call that opens a file for reading.
fn open(rt: &HostRuntime, name: &str) -> Option<File>
    ensures { Called (opens name.now (number_if result)) }
{
    File::open(rt, name).ok()
}

// A read into the buffer from a place on, which is also its number.
fn read_at(rt: &HostRuntime, file: Source<'_>, into: &mut [u8], at: usize) -> Option<usize>
    requires { at ≤ length into.old }
    ensures called { Called (reads (number_of file.entry) at (read result (drop at into.new))) }
    ensures into_unchanged { take at into.new ≡ take at into.old }
{
    files::call_read(rt, file, at as u64, &mut into[at..])
}

// Up to the buffer's end, the file's, or a read that fails: what was read, and on Err what was read before that.
pub fn read_whole<'a>(
    rt: &HostRuntime,
    file: Source<'_>,
    into: &'a mut [u8],
) -> Result<&'a mut [u8], &'a mut [u8]>
    ensures brought { MatchResult result (λ b. Brought (length into.old) (number_of file.entry) b.now true) (λ b. Brought (length into.old) (number_of file.entry) b.now false) }
    ensures upper_bound { MatchResult result (λ b. length b.now ≤ length into.old) (λ b. length b.now ≤ length into.old) }
{
    let mut at: usize = 0;
    // Kept: no index is counted by hand: each read says how far it goes.
    while at < into.len() {
        let got = read_at(rt, file, into, at);
        if got.is_none() {
            return Err(&mut into[..at]);
        }
        let n = files::count(got, &into[at..]);
        if n == 0 {
            return Ok(&mut into[..at]);
        }
        at += n;
    }
    Ok(&mut into[..at])
}

// The bytes of the file of this name, as far as the buffer goes. A folder opens, and its read fails.
pub fn load<'a>(rt: &HostRuntime, name: &[u8], into: &'a mut [u8; MOST]) -> Option<&'a mut [u8]>
    ensures load { MatchOption result (Load name.now [] false) (λ b. Load name.now b.now true) }
    ensures upper_bound { IfSome result (λ b. length b.now ≤ most) }
{
    let text = std::str::from_utf8(name).ok()?;
    let file = open(rt, text)?;
    let loaded = read_whole(rt, Source::Opened(&file), into);
    files::close(file);
    match loaded {
        Ok(bytes) => Some(bytes),
        Err(_) => None,
    }
}

// The file can't be opened or read.
pub fn cannot_read(rt: &HostRuntime, out: Output, name: &[u8]) -> Output
    ensures { Wrote out (cannot_read name.now) result }
{
    out.put_note(rt, b"cannot read ", name)
}

// The same, and what to do next on standard error.
pub fn unread(program: Program<'_>, name: &[u8], what: &[u8]) -> Output
    ensures { Wrote (output_of program.entry.output) (cannot_read name.now) result }
{
    program.tell(what);
    cannot_read(program.rt, program.begin(), name)
}

// Words, a number and the line's end.
pub fn put_number(rt: &HostRuntime, out: Output, words: &[u8], n: u64) -> Output
    ensures { Wrote out (number_line words.now n) result }
{
    let mut digits = [0u8; 21];
    let end = text::put_decimal(&mut digits, 0, n, 10);
    out.put(rt, words).put(rt, &digits[0..end])
}

// The file is no sheet.
pub fn refused_7(rt: &HostRuntime, out: Output) -> Output
    ensures { Wrote out refused7 result }
{
    out.put(rt, b"refused 7\n")
}
