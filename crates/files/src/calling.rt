// The words of the program's call.
ghost use Rattle.std.specs.Prelude.{◌≤◌, length};
ghost use Rattle.files.specs.Calls.{Called, has, words, Counts};

use std::env::FillError;
use std::rt::Env;

// A word has at most 131,071 bytes, which Linux sees to.
pub const WORD: usize = 131072;

// Whether there is a word of this number.
fn is_there(rt: &HostRuntime, i: usize) -> bool
    ensures { Called (has i result) }
{
    let mut start = [0u8; 1];
    match rt.arg(i, &mut start) {
        Ok(_) => true,
        Err(FillError::TooLong) => true,
        Err(FillError::NotPresent) => false,
    }
}

// How many there are, the program's own name among them.
pub fn word_count(rt: &HostRuntime) -> usize
    ensures { Counts result }
{
    for n in 0..usize::MAX {
        if !is_there(rt, n) {
            return n;
        }
    }
    usize::MAX
}

// Word i, put at the start of the buffer; none of it where it is longer.
pub fn word<'a>(rt: &HostRuntime, i: usize, into: &'a mut [u8; WORD]) -> &'a [u8]
    ensures called { Called (words i result.now) }
    ensures upper_bound { length result.now ≤ 131072 }
{
    let n = rt.arg(i, into).unwrap_or(0);
    &into[..n]
}
