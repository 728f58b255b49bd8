// Reads, each with a number of its own.
ghost use Rattle.std.specs.Prelude.{◌≡◌, suc, ◌<◌, ◌≤◌, length, None};
ghost use Rattle.files.specs.Calls.{Called, read, reads, number_of};
ghost use Rattle.files.specs.Reads.{count_of};

use std::fs::File;
use std::io::Read;

// What is read: standard input, or a file that was opened.
#[derive(Clone, Copy)]
pub enum Source<'a> {
    Standard,
    Opened(&'a File),
}

// The one call of read: how many bytes it brought, and none where it failed.
pub fn call_read(rt: &HostRuntime, input: Source<'_>, number: u64, part: &mut [u8]) -> Option<usize>
    ensures { Called (reads (number_of input.entry) number (read result part.new)) }
{
    match input {
        Source::Standard => {
            let mut standard = rt.stdin();
            standard.read(part).ok()
        }
        Source::Opened(file) => {
            let mut opened = file;
            opened.read(part).ok()
        }
    }
}

// What a read that answered so has brought: so many bytes at the start of its buffer.
pub fn count(got: Option<usize>, part: &[u8]) -> usize
    ensures value { result ≡ count_of got (length part.now) }
    ensures upper_bound { result ≤ length part.now }
{
    got.map_or(0, |n| n.min(part.len()))
}

// One read: those that are left to make are one fewer. Where none is left it makes no call, and answers as one that failed.
pub fn read_some(
    rt: &HostRuntime,
    input: Source<'_>,
    left: &mut u64,
    part: &mut [u8],
) -> Option<usize>
    ensures left_value { 0 < left.old → (left.old ≡ suc left.new) × Called (reads (number_of input.entry) left.old (read result part.new)) }
    ensures value { left.old ≡ 0 → (result ≡ None) × (left.new ≡ 0) × (part.new ≡ part.old) }
{
    let number = *left;
    *left = number.checked_sub(1)?;
    call_read(rt, input, number, part)
}
