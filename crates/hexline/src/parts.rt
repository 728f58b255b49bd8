// Parts of a text that have one byte between them.
ghost use Rattle.std.specs.Prelude.{◌≡◌};
ghost use Rattle.hexline.specs.Parts.{part_at, next_of, place_of};

use hexfloat::{after, find, front};

// From a place up to the next e, or the end.
pub fn part(e: u8, s: &[u8], at: usize) -> &[u8]
    ensures { result.now ≡ part_at e s.now at }
{
    let rest = after(s, at);
    front(rest, find(rest, e, e))
}

// Where the next part begins.
pub fn next(e: u8, s: &[u8], at: usize) -> usize
    ensures { result ≡ next_of e s.now at }
{
    at.min(s.len()) + find(after(s, at), e, e) + 1
}

// Where part j begins.
pub(crate) fn place(e: u8, s: &[u8], j: u64) -> usize
    ensures { result ≡ place_of e s.now j }
{
    let mut at: usize = 0;
    for _ in 0..j {
        at = next(e, s, at);
    }
    at
}
