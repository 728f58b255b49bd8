// A line's fields, one after the other.
ghost use Rattle.std.specs.Prelude.{◌≡◌, ◌≤◌, ◌==◌, length, position};
ghost use Rattle.line.specs.Reading.{number_of, Taken};

use crate::digits::{decimal, pattern};

// The number in a field, and the place where the next field starts: past the line's end where there is none.
#[derive(Clone, Copy)]
pub(crate) struct Found {
    pub number: Option<u64>,
    pub next: usize,
}

// Where the first space stands.
fn space(s: &[u8]) -> Option<usize>
    ensures { result ≡ position (λ b. b == 32) s.now }
{
    s.iter().position(|b| *b == b' ')
}

fn number(s: &[u8], base: u64) -> Option<u64>
    ensures { result ≡ number_of base s.now }
{
    if base == 10 {
        return decimal(s);
    }
    pattern(s)
}

// The field that starts at from; past the line's end there is no number.
pub(crate) fn field(s: &[u8], from: usize, base: u64) -> Found
    requires { length s.now ≤ 83 }
    ensures { Taken s.now from base result.number result.next }
{
    let Some(rest) = s.get(from..) else {
        return Found {
            number: number(&[], base),
            next: from,
        };
    };
    let n = space(rest).unwrap_or(rest.len());
    Found {
        number: number(&rest[..n], base),
        next: from + n + 1,
    }
}
