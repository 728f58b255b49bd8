// The row count.
ghost use Rattle.std.specs.Prelude.{◌≡◌};
ghost use Rattle.line.specs.Line.{spell_of};
ghost use Rattle.hexline.specs.Parts.{part_at};
ghost use Rattle.hextext.specs.HexText.{count_of, capped};

use hexline::part;
use line::digit;

// One more than the largest sheet's rows stands for all that are more.
const TOO_MANY: u64 = 1025;

// Decimal digits, however many.
fn digits(s: &[u8]) -> Option<u64>
    ensures { result ≡ capped (spell_of 10 0 s.now) }
{
    let mut n: u64 = 0;
    for b in s {
        let d = digit(*b)?;
        if 10 <= d {
            return None;
        }
        n = (n * 10 + d).min(TOO_MANY);
    }
    Some(n)
}

// How many rows the text says that it has; 1,025 where it is more.
pub fn rows(text: &[u8]) -> Option<u64>
    ensures { result ≡ capped (count_of (part_at 10 text.now 0)) }
{
    let s = part(b'\n', text, 0);
    match s {
        [] | [b'0', _, ..] => None,
        _ => digits(s),
    }
}
