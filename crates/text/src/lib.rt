// Pieces of text, one after the other: each is put at a place of a lent buffer, and the answer is the place after it.
// Where the buffer has not the room that a piece may need, nothing is put and the place stays.
// Kept: buffer and place go along as two, since Puts, in the clauses of put_bytes and the others, speaks of both.
#![tactic(auto)]

ghost use Rattle.std.specs.Prelude.{◌≡◌, [], ◌∷◌, ◌++◌, ◌+◌, ◌≤◌, ◌<◌, length, ltb};
ghost use Rattle.text.specs.Text.{glyph_of, digits_of, decimal, pattern, three};
ghost use Rattle.text.specs.Writing.{Put, Puts};

// Whether a buffer of this size has no room for so many bytes from a place on. The place and the room may be too large to be added.
pub fn lacks(size: usize, at: usize, room: usize) -> bool
    ensures { result ≡ ltb size (at + room) }
{
    size < room || size - room < at
}

// How numbers are written: in a base, with so many digits at most, and with zeros in front, or with none.
// Kept: `zeros` is a way of writing, and not a flag that says whether another field holds.
#[derive(Clone, Copy)]
struct Form {
    base: u64,
    most: usize,
    zeros: bool,
    ghost in_range: { (1 < base) × (base ≤ 16) },
    ghost short: { most < 256 },
}

const DECIMAL: Form = Form {
    base: 10,
    most: 20,
    zeros: false,
};

const HEX: Form = Form {
    base: 16,
    most: 16,
    zeros: false,
};

const PATTERN: Form = Form {
    base: 16,
    most: 16,
    zeros: true,
};

fn glyph(d: u64) -> u8
    requires { d < 16 }
    ensures { result ≡ glyph_of d }
{
    if d < 10 {
        return b'0' + d as u8;
    }
    b'a' - 10 + d as u8
}

fn put_byte(out: &mut [u8], at: usize, b: u8) -> usize
    requires { at < length out.old }
    ensures { Put out.old out.new at result (b ∷ []) }
{
    out[at] = b;
    at + 1
}

// The last k digits. The form is lent, since by value it is copied at every digit, and the last digit is worked out first, so that one division serves it and those before it.
fn put_digits(out: &mut [u8], at: usize, form: &Form, k: usize, n: u64) -> usize
    requires { at + k ≤ length out.old }
    ensures put { Put out.old out.new at result (digits_of form.now.zeros form.now.base k n) }
    ensures upper_bound { result ≤ at + k }
{
    if k == 0 {
        return at;
    }
    if !form.zeros && n < form.base {
        return put_byte(out, at, glyph(n));
    }
    let last = glyph(n % form.base);
    let next = put_digits(out, at, form, k - 1, n / form.base);
    put_byte(out, next, last)
}

// Bytes as they are.
pub fn put_bytes(out: &mut [u8], at: usize, text: &[u8]) -> usize
    ensures { Puts out.old out.new at result (length text.now) text.now }
{
    if lacks(out.len(), at, text.len()) {
        return at;
    }
    let end = at + text.len();
    out[at..end].copy_from_slice(text);
    end
}

// A number in decimal, and the byte after it.
pub fn put_decimal(out: &mut [u8], at: usize, n: u64, after: u8) -> usize
    ensures { Puts out.old out.new at result 21 (decimal n ++ (after ∷ [])) }
{
    if lacks(out.len(), at, DECIMAL.most + 1) {
        return at;
    }
    let next = put_digits(out, at, &DECIMAL, DECIMAL.most, n);
    put_byte(out, next, after)
}

// A number in hex: all 16 digits, or none in front of the number.
// Kept: `all` is a flag, since the clause gives the digits for either value.
pub fn put_hex(out: &mut [u8], at: usize, all: bool, n: u64) -> usize
    ensures { Puts out.old out.new at result 16 (digits_of all 16 16 n) }
{
    if lacks(out.len(), at, 16) {
        return at;
    }
    let form = if all { PATTERN } else { HEX };
    put_digits(out, at, &form, 16, n)
}

// A bit pattern's 16 digits, and the byte after them.
pub fn put_pattern(out: &mut [u8], at: usize, n: u64, after: u8) -> usize
    ensures { Puts out.old out.new at result 17 (pattern n ++ (after ∷ [])) }
{
    if lacks(out.len(), at, PATTERN.most + 1) {
        return at;
    }
    let next = put_hex(out, at, true, n);
    put_byte(out, next, after)
}

// Three numbers, a space between them, and the byte after the last.
pub fn put_three(out: &mut [u8], at: usize, first: u64, second: u64, third: u64, after: u8) -> usize
    ensures { Puts out.old out.new at result 63 (three first second third ++ (after ∷ [])) }
{
    if lacks(out.len(), at, 63) {
        return at;
    }
    let a = put_decimal(out, at, first, b' ');
    let b = put_decimal(out, a, second, b' ');
    put_decimal(out, b, third, after)
}
