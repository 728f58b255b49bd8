// One line of the program's input: a row count, or an edit.
#![tactic(auto)]

mod digits;
mod fields;

ghost use Rattle.std.specs.Prelude.{◌≡◌};
ghost use Rattle.line.specs.Line.{edit_from, line_of};

pub use digits::{decimal, digit, pattern, read_digits};
use fields::field;

// The longest line that can be well formed: three numbers of ten digits, three patterns, five spaces.
pub const LONGEST: usize = 83;

// The row and what is entered in it: a function, its arguments, and how often the leg was driven.
#[derive(Clone, Copy)]
pub struct Edit {
    pub row: u32,
    pub function: u8,
    pub a: u64,
    pub b: u64,
    pub c: u64,
    pub times: u16,
}

// Six numbers as an edit: one that is none, or does not fit, makes it malformed.
fn edit_from(
    row: Option<u64>,
    function: Option<u64>,
    a: Option<u64>,
    b: Option<u64>,
    c: Option<u64>,
    times: Option<u64>,
) -> Option<Edit>
    ensures { result ≡ edit_from row function a b c times }
{
    let (row, function, a, b, c, times) = (row?, function?, a?, b?, c?, times?);
    Some(Edit {
        row: u32::try_from(row).ok()?,
        function: u8::try_from(function).ok()?,
        a,
        b,
        c,
        times: u16::try_from(times).ok()?,
    })
}

// An edit; none where the line is malformed.
pub fn read_edit(s: &[u8]) -> Option<Edit>
    ensures { result ≡ line_of s.now }
{
    if LONGEST < s.len() {
        return None;
    }
    let row = field(s, 0, 10);
    let function = field(s, row.next, 10);
    let a = field(s, function.next, 16);
    let b = field(s, a.next, 16);
    let c = field(s, b.next, 16);
    let times = field(s, c.next, 10);
    if times.next <= s.len() {
        return None;
    }
    edit_from(
        row.number,
        function.number,
        a.number,
        b.number,
        c.number,
        times.number,
    )
}
