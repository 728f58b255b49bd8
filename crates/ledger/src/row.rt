// A row: its part of the sheet, and what its 48 bytes say.
ghost use Rattle.std.specs.Prelude.{◌≡◌, ◌+◌, ◌≤◌, length};
ghost use Rattle.ledger.specs.Bytes.{fields};
ghost use Rattle.ledger.specs.Calls.{row_in, share_of};
ghost use Rattle.ledger.specs.Class.{number_of, class_at};
ghost use Rattle.ledger.specs.Sheet.{row_place, function_in, times_in, first_in, kind_of, class_of, value_of, sound_of, sound};

use super::bytes::{part, pattern_at, put_words};
use crate::row_place;
use answer::LAST;

// The row writer: the row's own part of the sheet is lent on to it.
pub(crate) fn write_row(row: &mut [u8], new: &[u8; 48])
    requires { length row.old ≡ 48 }
    ensures { row.new ≡ new.now }
{
    row.copy_from_slice(new);
}

// The row's own part of the sheet.
pub(crate) fn row_part(sheet: &[u8], row: u32) -> &[u8]
    requires { row_place row + 48 ≤ length sheet.now }
    ensures { result.now ≡ row_in sheet.now row }
{
    let at = row_place(row);
    let end = at + 48;
    &sheet[at..end]
}

// Its bytes.
pub(crate) fn row_in(sheet: &[u8], row: u32) -> [u8; 48]
    requires { row_place row + 48 ≤ length sheet.now }
    ensures { result ≡ row_in sheet.now row }
{
    part(sheet, row_place(row))
}

// The row of these words.
pub(crate) fn row_of(words: [u64; 6]) -> [u8; 48]
    ensures { result ≡ fields 8 words }
{
    let mut row = [0; 48];
    put_words(&mut row, &words);
    row
}

pub(crate) fn times(row: &[u8; 48]) -> u16
    ensures { result ≡ times_in row.now }
{
    u16::from_le_bytes(part(row, 2))
}

fn first(row: &[u8; 48]) -> f64
    ensures { result ≡ first_in row.now }
{
    bits::from_pattern(pattern_at(row, 32))
}

// A row's class, in the order of the counts.
#[derive(Clone, Copy, PartialEq, Eq)]
pub enum Class {
    Blank,
    Finite,
    PlusInfinity,
    MinusInfinity,
    Refused,
}

// A class's place among the counts.
pub(crate) fn index(class: Class) -> usize
    ensures { result ≡ number_of class }
{
    class as usize
}

fn kind(x: f64) -> Option<Class>
    ensures { result ≡ class_at (kind_of x) }
{
    if x != x {
        return None;
    }
    if x == f64::from_bits(0x7ff0_0000_0000_0000) {
        return Some(Class::PlusInfinity);
    }
    if x == f64::from_bits(0xfff0_0000_0000_0000) {
        return Some(Class::MinusInfinity);
    }
    Some(Class::Finite)
}

fn class_of(row: &[u8; 48]) -> Option<Class>
    ensures { result ≡ class_at (class_of row.now) }
{
    if row[0] == 0 {
        return Some(Class::Blank);
    }
    if row[1] > 0 {
        return Some(Class::Refused);
    }
    kind(first(row))
}

// A row's share of the totals: its class, none where its first answer is a NaN; what it brings each time that it was driven, its first answer where that is finite, else +0; and
// how often.
#[derive(Clone, Copy)]
pub struct Share {
    pub class: Option<Class>,
    pub value: f64,
    pub times: u16,
}

// The share of a row's own 48 bytes; other bytes have no class, no value and no times.
pub fn share_of(row: &[u8]) -> Share
    ensures { result ≡ share_of row.now }
{
    match <&[u8; 48]>::try_from(row) {
        Ok(row) => {
            let class = class_of(row);
            let value = if class == Some(Class::Finite) {
                first(row)
            } else {
                0.0
            };
            Share {
                class,
                value,
                times: times(row),
            }
        }
        Err(_) => Share {
            class: None,
            value: 0.0,
            times: 0,
        },
    }
}

// Whether these can be what a row says that was stored: refusal 10's row tests.
pub fn can_stand(function: u8, refusal: u8, first: f64) -> bool
    ensures { result ≡ sound_of function refusal first }
{
    function <= LAST && answer::stored(refusal) && first == first
}

// Whether the row can be one that was stored.
pub(crate) fn is_sound(row: &[u8; 48]) -> bool
    ensures { result ≡ sound row.now }
{
    can_stand(row[0], row[1], first(row))
}
