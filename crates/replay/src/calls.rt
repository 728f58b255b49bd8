// One line's call, made on the library, and whether its answer is the line's. Each reads its fields first: a line whose fields do not read is no call.
ghost use Rattle.std.specs.Prelude.{◌≡◌, ◌≤◌, length};

use super::script::Fields;
use sheet::Entry;

// All bytes as one number, the first the highest, modulo 2^55 - 55.
fn checksum(s: &[u8]) -> u64 {
    let mut h: u64 = 0;
    for b in s {
        h = (h * 256 + u64::from(*b)) % 36028797018963913;
    }
    h
}

// So many bytes of the first half, put in the second.
pub(crate) fn keep(s: &mut [u8], size: usize)
    requires { (length s.old ≡ 99328) × (size ≤ 49664) }
{
    let (sheet, aside) = s.split_at_mut(49664);
    aside[..size].copy_from_slice(&sheet[..size]);
}

// Whether they are, byte by byte, those of the second.
pub(crate) fn is_kept(s: &[u8], size: usize) -> bool
    requires { (length s.now ≡ 99328) × (size ≤ 49664) }
{
    s[..size] == s[49664..49664 + size]
}

fn fill(mut f: Fields<'_>, sheet: &mut [u8]) -> Option<bool> {
    f.word()?;
    let b = f.byte()?;
    f.end()?;
    sheet.fill(b);
    Some(true)
}

fn make(mut f: Fields<'_>, sheet: &mut [u8]) -> Option<bool> {
    let rows = f.word()?;
    let refusal = f.byte()?;
    f.end()?;
    Some(
        ledger::make_blank(sheet, rows)
            .err()
            .map_or(0, |refused| refused.number())
            == refusal,
    )
}

fn edit(mut f: Fields<'_>, sheet: &mut [u8]) -> Option<bool> {
    let row = f.word()?;
    let entry = Entry {
        function: f.byte()?,
        a: f.long()?,
        b: f.long()?,
        c: f.long()?,
        times: f.half()?,
    };
    let refusal = f.byte()?;
    f.end()?;
    Some(
        sheet::edit(sheet, row, entry)
            .err()
            .map_or(0, |refused| refused.number())
            == refusal,
    )
}

fn clear(mut f: Fields<'_>, sheet: &mut [u8]) -> Option<bool> {
    let row = f.word()?;
    let refusal = f.byte()?;
    f.end()?;
    Some(
        clearing::clear(sheet, row)
            .err()
            .map_or(0, |refused| refused.number())
            == refusal,
    )
}

// A byte put where no call puts one.
fn poke(mut f: Fields<'_>, sheet: &mut [u8]) -> Option<bool> {
    let at = f.word()?;
    let b = f.byte()?;
    f.end()?;
    *sheet.get_mut(at as usize)? = b;
    Some(true)
}

// The row's refusal, then its bytes.
fn read(mut f: Fields<'_>, sheet: &[u8]) -> Option<bool> {
    let row = f.word()?;
    let refusal = f.byte()?;
    if ledger::row_refusal(sheet, row)
        .err()
        .map_or(0, |refused| refused.number())
        != refusal
    {
        return None;
    }
    Some(f.are(ledger::read_row(sheet, row)))
}

fn total(mut f: Fields<'_>, sheet: &[u8]) -> Option<bool> {
    let refusal = f.byte()?;
    let pattern = f.long()?;
    f.end()?;
    Some(
        ledger::total_refusal(sheet)
            .err()
            .map_or(0, |refused| refused.number())
            == refusal
            && bits::to_pattern(ledger::total(sheet)) == pattern,
    )
}

fn count(mut f: Fields<'_>, sheet: &[u8]) -> Option<bool> {
    let function = f.byte()?;
    let count = f.word()?;
    f.end()?;
    Some(ledger::count(sheet, function) == count)
}

fn times(mut f: Fields<'_>, sheet: &[u8]) -> Option<bool> {
    let row = f.word()?;
    let times = f.half()?;
    f.end()?;
    Some(ledger::row_times(sheet, row) == times)
}

fn sum(mut f: Fields<'_>, sheet: &[u8]) -> Option<bool> {
    let sum = f.long()?;
    f.end()?;
    Some(checksum(sheet) == sum)
}

// Whether the answer is right; none for a line that is no call.
pub(crate) fn call(line: &[u8], sheet: &mut [u8]) -> Option<bool> {
    let (letter, fields) = line.split_first()?;
    let f = Fields(fields);
    match letter {
        b'L' => fill(f, sheet),
        b'M' => make(f, sheet),
        b'E' => edit(f, sheet),
        b'C' => clear(f, sheet),
        b'P' => poke(f, sheet),
        b'R' => read(f, sheet),
        b'T' => total(f, sheet),
        b'N' => count(f, sheet),
        b'K' => times(f, sheet),
        b'S' => sum(f, sheet),
        _ => None,
    }
}
