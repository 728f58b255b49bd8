// The fields of a line.
ghost use Rattle.std.specs.Prelude.{◌≡◌};
ghost use Rattle.hexline.specs.Fields.{up_to, field_of, says_of, bad_from, column_of, stop_of, value_in};

use super::parts::{part, place};
use answer::LAST;
use hexfloat::read_float;
use line::decimal;

// How many fields a line has.
const FIELDS: u64 = 8;

// A number up to so much.
fn up_to(most: u64, n: Option<u64>) -> Option<u64>
    ensures { result ≡ up_to most n }
{
    n.filter(|k| *k <= most)
}

// What these bytes say as field j.
fn field(j: u64, s: &[u8]) -> Option<u64>
    ensures { result ≡ field_of j s.now }
{
    match j {
        0 => up_to(LAST as u64, decimal(s)),
        4 => up_to(65535, decimal(s)),
        5 => decimal(s),
        _ => read_float(s),
    }
}

fn says(line: &[u8], j: u64) -> Option<u64>
    ensures { result ≡ says_of line.now j }
{
    field(j, part(b',', line, place(b',', line, j)))
}

// The first field that does not read.
fn bad(line: &[u8]) -> Option<u64>
    ensures { result ≡ bad_from line.now 8 0 }
{
    for j in 0..FIELDS {
        if says(line, j).is_none() {
            return Some(j);
        }
    }
    None
}

// The column where field j begins.
pub fn column(line: &[u8], j: u64) -> usize
    ensures { result ≡ column_of line.now j }
{
    place(b',', line, j).min(line.len()) + 1
}

// The column where the line does not read; none where it does.
pub fn stop(line: &[u8]) -> Option<usize>
    ensures { result ≡ stop_of line.now }
{
    if let Some(j) = bad(line) {
        return Some(column(line, j));
    }
    let ninth = place(b',', line, FIELDS);
    if ninth <= line.len() {
        Some(ninth)
    } else {
        None
    }
}

// The number of field j; 0 where it does not read.
// Kept: a number, since value could not fail and value_in of specs/Fields says so.
pub fn value(line: &[u8], j: u64) -> u64
    ensures { result ≡ value_in line.now j }
{
    says(line, j).unwrap_or(0)
}
