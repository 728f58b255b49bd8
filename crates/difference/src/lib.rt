// Two sheets compared (02, [5]): what refuses it, how each row differs, and the difference of the two exact totals.
// Every call answers for any bytes.
#![tactic(auto)]

ghost use Rattle.std.specs.Prelude.{◌≡◌, true, ltb, nat_abs, Err, ⊤};
ghost use Rattle.std.specs.Float.Ieee.Scale.{finite};
ghost use Rattle.laws.specs.Arithmetic.{float};
ghost use Rattle.total.specs.Total.{val};
ghost use Rattle.ledger.specs.Calls.{is_sheet};
ghost use Rattle.difference.specs.Steps.{steps_of};
ghost use Rattle.difference.specs.Difference.{number_of, row_of, rejected_of, stop_of, agree, distance_of, change_of, rows_of, changes, growth_of, below_zero};

use ledger::Class;
use limbs::{minus, raised};
use total::Signed;

mod limbs;

// Which of the two sheets.
#[derive(Clone, Copy)]
pub enum Side {
    Old,
    New,
}

// What refuses the comparison.
#[derive(Clone, Copy)]
pub enum Stop {
    // 7: the sheet is none.
    NotASheet(Side),
    // 13: the row counts differ.
    Unequal,
    // 10: the sheet's first row that refusal 10's row tests reject.
    Damaged(Side, u32),
}

impl Stop {
    // Its number in the documents.
    pub fn number(self) -> u8
        ensures { result ≡ number_of (Err self) }
    {
        match self {
            Stop::NotASheet(_) => 7,
            Stop::Unequal => 13,
            Stop::Damaged(..) => 10,
        }
    }

    // The row that it is about, 0 where it is about none.
    pub fn row(self) -> u32
        ensures { result ≡ row_of self }
    {
        match self {
            Stop::Damaged(_, row) => row,
            _ => 0,
        }
    }
}

// How a row differs.
#[derive(Clone, Copy)]
pub enum Change {
    // Not: its 48 bytes agree.
    Same,
    // From one class to another; a row that is damaged has none.
    Moved {
        from: Option<Class>,
        to: Option<Class>,
    },
    // The same class, and its answers are not finite.
    Alike {
        class: Option<Class>,
    },
    // Both first answers are finite, so many steps apart, and a second one is not.
    First {
        first: u64,
    },
    // All are finite.
    Steps {
        first: u64,
        second: u64,
    },
}

// The sign's place in a bit pattern.
const SIGN: u64 = 0x8000_0000_0000_0000;

// How many f64 steps two bit patterns lie apart; a u64 holds it for any two.
pub fn steps(p: u64, q: u64) -> u64
    ensures { result ≡ steps_of p q }
{
    match (p < SIGN, q < SIGN) {
        (true, false) => p + (q - SIGN),
        (false, true) => q + (p - SIGN),
        _ => p.abs_diff(q),
    }
}

// Refuses a sheet whose rows refusal 10's row tests reject: the first of them.
fn rows_taken(sheet: &[u8], side: Side) -> Result<(), Stop>
    requires { is_sheet sheet.now ≡ true }
    ensures { result ≡ rejected_of sheet.now side }
{
    match inspection::first_rejected(sheet) {
        Some(row) => Err(Stop::Damaged(side, row)),
        None => Ok(()),
    }
}

// What refuses the comparison of an old sheet and a new one.
pub fn stopped(old: &[u8], new: &[u8]) -> Result<(), Stop>
    ensures { result ≡ stop_of old.now new.now }
{
    if ledger::total_refusal(old).is_err() {
        return Err(Stop::NotASheet(Side::Old));
    }
    if ledger::total_refusal(new).is_err() {
        return Err(Stop::NotASheet(Side::New));
    }
    if ledger::rows_in(old) != ledger::rows_in(new) {
        return Err(Stop::Unequal);
    }
    rows_taken(old, Side::Old)?;
    rows_taken(new, Side::New)
}

// Whether the row's bytes are the same in both.
pub fn agreeing(old: &[u8], new: &[u8], row: u32) -> bool
    ensures { result ≡ agree old.now new.now row }
{
    let before = ledger::read_row(old, row);
    let after = ledger::read_row(new, row);
    before == after
}

fn is_finite(pattern: u64) -> bool
    ensures { result ≡ finite (float pattern) }
{
    pattern % SIGN < 0x7ff0_0000_0000_0000
}

// How far the answers of two finite rows lie apart.
fn distance(old: &[u8], new: &[u8], row: u32) -> Change
    ensures { result ≡ distance_of old.now new.now row }
{
    let first = steps(
        inspection::row_word(old, row, 4),
        inspection::row_word(new, row, 4),
    );
    let p = inspection::row_word(old, row, 5);
    let q = inspection::row_word(new, row, 5);
    if is_finite(p) && is_finite(q) {
        let second = steps(p, q);
        return Change::Steps { first, second };
    }
    Change::First { first }
}

// How the row differs.
pub fn changed(old: &[u8], new: &[u8], row: u32) -> Change
    ensures { result ≡ change_of old.now new.now row }
{
    if agreeing(old, new, row) {
        return Change::Same;
    }
    let from = inspection::row_class(old, row);
    let to = inspection::row_class(new, row);
    if from != to {
        return Change::Moved { from, to };
    }
    if from != Some(Class::Finite) {
        return Change::Alike { class: from };
    }
    distance(old, new, row)
}

// How many rows of the old sheet differ.
pub fn changed_rows(old: &[u8], new: &[u8]) -> u32
    ensures { result ≡ changes old.now new.now (rows_of old.now) }
{
    if ledger::total_refusal(old).is_err() {
        return 0;
    }
    let rows = ledger::rows_in(old) as u32;
    (0..rows).filter(|row| !agreeing(old, new, *row)).count() as u32
}

// The new sheet's exact total less the old one's, as they are stored.
pub fn grown(old: &[u8], new: &[u8]) -> Signed
    ensures { (result.negative ≡ below_zero (growth_of old.now new.now)) × (val result.limbs ≡ nat_abs (growth_of old.now new.now)) }
{
    let before = raised(ledger::exact_total(old));
    let after = raised(ledger::exact_total(new));
    match minus(after, before) {
        Some(limbs) => Signed {
            negative: false,
            limbs,
        },
        None => Signed {
            negative: true,
            limbs: minus(before, after).unwrap(),
        },
    }
}
