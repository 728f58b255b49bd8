// What a report and its steps hold. (A function and a struct of one name do not stand in one file.)
ghost use Rattle.std.specs.Prelude.{◌≡◌};
ghost use Rattle.month.specs.Month.{number_of, row_of};

use total::Total;

// The numbers of two classes, as `inspection::class_number` gives them.
pub(crate) const FINITE: usize = 1;

pub(crate) const REFUSED: usize = 4;

// Why a file is not taken.
#[derive(Clone, Copy)]
pub enum Stop {
    // 7: it is no sheet.
    NotASheet,
    // 10: its first row that refusal 10's row tests reject.
    Damaged(u32),
}

impl Stop {
    // Its number in the documents.
    pub fn number(self) -> u8
        ensures { result ≡ number_of self }
    {
        match self {
            Stop::NotASheet => 7,
            Stop::Damaged(_) => 10,
        }
    }

    // The row that it is about, 0 where it is about none.
    pub fn row(self) -> u32
        ensures { result ≡ row_of self }
    {
        match self {
            Stop::NotASheet => 0,
            Stop::Damaged(row) => row,
        }
    }
}

// A finite first answer, as a bit pattern, and where it stands.
#[derive(Clone, Copy)]
pub struct Extreme {
    pub pattern: u64,
    pub sheet: u32,
    pub row: u32,
}

// Sheets taken; rows by class; rows of class refused by their number; the exact total; the largest and the smallest
// finite first answer, where there is one.
#[derive(Clone, Copy)]
pub struct Report {
    pub sheets: u64,
    pub counts: [u64; 5],
    pub refusals: [u64; 32],
    pub total: Total,
    pub largest: Option<Extreme>,
    pub smallest: Option<Extreme>,
}

// What a leg brings to the report.
#[derive(Clone, Copy)]
pub struct Share {
    // Kept: a number, 5 for none: it is the place among `counts` (`share_on` of month/specs), and as an `Option<Class>` it would be made that number there again.
    pub class: usize,
    pub refusal: u8,
    pub times: u16,
    pub value: f64,
    pub pattern: u64,
    pub sheet: u32,
    pub row: u32,
}
