// The month report (02, [2]), from up to 400 sheets, one in memory at a time: a report whose size does not grow.
// It is a function of the rows alone: counts and totals that a sheet stores are not looked at.
#![tactic(auto)]

mod extreme;
mod parts;
mod share;

ghost use Rattle.std.specs.Prelude.{◌≡◌, ◌<◌, true};
ghost use Rattle.ledger.specs.Calls.{is_sheet};
ghost use Rattle.month.specs.Month.{stop_of, one_more, share_on, legs_of, legs_on, start_of, added_of};

use extreme::extreme_on;
use parts::REFUSED;
pub use parts::{Extreme, Report, Share, Stop};
use share::share_of;
use total::Total;

// The report of no sheet.
pub fn start() -> Report
    ensures { result ≡ start_of }
{
    Report {
        sheets: 0,
        counts: [0; 5],
        refusals: [0; 32],
        total: Total::zero(),
        largest: None,
        smallest: None,
    }
}

// Why a file is not taken, if it is not.
pub fn stop(sheet: &[u8]) -> Result<(), Stop>
    ensures { result ≡ stop_of sheet.now }
{
    if ledger::total_refusal(sheet).is_err() {
        return Err(Stop::NotASheet);
    }
    match inspection::first_rejected(sheet) {
        Some(row) => Err(Stop::Damaged(row)),
        None => Ok(()),
    }
}

// One more at place k.
fn count_up(counts: &mut [u64], k: usize)
    ensures { counts.new ≡ one_more counts.old k }
{
    if k < counts.len() {
        counts[k] = counts[k].wrapping_add(1);
    }
}

impl Report {
    // A leg more. A row of class refused counts under its number; what a row of another class holds there does not count.
    fn add_share(&mut self, share: Share)
        ensures { self.new ≡ share_on self.old share }
    {
        count_up(&mut self.counts, share.class);
        if share.class == REFUSED {
            count_up(&mut self.refusals, share.refusal as usize);
        }
        self.total = self.total.add(share.value, share.times);
        self.largest = extreme_on(self.largest, share, |held, next| held < next);
        self.smallest = extreme_on(self.smallest, share, |held, next| next < held);
    }

    // All rows of a sheet, one after the other.
    fn add_rows(&mut self, sheet: &[u8], number: u32)
        requires { is_sheet sheet.now ≡ true }
        ensures { self.new ≡ legs_on self.old (legs_of number sheet.now) }
    {
        let rows = ledger::rows_in(sheet) as u32;
        for i in 0..rows {
            self.add_share(share_of(sheet, number, i));
        }
    }
}

// One more sheet. Its rows are all looked at before the first is added: a file that is not taken adds nothing.
pub fn add(report: Report, sheet: &[u8], number: u32) -> Report
    ensures { result ≡ added_of report number sheet.now }
{
    if stop(sheet).is_err() {
        return report;
    }
    let mut held = report;
    held.sheets = held.sheets.wrapping_add(1);
    held.add_rows(sheet, number);
    held
}
