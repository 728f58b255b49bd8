// The files, one after the other.
ghost use Rattle.std.specs.Prelude.{◌≤◌, length};
ghost use Rattle.month.specs.Files.{most_files};
ghost use Rattle.reporting.specs.Reporting.{Met, Took};

use super::parts::Apart;
use files::WORD;
use loading::MOST;
use month::Report;

// File n of the call, read and added to the report; or why not.
fn take_file(rt: &HostRuntime, report: &mut Report, n: u32) -> Result<(), Apart>
    ensures { Met n report.old report.new result }
{
    let mut name = [0u8; WORD];
    let mut sheet = [0u8; MOST];
    let name = files::word(rt, n as usize, &mut name);
    let bytes = loading::load(rt, name, &mut sheet).ok_or(Apart::Unread)?;
    month::stop(bytes)?;
    *report = month::add(*report, bytes, n);
    Ok(())
}

// What comes of them all: as many as there are places for what came of each.
pub(crate) fn gather(rt: &HostRuntime, fates: &mut [Result<(), Apart>]) -> Report
    requires { length fates.old ≤ most_files }
    ensures { Took (length fates.new) result fates.new }
{
    let mut report = month::start();
    for (i, fate) in fates.iter_mut().enumerate() {
        *fate = take_file(rt, &mut report, i as u32 + 1);
    }
    report
}
