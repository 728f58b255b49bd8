// The report's page, and the lines of the files that are not taken.
ghost use Rattle.std.specs.Prelude.{◌≤◌, length};
ghost use Rattle.text.specs.Writing.{Put};
ghost use Rattle.month.specs.Files.{most_files};
ghost use Rattle.monthly.specs.Monthly.{report_text};
ghost use Rattle.files.specs.Output.{Wrote};
ghost use Rattle.reporting.specs.Reporting.{head_of, Told, ToldAll};

use super::parts::Apart;
use files::{Output, WORD};
use month::Report;
use monthly::ROOM;

// The report, as a page.
pub(crate) fn put_page(rt: &HostRuntime, out: Output, report: Report, apart: u64) -> Output
    ensures { Wrote out (report_text apart report) result }
{
    let mut page = [0u8; ROOM];
    let end = monthly::put_report(&mut page, report, apart);
    out.put(rt, &page[0..end])
}

// The start of the line of a file that is not taken.
fn put_head(out: &mut [u8; ROOM], apart: Apart) -> usize
    ensures put { Put out.old out.new 0 result (head_of apart) }
    ensures upper_bound { result ≤ length out.new }
{
    match apart {
        Apart::Unread => monthly::put_unread(out),
        Apart::Stopped(stop) => monthly::put_stop(out, stop.number(), stop.row()),
    }
}

// The line of file n. Names are not kept, so it is asked for again.
fn put_file(rt: &HostRuntime, out: Output, apart: Apart, n: usize) -> Output
    ensures { Told n apart out result }
{
    let mut head = [0u8; ROOM];
    let mut name = [0u8; WORD];
    let end = put_head(&mut head, apart);
    let name = files::word(rt, n, &mut name);
    out.put(rt, &head[0..end]).put(rt, name).put(rt, b"\n")
}

// The lines of the files that are not taken, in their order.
pub(crate) fn put_files(rt: &HostRuntime, out: Output, fates: &[Result<(), Apart>]) -> Output
    requires { length fates.now ≤ most_files }
    ensures { ToldAll (length fates.now) fates.now out result }
{
    let mut sent = out;
    for (i, fate) in fates.iter().enumerate() {
        if let Err(apart) = *fate {
            sent = put_file(rt, sent, apart, i + 1);
        }
    }
    sent
}
