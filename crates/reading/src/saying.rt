// Why a text is not taken.
ghost use Rattle.std.specs.Prelude.{◌++◌};
ghost use Rattle.laws.specs.Ascii.{ascii};
ghost use Rattle.text.specs.Text.{decimal, end};
ghost use Rattle.placing.specs.Placed.{Placed};
ghost use Rattle.files.specs.Output.{Wrote};
ghost use Rattle.hextext.specs.HexText.{halted};
ghost use Rattle.reading.specs.Taken.{halt_line};

use answer::Refusal;
use files::Output;
use hextext::Halt;
use loading::put_number;
use text::{put_bytes, put_decimal};

// The line and the column.
fn put_place(out: &mut [u8; 65], line: u64, column: u64) -> usize
    ensures { Placed out.old out.new 0 result 65 (ascii "refused 18 line " ++ decimal line ++ ascii " column " ++ decimal column ++ end) }
{
    let at = put_bytes(out, 0, b"refused 18 line ");
    let at = put_decimal(out, at, line, 32);
    let at = put_bytes(out, at, b"column ");
    put_decimal(out, at, column, 10)
}

fn put_18(rt: &HostRuntime, out: Output, line: u64, column: u64) -> Output
    ensures { Wrote out (ascii "refused 18 line " ++ decimal line ++ ascii " column " ++ decimal column ++ end) result }
{
    let mut text = [0u8; 65];
    let n = put_place(&mut text, line, column);
    out.put(rt, &text[0..n])
}

pub(crate) fn put_halt(rt: &HostRuntime, out: Output, h: Halt) -> Output
    ensures { Wrote out (halt_line (halted h)) result }
{
    match h.refusal {
        Refusal::Malformed => put_18(rt, out, h.line as u64, h.column as u64),
        Refusal::Withdrawn => put_number(rt, out, b"refused 22 line ", h.line as u64),
        refusal => put_number(rt, out, b"refused ", refusal.number() as u64),
    }
}
