// A leg, read from its sheet.
ghost use Rattle.std.specs.Prelude.{◌≡◌};
ghost use Rattle.ledger.specs.Sheet.{refusal_in};
ghost use Rattle.ledger.specs.Calls.{row_refusal, read_of};
ghost use Rattle.month.specs.Month.{leg_at, share_of};

use super::parts::Share;

fn refusal_of(sheet: &[u8], row: u32) -> u8
    ensures { result ≡ refusal_in (read_of sheet.now row) }
{
    ledger::read_row(sheet, row).get(1).copied().unwrap_or(0)
}

pub(crate) fn share_of(sheet: &[u8], number: u32, row: u32) -> Share
    requires { row_refusal sheet.now row ≡ 0 }
    ensures { result ≡ share_of (leg_at number sheet.now row) }
{
    Share {
        class: inspection::class_number(inspection::row_class(sheet, row)),
        refusal: refusal_of(sheet, row),
        times: ledger::row_times(sheet, row),
        value: inspection::row_value(sheet, row),
        pattern: inspection::row_word(sheet, row, 4),
        sheet: number,
        row,
    }
}
