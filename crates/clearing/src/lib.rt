// A row of the sheet cleared (01): an edit to function 0.
#![tactic(auto)]

ghost use Rattle.std.specs.Prelude.{◌≡◌};
ghost use Rattle.answer.specs.Answer.{refusal_of};
ghost use Rattle.sheet.specs.Edit.{edit_refusal, edit_of};
ghost use Rattle.clearing.specs.Clear.{cleared};

use answer::Refusal;
use sheet::Entry;

// The row made blank, or 7, 8 or 10.
pub fn clear(sheet: &mut [u8], row: u32) -> Result<(), Refusal>
    ensures { (refusal_of result ≡ edit_refusal sheet.old row 0) × (sheet.new ≡ edit_of sheet.old row cleared) }
{
    sheet::edit(
        sheet,
        row,
        Entry {
            function: 0,
            a: 0,
            b: 0,
            c: 0,
            times: 0,
        },
    )
}
