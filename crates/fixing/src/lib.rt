// Lines on the sheet in a file: a whole run of legfix.
#![tactic(auto)]

ghost use Rattle.std.specs.Prelude.{true};
ghost use Rattle.files.specs.Calls.{number_of};
ghost use Rattle.loading.specs.Load.{Load};
ghost use Rattle.fixing.specs.Fixed.{Fixed};

use files::{Program, Source};
use loading::MOST;

// Lines on the sheet in these bytes, which the file of this name holds.
fn fix_sheet(program: Program<'_>, input: Source<'_>, name: &[u8], bytes: &[u8])
    requires { Load name.now bytes.now true }
    ensures { Fixed (number_of input.entry) program.entry.output name.now }
{
    if ledger::total_refusal(bytes).is_ok() {
        runner::run(program, input, Some(name), bytes);
        return;
    }
    program.tell(b": the file is no sheet; make one with legsheet FILE\n");
    let out = loading::refused_7(program.rt, program.begin());
    ending::tell_cut(program, out);
}

// Lines on the sheet in the file of this name: all of them, or the file is as it was.
pub fn fix(program: Program<'_>, input: Source<'_>, name: &[u8])
    ensures { Fixed (number_of input.entry) program.entry.output name.now }
{
    let mut file = [0u8; MOST];
    let Some(bytes) = loading::load(program.rt, name, &mut file) else {
        program.tell(b": the file could not be read; name a sheet file that is there\n");
        let out = loading::cannot_read(program.rt, program.begin(), name);
        ending::tell_cut(program, out);
        return;
    };
    fix_sheet(program, input, name, bytes);
}
