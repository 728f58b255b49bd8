// From a sheet file that says 1 to one that says 3 (02, [9]).
#![tactic(auto)]

use files::Program;
use turning::Way;

// Kept: the mains of the programs are alike, and what differs, names and calls, is all that they say.
fn main(rt: HostRuntime) {
    let program = Program {
        rt: &rt,
        name: b"legforth",
        output: files::STDOUT,
    };
    turning::run(program, b"legforth OLD NEW", Way::Forth);
}
