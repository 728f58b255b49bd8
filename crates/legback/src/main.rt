// From a sheet file that says 3 back to one that says 1 (02, [9]).
#![tactic(auto)]

use files::Program;
use turning::Way;

// Kept: the mains of the programs are alike, and what differs, names and calls, is all that they say.
fn main(rt: HostRuntime) {
    let program = Program {
        rt: &rt,
        name: b"legback",
        output: files::STDOUT,
    };
    turning::run(program, b"legback NEW OLD", Way::Back);
}
