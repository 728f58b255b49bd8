// The month's report of the sheet files that are named (02, [2]).
#![tactic(auto)]

use files::Program;

// Kept: the mains of the programs are alike, and what differs, names and calls, is all that they say.
fn main(rt: HostRuntime) {
    let program = Program {
        rt: &rt,
        name: b"legmonth",
        output: files::STDOUT,
    };
    reporting::run(program, b"legmonth FILE...");
}
