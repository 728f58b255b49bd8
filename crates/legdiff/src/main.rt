// Two sheet files compared, row by row (02, [5]).
#![tactic(auto)]

use files::Program;

// Kept: the mains of the programs are alike, and what differs, names and calls, is all that they say.
fn main(rt: HostRuntime) {
    let program = Program {
        rt: &rt,
        name: b"legdiff",
        output: files::STDOUT,
    };
    comparing::run(program, b"legdiff OLD NEW");
}
