// A sheet file as hex text (02, [10]).
#![tactic(auto)]

use files::Program;

// Kept: the mains of the programs are alike, and what differs, names and calls, is all that they say.
fn main(rt: HostRuntime) {
    let program = Program {
        rt: &rt,
        name: b"legwrite",
        output: files::STDOUT,
    };
    writing::run(program, b"legwrite FILE");
}
