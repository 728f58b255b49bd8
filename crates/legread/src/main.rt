// Hex text read into a sheet file (02, [10]).
#![tactic(auto)]

use files::{Program, Source};

// Kept: the mains of the programs are alike, and what differs, names and calls, is all that they say.
fn main(rt: HostRuntime) {
    let program = Program {
        rt: &rt,
        name: b"legread",
        output: files::STDOUT,
    };
    reading::run(program, b"legread FILE", Source::Standard);
}
