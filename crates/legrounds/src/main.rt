// The rounds that working out each leg makes: standard input to standard output.
#![tactic(auto)]

use files::{Program, STDOUT, Source};

fn main(rt: HostRuntime) {
    let program = Program {
        rt: &rt,
        name: b"legrounds",
        output: STDOUT,
    };
    if files::word_count(&rt) == 1 {
        rounds::run(program, Source::Standard);
        return;
    }
    program.usage(b"legrounds");
}
