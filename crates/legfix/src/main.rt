// Edits on the sheet in a file: standard input to the file, and to standard output.
#![tactic(auto)]

use files::{Program, STDOUT, Source, WORD};

fn on_file(program: Program<'_>) {
    let mut name = [0u8; WORD];
    let name = files::word(program.rt, 1, &mut name);
    fixing::fix(program, Source::Standard, name);
}

fn main(rt: HostRuntime) {
    let program = Program {
        rt: &rt,
        name: b"legfix",
        output: STDOUT,
    };
    if files::word_count(&rt) == 2 {
        on_file(program);
        return;
    }
    program.usage(b"legfix FILE");
}
