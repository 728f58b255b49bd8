// The leg sheet's program: standard input to standard output, and to the file that its call names.
#![tactic(auto)]

use files::{Program, STDOUT, Source, WORD};

fn to_file(program: Program<'_>) {
    let mut name = [0u8; WORD];
    let name = files::word(program.rt, 1, &mut name);
    runner::run(program, Source::Standard, Some(name), b"");
}

fn main(rt: HostRuntime) {
    let program = Program {
        rt: &rt,
        name: b"legsheet",
        output: STDOUT,
    };
    match files::word_count(&rt) {
        1 => runner::run(program, Source::Standard, None, b""),
        2 => to_file(program),
        _ => {
            program.usage(b"legsheet [FILE]");
        }
    }
}
