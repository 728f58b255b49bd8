// The program that runs, and what it says of its own.
ghost use Rattle.std.specs.Prelude.{◌≡◌, ◌++◌, false, pos};
ghost use Rattle.files.specs.Notes.{usage_line};
ghost use Rattle.files.specs.Output.{output_of, Wrote, Told};

use crate::{Output, STDERR};

// Its runtime, its name, and the output that its text goes to.
#[derive(Clone, Copy)]
pub struct Program<'a> {
    pub rt: &'a HostRuntime,
    pub name: &'a [u8],
    pub output: i32,
}

impl Program<'_> {
    // The output, before anything is sent there.
    pub fn begin(self) -> Output
        ensures { result ≡ output_of self.entry.output }
    {
        Output::begin(self.output)
    }

    // How it is called.
    pub fn usage(self, call: &[u8]) -> Output
        ensures { Wrote (output_of self.entry.output) (usage_line call.now) result }
    {
        self.begin().put_note(self.rt, b"usage: ", call)
    }

    // To standard error: its name, and what to do next.
    pub fn tell(self, what: &[u8]) -> Output
        ensures { Wrote (output_of (pos 2)) (self.entry.name.now ++ what.now) result }
    {
        Output::begin(STDERR)
            .put(self.rt, self.name)
            .put(self.rt, what)
    }

    // The same where the output could not be written.
    pub fn tell_lost(self, out: Output, what: &[u8])
        ensures { out.ok ≡ false → Told self.entry.name.now what.now }
    {
        if !out.ok {
            self.tell(what);
        }
    }
}
