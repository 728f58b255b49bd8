// Text to an output, piece by piece.
ghost use Rattle.std.specs.Prelude.{◌≡◌};
ghost use Rattle.files.specs.Calls.{Called, sends};
ghost use Rattle.files.specs.Output.{output_of, Wrote};

// Standard output and standard error, which std writes; the kit's io writes any other output.
pub const STDOUT: i32 = 1;

pub const STDERR: i32 = 2;

// Where the text goes, how many pieces were sent there, and whether all of them were taken.
// Kept: no Result of a state, as the definition Wrote and its laws speak of the file and the pieces of an output in both cases, so each of the two would hold both.
#[derive(Clone, Copy)]
pub struct Output {
    pub file: i32,
    pub sends: u64,
    pub ok: bool,
}

impl Output {
    // Nothing was sent yet.
    pub fn begin(file: i32) -> Self
        ensures { result ≡ output_of file }
    {
        Output {
            file,
            sends: 0,
            ok: true,
        }
    }

    // The one call that writes to an output.
    fn send(self, rt: &HostRuntime, text: &[u8]) -> bool
        ensures { Called (sends self.file self.sends text.now result) }
    {
        match self.file {
            STDOUT => rt.stdout().write_all(text).is_ok(),
            STDERR => rt.stderr().write_all(text).is_ok(),
            _ => io::write_all(self.file, text),
        }
    }

    // After a piece that was not taken whole no other is sent.
    pub fn put(mut self, rt: &HostRuntime, text: &[u8]) -> Self
        ensures { Wrote self text.now result }
    {
        if self.ok {
            self.ok = self.send(rt, text);
            self.sends = self.sends.wrapping_add(1);
        }
        self
    }
}
