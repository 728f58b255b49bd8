// What is said of a file instead of an answer.
ghost use Rattle.std.specs.Prelude.{◌++◌};
ghost use Rattle.laws.specs.Ascii.{ascii};
ghost use Rattle.files.specs.Notes.{cannot_write};
ghost use Rattle.files.specs.Output.{Wrote};

use crate::Output;

impl Output {
    // Words, a name and the line's end. The name may be longer than any buffer, so it is sent as it is.
    pub fn put_note(self, rt: &HostRuntime, words: &[u8], name: &[u8]) -> Self
        ensures { Wrote self (words.now ++ (name.now ++ ascii "\n")) result }
    {
        self.put(rt, words).put(rt, name).put(rt, b"\n")
    }

    // The file can't be written.
    pub fn cannot_write(self, rt: &HostRuntime, name: &[u8]) -> Self
        ensures { Wrote self (cannot_write name.now) result }
    {
        self.put_note(rt, b"cannot write ", name)
    }
}
