// A list is read in parts of whole lines, and each line is worked out again.
use crate::kinds::{Kind, Shown};
use files::Source;

// How many lines, how many of them differ, the number of the first that does, and the largest part of its bound
// that an answer uses.
#[derive(Clone, Copy)]
pub(crate) struct Tally {
    lines: u64,
    differ: u64,
    first: Option<u64>,
    part: u64,
}

impl Tally {
    // No line yet.
    pub(crate) fn start() -> Tally {
        Tally {
            lines: 0,
            differ: 0,
            first: None,
            part: 0,
        }
    }

    // One line more.
    fn counted(mut self, shown: Shown) -> Tally {
        self.lines = self.lines.wrapping_add(1);
        self.part = self.part.max(shown.part);
        if !shown.same {
            self.differ = self.differ.wrapping_add(1);
            self.first = self.first.or(Some(self.lines));
        }
        self
    }

    // The lines of one part; what is left of it after the last whole line counts as a line that differs.
    fn with_part(self, kind: Kind, part: &[u8]) -> Tally {
        part.chunks(17 * kind.words())
            .fold(self, |t, line| t.counted(kind.agrees(line)))
    }

    pub(crate) fn print(self, rt: &HostRuntime) {
        print!(rt; ": {} lines, {} differ", self.lines, self.differ).is_ok();
        if let Some(first) = self.first {
            print!(rt; ", the first is line {}", first).is_ok();
        }
        if self.part > 0 {
            print!(rt; ", less than {} millionths of a bound used", self.part).is_ok();
        }
        print!(rt; "\n").is_ok();
    }
}

// The whole list, up to the file's end or a failure. A loop has to end, so at most 2^64 - 1 parts are read.
pub(crate) fn replayed(rt: &HostRuntime, file: Source<'_>, kind: Kind) -> Tally {
    let mut t = Tally::start();
    for _ in 0..u64::MAX {
        let mut buffer = [0u8; 65280];
        let part = match loading::read_whole(rt, file, &mut buffer) {
            Ok(part) => part,
            Err(part) => part,
        };
        if part.is_empty() {
            return t;
        }
        t = t.with_part(kind, part);
    }
    t
}
