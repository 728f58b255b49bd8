// What is kept of a month's files.
ghost use Rattle.std.specs.Prelude.{◌≡◌};
ghost use Rattle.reporting.specs.declared.parts.Apart.TheVariants.{Stopped};

use month::Stop;

// The most files of a month.
pub const MOST_FILES: usize = 400;

// Why a file is not in the report.
#[derive(Clone, Copy)]
pub enum Apart {
    // It can't be read.
    Unread,
    // It was, and this stops it.
    Stopped(Stop),
}

impl From<Stop> for Apart {
    ghost from_gives = { λ s a. a ≡ Stopped s };

    fn from(stop: Stop) -> Apart {
        Apart::Stopped(stop)
    }
}
