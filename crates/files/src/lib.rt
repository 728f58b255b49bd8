// The one crate that reads, makes and writes files, and knows the words of the program's call; `loading` opens those that are there. Each call of the system stands in
// one function, whose contract says that it was made and what it answered.
#![tactic(auto)]

mod calling;
mod closing;
mod naming;
mod program;
mod reading;
mod saving;
mod saying;
mod sending;

pub use calling::{WORD, word, word_count};
pub use closing::close;
pub use program::Program;
pub use reading::{Source, call_read, count, read_some};
pub use saving::{Unsaved, save};
pub use sending::{Output, STDERR, STDOUT};
