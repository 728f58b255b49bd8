// An f64 as one of C's hexadecimal floats (02, [10]): written in one spelling, and read in each that C17's strtod takes, of up to 40 digits and six of exponent, rounded once.
//
// Reading: the digits go into 128 bits as long as they fit; then they are dropped one by one, and what is kept is how many, and whether one of them was not 0.
// That is all that the one rounding asks.
#![tactic(auto)]

mod bytes;
mod digits;
mod field;
mod writing;

pub use bytes::{after, find, front};
pub use field::read_float;
pub use writing::put_float;
