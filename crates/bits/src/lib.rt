// An f64 as its pattern and as its parts, numbers of 128 digits, fractions, and the one rounding.
#![tactic(auto)]

mod decoding;
mod fields;
mod fractions;
mod pattern;
mod rounding;
mod wide;

pub use decoding::parts;
pub use fields::Parts;
pub use fractions::{quotient, run, upper};
pub use pattern::{from_pattern, to_pattern};
pub use rounding::rounded;
pub use wide::{less, minus, plus, product};
