// A row's line of hex text, read (02, [10]): its fields, where it does not read, and what each field says.
#![tactic(auto)]

mod fields;
mod parts;

pub use fields::{column, stop, value};
pub use parts::{next, part};
