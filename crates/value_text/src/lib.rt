//! Reads values: lines `value RANKS NUMBER`, which give ranks of a plan a number.
//!
//! Lines that are empty, hold only spaces and tabs, or begin with `#` say nothing. `values_of_text` says what a text
//! means, or its first error, and [`read_values`] gives exactly that.
#![tactic(auto)]

mod numbers;
mod parser;
mod read;
mod values;
mod words;

pub use read::read_values;
pub use values::{ValueRun, Values};
