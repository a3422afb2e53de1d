//! The boundary to programs that are not written in Rattle: one function on numbers and slices of numbers.
#![tactic(auto)]

mod answers;
mod tables;

pub use answers::nulambitra_answers;
