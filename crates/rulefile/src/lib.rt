//! The loader of rule files.
#![tactic(auto)]

mod load;
mod marks;
mod step;
mod steps;

pub use load::{load_rule, read_rule};
