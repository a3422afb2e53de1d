//! An enquiry asked: the search, and the journey traced back into the slip.
#![tactic(auto)]

mod answer;
mod trace;

pub use answer::ask;
pub use engine::{Entry, Product, SearchTables};
pub use labels::Label;
