//! The planner: a book under notices, a rule and a mark; its notices are changed through bulletins.
#![tactic(auto)]

mod alike;
mod planner;

pub use alike::ask_both;
pub use planner::{Bulletin, Planner, Returned};
