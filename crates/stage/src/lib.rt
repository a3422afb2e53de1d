//! The planner's own calls of a trial: a script over two planners, then asks with slips of any length.
#![tactic(auto)]

mod asks;
mod play;

pub use asks::{Ask, Calls};
pub use play::play_two;
