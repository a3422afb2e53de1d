//! Holds what the planners answered against what the lister and the clerk say, and counts what was seen.
#![tactic(auto)]

mod asks;
mod counts;
mod judge;

pub use asks::Difference;
pub use counts::Counts;
pub use judge::judge_calls;
