//! Books, notices and rules as plain tables, read in the plainest way.
#![tactic(auto)]

// Planners are set against what is here: it shares no code with them, but for the types of rows and the horizon.

mod rule;
mod tables;

pub use rule::{Part, PlainRule, PlainTable};
pub use tables::Tables;
