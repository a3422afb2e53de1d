//! Rules on modes: what a rule is, and the rules that there are.
#![tactic(auto)]

mod boarding;
mod fault;
mod lent;
mod pair;
mod rule;
mod table;
mod words;

pub use boarding::BoardingRule;
pub use fault::RuleFault;
pub use pair::{Pair, pair_state_examples};
pub use rule::Rule;
pub use table::{MAX_ENTRIES, MAX_STATES, TableRule};
pub use words::accepts;
