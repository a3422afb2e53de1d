//! The formats of the network file and of the rule file, and what holds of all such files.
#![tactic(auto)]

mod network_file;
mod rule_step;
mod theorems;

pub use network_file::{NETWORK_FORM, least_arrival, least_second, second_before};
pub use rule_step::RuleStep;
pub use theorems::{network_files_go_both_ways, numbers_of_a_file, rule_files_go_both_ways};
