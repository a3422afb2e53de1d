//! The label-setting search over the product of a network and a rule's automaton.
#![tactic(auto)]

mod entry;
mod frontier;
mod product;
mod refusal;
mod tables;
mod turns;

pub use entry::Entry;
pub use product::Product;
pub use tables::SearchTables;
pub use turns::Reached;
