//! The records of a network file, handed out one at a time.
#![tactic(auto)]

mod fields;
mod record;
mod records;

pub use record::Record;
pub use records::Records;
