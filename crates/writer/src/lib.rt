//! The writer of network files.
#![tactic(auto)]

mod cursor;
mod item;
mod list;
mod network;
mod tables;

pub use network::write_network;
pub use tables::LentTables;
