//! The network value: stops and arcs, tested once when it is laid.
#![tactic(auto)]

mod fault;
mod network;

pub use fault::{ArcRange, NetworkFault};
pub use network::Network;
