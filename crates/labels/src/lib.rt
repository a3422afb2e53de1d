//! The labels of the search, and what a table of them tells: in specs/ the label-setting search over a table, in proofs/ its theorem.
#![tactic(auto)]

mod label;
mod theorems;

pub use label::{Label, Offer};
pub use theorems::theorems_hold;
