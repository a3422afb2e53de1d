//! What service books answer and what can be wrong with their tables, as definitions over lists and numbers, and the proofs that the
//! answers keep the laws of books.
#![tactic(auto)]

mod fault;

pub use fault::{BookFault, Field};
