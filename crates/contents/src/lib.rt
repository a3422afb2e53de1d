//! The contents of a network file in tables of their own, and the book and the network over them; and the rule of a rule file.
#![tactic(auto)]

mod laying;
mod rule;
mod tables;

pub use laying::{FileBook, lay_book, lay_network};
pub use rule::read_rule;
pub use tables::FileContents;
