//! Network files, loaded into tables.
#![tactic(auto)]

mod loading;
mod rows;
mod tables;

pub use loading::{Loaded, load};
pub use rows::Counts;
pub use tables::FileTables;
