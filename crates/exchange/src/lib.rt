//! Network files that are loaded and written again.
#![tactic(auto)]

mod theorems;

pub use theorems::accepted_files_write_back;
