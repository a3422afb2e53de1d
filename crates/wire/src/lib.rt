//! The numbers of a file, the formats that a file is put together from with their laws, and the reader of its bytes.
#![tactic(auto)]

mod fault;
mod number;
mod reader;

pub use fault::Fault;
pub use number::{encoded_len, put};
pub use reader::Reader;
