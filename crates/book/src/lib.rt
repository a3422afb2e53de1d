//! What a service book is, and books made of books.
#![tactic(auto)]

mod bank;
mod book;
mod lent;
mod sides;

pub use bank::Bank;
pub use book::Book;
pub use either::Either;
