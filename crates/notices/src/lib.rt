//! Notices of late and shut services: what they make of a book, the table of 64, and the book that stands under them.
#![tactic(auto)]

mod example;
mod notice;
mod notice_book;
mod table;

pub use example::late_walk_stands;
pub use notice::Notice;
pub use notice_book::NoticeBook;
pub use table::NoticeTable;
