//! Walk, timetable and road books over lent tables.
#![tactic(auto)]

mod examples;
mod lists;
mod roads;
mod rows;
mod timetables;
mod walks;

pub use examples::worked_examples;
pub use lists::Lists;
pub use meanings::{BookFault, Field};
pub use roads::Roads;
pub use rows::Row;
pub use timetables::Timetables;
pub use walks::Walks;
