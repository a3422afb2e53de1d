//! Posters: the departures of a timetable book from a stop.
#![tactic(auto)]

mod departure;
mod line;
mod listing;
mod merge;
mod question;
mod refusal;

pub use departure::{Departure, PosterRow};
pub use listing::poster;
