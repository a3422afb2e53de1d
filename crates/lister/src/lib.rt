//! Lists every trip of a small world, one by one, and reads off the list what an ask has to answer. Nothing here searches: it is to be believed at a glance.
#![tactic(auto)]

mod answer;
mod survey;
mod trips;

pub use answer::{Journey, Sizes, read_answer, refused_by_tests};
pub use survey::{Reached, Survey, survey_from};
pub use trips::{Trip, World};
