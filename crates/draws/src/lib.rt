//! Draws small towns, rules and calls: rich in ties, in arcs of no seconds, in dead ends and in what is refused.
#![tactic(auto)]

// The heap and the dice go side by side through these functions: many draw without a heap, and one that takes it makes lists.

mod calls;
mod rule;
mod script;
mod tables;
mod town;

pub use calls::draw_calls;
pub use rule::draw_rule;
pub use script::blank_leg;
pub use town::{Town, draw_town};
