//! The steps of a rule file.

/// A step of a rule: from a state, by a label, to the next state.
#[derive(Clone, Copy, Drop, PartialEq, Eq)]
pub struct RuleStep {
    pub state: u32,
    pub label: u32,
    pub next: u32,
}
