//! What is asked of a planner, and what it finds.

/// From one stop to another, setting out at a second or later.
#[derive(Clone, Copy, Debug, Default, Drop, PartialEq, Eq)]
pub struct Enquiry {
    pub start: u32,
    pub target: u32,
    pub second: u32,
}

/// The second of arrival of a journey, and the number of its legs.
#[derive(Clone, Copy, Debug, Default, Drop, PartialEq, Eq)]
pub struct Found {
    pub arrival: u32,
    pub legs: u32,
}
