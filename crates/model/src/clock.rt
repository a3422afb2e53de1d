//! The clock.

/// The last second that there is: seconds are whole numbers from 0 to this one.
pub const HORIZON: u32 = 172_800;
