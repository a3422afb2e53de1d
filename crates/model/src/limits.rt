//! How many there may be of what a network, a book and a rule are made of.

/// The most stops of a network.
pub const MOST_STOPS: u32 = 1_024;

/// The most arcs of a network.
pub const MOST_ARCS: u32 = 8_192;

/// The most services of one kind.
pub const MOST_SERVICES: u32 = 4_096;

/// The most connections of one service.
pub const MOST_CONNECTIONS: u32 = 512;

/// The most points of one service.
pub const MOST_POINTS: u32 = 96;

/// The longest walk, in seconds.
pub const LONGEST_WALK: u32 = 86_400;

/// The longest name of a stop, in bytes.
pub const LONGEST_NAME: u32 = 40;

/// The most states of a rule that one asks with.
pub const MOST_STATES: u32 = 64;
