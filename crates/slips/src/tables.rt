//! The tables that a run lends: those of the files serve any input of 16,384 bytes.
use files::Counts;
use model::{MOST_SERVICES, MOST_STOPS};
use workspace::AskSizes;

/// The longest input, in bytes.
pub const LONGEST_INPUT: usize = 16_384;

/// A connection or a point takes two bytes at least, and an arc four.
pub const FILE_ROWS: Counts = Counts {
    stops: MOST_STOPS as usize,
    walks: MOST_SERVICES as usize,
    timetables: MOST_SERVICES as usize,
    connections: LONGEST_INPUT / 2,
    roads: MOST_SERVICES as usize,
    points: LONGEST_INPUT / 2,
    arcs: LONGEST_INPUT / 4,
};

/// What an ask is lent.
pub const ASK_SIZES: AskSizes = AskSizes {
    labels: 2_048,
    slots: 4_096,
    legs: 64,
};
