//! The tables that a run lends.
ghost use Rattle.std.specs.Prelude.{◌≡◌, ◌/◌};

use files::Counts;
use model::{MOST_ARCS, MOST_SERVICES, MOST_STOPS};
use workspace::AskSizes;

/// The rows that any file of so many bytes may fill: a connection or a point takes two bytes at least.
pub(crate) fn file_rows(bytes: usize) -> Counts
    ensures { result ≡ record { stops = 1024; walks = 4096; timetables = 4096; connections = bytes / 2; roads = 4096; points = bytes / 2; arcs = 8192 } }
{
    Counts {
        stops: MOST_STOPS as usize,
        walks: MOST_SERVICES as usize,
        timetables: MOST_SERVICES as usize,
        connections: bytes / 2,
        roads: MOST_SERVICES as usize,
        points: bytes / 2,
        arcs: MOST_ARCS as usize,
    }
}

/// What asks over a file's network by a rule of so many states are lent; no journey has more legs than there are places.
pub(crate) fn ask_sizes(states: u32, counts: Counts) -> AskSizes {
    let states = states as usize;
    let places = states.saturating_mul(counts.stops);
    AskSizes {
        labels: places,
        slots: states.saturating_mul(counts.arcs).saturating_add(1),
        legs: places,
    }
}
