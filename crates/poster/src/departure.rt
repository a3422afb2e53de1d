//! The elements of the poster's queue, and its rows.
ghost use Rattle.poster.specs.Before.{departure_before};
ghost use Rattle.poster.specs.Orders;

use queue::Ranked;

/// A connection on an arc, by its place in the arc's service, with its second of departure: by departure, arc and place in turn it comes
/// out of the queue.
#[derive(Clone, Copy, Debug, Default, Drop, PartialEq, Eq)]
pub struct Departure {
    pub departure: u32,
    pub arc: u32,
    pub place: u32,
}

impl Ranked for Departure {
    ghost before = { departure_before };

    ghost order = { Orders.order };

    fn precedes(self, other: Departure) -> bool {
        let rank = (self.departure, self.arc, self.place);
        rank < (other.departure, other.arc, other.place)
    }
}

/// A row of a poster.
#[derive(Clone, Copy, Debug, Default, Drop, PartialEq, Eq)]
pub struct PosterRow {
    pub departure: u32,
    pub arrival: u32,
    pub arc: u32,
}
