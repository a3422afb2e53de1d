//! What is known of a place.
ghost use Rattle.std.specs.Prelude.{◌≡◌};
ghost use Rattle.labels.specs.Rows.{improves as improves_on};
ghost use Rattle.labels.specs.Table.{better as better_than};

use model::Place;

/// The best way known to a place: its second, its legs, and its last leg: the arc, and the state that it leaves in.
#[derive(Clone, Copy, Drop)]
pub struct Label {
    pub second: u32,
    pub legs: u32,
    // the label before is found by these in the table that is lent, since there is no heap to hold it
    pub arc: u32,
    pub state: u32,
    // no enum of waiting and settled labels: the rest means the same in both, and is asked for without regard to it
    pub settled: bool,
}

/// A label for a place.
#[derive(Clone, Copy, Drop)]
pub struct Offer {
    pub at: Place,
    pub label: Label,
}

impl Label {
    /// Whether the label is strictly before another: by the second, then the legs, then the arc and the state of the last leg.
    pub fn is_before(self, other: Label) -> bool
        ensures { result ≡ better_than self other }
    {
        let rank = (self.second, self.legs, self.arc, self.state);
        rank < (other.second, other.legs, other.arc, other.state)
    }

    /// Whether the label improves on what a row of the table has.
    pub fn improves(self, row: Option<Label>) -> bool
        ensures { result ≡ improves_on row self }
    {
        row.is_none_or(|known| self.is_before(known))
    }
}
