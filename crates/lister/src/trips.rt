//! The list of all trips.
use model::{Arc, Leg, Place};
use notices::Notice;
use plain::{PlainRule, Tables};
use std::alloc::{AllocError, Global};

/// The most trips that are listed.
const MOST_TRIPS: usize = 20_000;

/// A network, a book under notices and a rule; and the last second until which one waits.
// the heap is not among these: a function that begins a list is handed the heap beside them, and so shows that it allocates
#[derive(Clone, Copy)]
pub struct World<'a> {
    pub stops: u32,
    pub arcs: &'a [Arc],
    pub book: &'a Tables,
    pub notices: &'a [Notice],
    pub rule: &'a PlainRule,
    pub last: u32,
}

/// A trip: the empty one, or another one of the list and a leg more.
#[derive(Clone, Copy, Drop)]
pub struct Trip {
    /// The index of the other one, and the leg; the empty trip has neither.
    // an index, since the other one lies in the same list, which grows while it is read
    pub last: Option<(usize, Leg)>,
    pub legs: u32,
    pub at: Place,
    pub arrival: u32,
    /// Whether it waits before some leg.
    pub waits: bool,
    /// Whether it is eager: it never waits, and is at each of its places at its first second. Said once all trips are listed.
    pub eager: bool,
}

impl Trip {
    /// The trip without legs.
    fn empty(start: u32, second: u32) -> Trip {
        Trip {
            last: None,
            legs: 0,
            at: Place {
                stop: start,
                state: 0,
            },
            arrival: second,
            waits: false,
            eager: false,
        }
    }

    /// This trip, whose index is given, and a leg more.
    fn and(self, index: usize, leg: Leg, at: Place) -> Trip {
        Trip {
            last: Some((index, leg)),
            legs: self.legs.saturating_add(1),
            at,
            arrival: leg.arrived,
            waits: self.waits || leg.entered != self.arrival,
            eager: false,
        }
    }
}

/// Lists the trips that go on from a listed one by an arc to a place: entered at once, or at any later second up to the last.
// side by side, since they go together in this one call alone
fn list_entries(
    world: World,
    trips: &mut Vec<Trip>,
    index: usize,
    trip: Trip,
    number: u32,
    service: u32,
    at: Place,
) -> Result<(), AllocError> {
    let end = trip.arrival.max(world.last).saturating_add(1);
    for entered in trip.arrival..end {
        if let Some(arrived) = world.book.arrival_under(world.notices, service, entered) {
            let leg = Leg {
                arc: number,
                entered,
                arrived,
            };
            trips.push(trip.and(index, leg, at))?;
        }
    }
    Ok(())
}

/// Lists the trips that have one leg more than a listed one.
fn list_longer(world: World, trips: &mut Vec<Trip>, index: usize) -> Result<(), AllocError> {
    let Some(trip) = trips.get(index).copied() else {
        return Ok(());
    };
    for (number, arc) in (0..u32::MAX).zip(world.arcs) {
        if arc.tail == trip.at.stop {
            if let Some(state) = world.rule.next(trip.at.state, arc.label) {
                let at = Place {
                    stop: arc.head,
                    state,
                };
                list_entries(world, trips, index, trip, number, arc.service, at)?;
            }
        }
    }
    Ok(())
}

/// All trips of at most `places - 1` legs, by their number of legs; none where there are too many to list. With arcs of no seconds there are trips of any
/// number of legs, but a trip that comes to a place twice arrives no sooner than without what lies between, so that these are enough: among
/// them are a first trip, and an eager trip of fewest legs, to every place that can be reached.
pub(crate) fn list_trips(
    heap: Global,
    world: World,
    start: u32,
    second: u32,
) -> Result<Option<Vec<Trip>>, AllocError> {
    let places = world.stops.saturating_mul(world.rule.states());
    let mut trips = Vec::new(heap);
    trips.push(Trip::empty(start, second))?;
    let mut first = 0;
    for _ in 1..places {
        let end = trips.len();
        // by index, since the list grows in the loop: the trips of one leg more go behind those of this round
        for index in first..end {
            list_longer(world, &mut trips, index)?;
            if trips.len() > MOST_TRIPS {
                return Ok(None);
            }
        }
        first = end;
    }
    Ok(Some(trips))
}
