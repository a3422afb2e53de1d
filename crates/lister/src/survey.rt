//! What the list says of each place.
ghost use Rattle.std.specs.Prelude.{◌≡◌, length, IfOk, vec_len};

use crate::trips::{Trip, World, list_trips};
use model::Place;
use std::alloc::{AllocError, Global};

/// A place that some trip ends at.
#[derive(Clone, Copy, Drop)]
pub struct Reached {
    pub place: Place,
    /// Its first second.
    pub first: u32,
    /// The fewest legs of an eager trip to it; where none ends there, more than any slip has rows.
    pub rank: u32,
    /// How many eager trips have so many legs.
    pub ways: usize,
}

/// A place that some trip ends at, and the least arrival of the trips that do.
#[derive(Clone, Copy, Drop)]
struct First {
    place: Place,
    second: u32,
}

/// The places that are reached, by stop and then by state, and the trips.
#[derive(Drop)]
pub struct Survey {
    pub places: Vec<Reached>,
    pub trips: Vec<Trip>,
}

/// The least arrival of the trips that end at a place.
fn first_second(trips: &[Trip], place: Place) -> Option<u32> {
    trips
        .iter()
        .filter(|trip| trip.at == place)
        .map(|trip| trip.arrival)
        .min()
}

/// The places that trips end at, with their first seconds.
fn list_firsts(heap: Global, world: World, trips: &[Trip]) -> Result<Vec<First>, AllocError> {
    let mut firsts = Vec::new(heap);
    for stop in 0..world.stops {
        for state in 0..world.rule.states() {
            let place = Place { stop, state };
            if let Some(second) = first_second(trips, place) {
                firsts.push(First { place, second })?;
            }
        }
    }
    Ok(firsts)
}

/// Whether a trip is at its last place at that place's first second.
fn is_first(firsts: &[First], trip: Trip) -> bool {
    firsts.iter().any(|first| first.place == trip.at && first.second == trip.arrival)
}

/// Says of each trip whether it is eager. An eager trip's last leg comes after an eager trip.
fn weigh_trips(trips: &mut [Trip], firsts: &[First]) {
    // by index, since a trip is weighed by one before it in the same list
    for index in 0..trips.len() {
        let trip = trips[index];
        let so_far = match trip.last {
            None => true,
            Some((before, _)) => trips.get(before).is_some_and(|before| before.eager),
        };
        trips[index].eager = so_far && !trip.waits && is_first(firsts, trip);
    }
}

/// The fewest legs of the eager trips that end at a place.
fn fewest_legs(trips: &[Trip], place: Place) -> Option<u32> {
    trips
        .iter()
        .filter(|trip| trip.eager && trip.at == place)
        .map(|trip| trip.legs)
        .min()
}

/// The place with its rank, by the eager trips that end there, and how many have that many legs. A place that no eager trip ends at stays among
/// the places: were there one, waiting would pay, and no planner's answer would be as that of the list.
fn ranked(first: First, trips: &[Trip]) -> Reached {
    let rank = fewest_legs(trips, first.place).unwrap_or(u32::MAX);
    let ways = trips
        .iter()
        .filter(|trip| trip.eager && trip.at == first.place && trip.legs == rank)
        .count();
    Reached {
        place: first.place,
        first: first.second,
        rank,
        ways,
    }
}

/// All places that trips end at, with their ranks.
fn rank_places(heap: Global, firsts: &[First], trips: &[Trip]) -> Result<Vec<Reached>, AllocError>
    ensures { IfOk result (λ places. vec_len places ≡ length firsts.now) }
{
    firsts
        .iter()
        .map(|first| ranked(*first, trips))
        .collect(heap)
}

/// Lists the trips from a stop at a second, and says what they say of the places; none where there are too many trips.
pub fn survey_from(
    heap: Global,
    world: World,
    start: u32,
    second: u32,
) -> Result<Option<Survey>, AllocError> {
    let Some(mut trips) = list_trips(heap, world, start, second)? else {
        return Ok(None);
    };
    let firsts = list_firsts(heap, world, trips.as_slice())?;
    weigh_trips(trips.as_mut_slice(), firsts.as_slice());
    let places = rank_places(heap, firsts.as_slice(), trips.as_slice())?;
    Ok(Some(Survey { places, trips }))
}
