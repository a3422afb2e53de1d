//! What an ask has to answer.
ghost use Rattle.std.specs.Prelude.{◌≡◌, ◌<◌, ◌≤◌, ◌⊎◌, IfOk, IfErr, Err};
ghost use Rattle.model.specs.declared.refusal.Refusal.TheVariants.{NoSuchStart, NoSuchTarget, SecondAboveHorizon, NoJourney, RowsShort};

use crate::survey::{Reached, Survey};
use crate::trips::World;
use model::{Enquiry, HORIZON, Leg, Place, Refusal};
use std::alloc::{AllocError, Global};

/// The lengths of the tables that an ask is lent.
#[derive(Clone, Copy, Drop)]
pub struct Sizes {
    pub rows: usize,
    pub slots: usize,
    pub slip: usize,
}

/// A journey, and what is worth counting of it.
#[derive(Drop)]
pub struct Journey {
    pub arrival: u32,
    pub legs: Vec<Leg>,
    /// How many eager trips of fewest legs end at its place.
    pub ways: usize,
    /// How many places of the target in an end state have its first second.
    pub ends: usize,
}

/// Whether some arc's service is not in the book.
fn any_unserved(world: World) -> bool {
    world
        .arcs
        .iter()
        .any(|arc| arc.service as usize >= world.book.count())
}

/// The refusal by the tests that come before the search, in their order.
pub fn refused_by_tests(world: World, enquiry: Enquiry, sizes: Sizes) -> Result<(), Refusal>
    ensures start { world.entry.stops ≤ enquiry.start → result ≡ Err NoSuchStart }
    ensures target { enquiry.start < world.entry.stops → world.entry.stops ≤ enquiry.target → result ≡ Err NoSuchTarget }
    ensures second { enquiry.start < world.entry.stops → enquiry.target < world.entry.stops → 172800 < enquiry.second → result ≡ Err SecondAboveHorizon }
{
    let states = world.rule.states();
    if enquiry.start >= world.stops {
        Err(Refusal::NoSuchStart)
    } else if enquiry.target >= world.stops {
        Err(Refusal::NoSuchTarget)
    } else if enquiry.second > HORIZON {
        Err(Refusal::SecondAboveHorizon)
    } else if states > 64 {
        Err(Refusal::TooManyStates)
    } else if any_unserved(world) {
        Err(Refusal::NoSuchService)
    } else if sizes.rows < (world.stops as usize).saturating_mul(states as usize) {
        Err(Refusal::LabelTableShort)
    } else if sizes.slots
        < world
            .arcs
            .len()
            .saturating_mul(states as usize)
            .saturating_add(1)
    {
        Err(Refusal::QueueShort)
    } else {
        Ok(())
    }
}

/// Whether a place is the target in an end state.
fn is_end(world: World, place: Place, target: u32) -> bool {
    place.stop == target && world.rule.ends(place.state)
}

/// Of the target's places in an end state the one that comes before the others: by its first second, then by its rank, then by its state.
fn end_place(world: World, places: &[Reached], target: u32) -> Option<Reached> {
    places
        .iter()
        .copied()
        .filter(|reached| is_end(world, reached.place, target))
        .min_by_key(|reached| (reached.first, reached.rank, reached.place.state))
}

/// How many of the target's places in an end state have this first second.
fn ends_at(world: World, places: &[Reached], target: u32, first: u32) -> usize {
    places
        .iter()
        .filter(|reached| is_end(world, reached.place, target) && reached.first == first)
        .count()
}

/// Whether an arc of this label and service is an eager leg from one place to another of the next rank.
fn is_eager_leg(world: World, from: Reached, label: u32, service: u32, to: Reached) -> bool {
    from.rank.checked_add(1) == Some(to.rank)
        && world.rule.next(from.place.state, label) == Some(to.place.state)
        && world.book.arrival_under(world.notices, service, from.first) == Some(to.first)
}

/// The last leg of the journey to a place, and the place that it leaves: an eager leg from a place one rank lower, of the lowest arc number, then from the
/// lowest state. A place of rank 0 has none.
fn last_leg(world: World, places: &[Reached], to: Reached) -> Option<(Leg, Reached)> {
    for (number, arc) in (0..u32::MAX).zip(world.arcs) {
        for from in places {
            let joins = from.place.stop == arc.tail && to.place.stop == arc.head;
            if joins && is_eager_leg(world, *from, arc.label, arc.service, to) {
                let leg = Leg {
                    arc: number,
                    entered: from.first,
                    arrived: to.first,
                };
                return Some((leg, *from));
            }
        }
    }
    None
}

/// The journey to a place by the tie rule.
fn journey_to(
    heap: Global,
    world: World,
    places: &[Reached],
    to: Reached,
) -> Result<Vec<Leg>, AllocError> {
    let mut legs = Vec::new(heap);
    let mut at = to;
    for _ in 0..to.rank {
        let Some((leg, from)) = last_leg(world, places, at) else {
            break;
        };
        legs.push(leg)?;
        at = from;
    }
    legs.as_mut_slice().reverse();
    Ok(legs)
}

/// What the survey from an enquiry's start says to the enquiry, for a slip of so many rows.
pub fn read_answer(
    heap: Global,
    world: World,
    survey: &Survey,
    target: u32,
    slip: usize,
) -> Result<Result<Journey, Refusal>, AllocError>
    ensures { IfOk result (λ answer. IfErr answer (λ refusal. (refusal ≡ NoJourney) ⊎ (refusal ≡ RowsShort))) }
{
    let places = survey.places.as_slice();
    let Some(end) = end_place(world, places, target) else {
        return Ok(Err(Refusal::NoJourney));
    };
    if slip < end.rank as usize {
        return Ok(Err(Refusal::RowsShort));
    }
    Ok(Ok(Journey {
        arrival: end.first,
        legs: journey_to(heap, world, places, end)?,
        ways: end.ways,
        ends: ends_at(world, places, target, end.first),
    }))
}
