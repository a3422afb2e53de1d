//! An ask judged.
use crate::counts::{Counts, count_if};
use draws::blank_leg;
use lister::{Journey, Sizes, Survey, World, read_answer, refused_by_tests, survey_from};
use model::{Enquiry, Found, Leg, Refusal};
use scripts::Reply;
use std::alloc::{AllocError, Global};

/// A call whose answer is not the one expected.
#[derive(Drop)]
pub struct Difference {
    /// Which step of the script, or which ask after it, counted on.
    pub step: usize,
    pub expected: Reply,
    pub expected_legs: Vec<Leg>,
    pub seen: Reply,
    pub seen_legs: Vec<Leg>,
}

/// An ask that was made: where it stands among the calls, what came of it and what its slip has then.
#[derive(Clone, Copy)]
pub(crate) struct Made<'a> {
    pub(crate) step: usize,
    pub(crate) enquiry: Enquiry,
    pub(crate) reply: Reply,
    pub(crate) slip: &'a [Leg],
}

/// What an ask has to answer, and what is worth counting of it.
#[derive(Drop)]
struct Expectation {
    answer: Result<Found, Refusal>,
    legs: Vec<Leg>,
    ways: usize,
    ends: usize,
    waits: bool,
    trips: usize,
}

/// Whether a trip with a wait suits.
fn any_waits(world: World, survey: &Survey, target: u32) -> bool {
    survey.trips.iter().any(|trip| trip.waits
        && trip.at.stop == target
        && world.rule.ends(trip.at.state))
}

fn refused(heap: Global, refusal: Refusal) -> Expectation {
    Expectation {
        answer: Err(refusal),
        legs: Vec::new(heap),
        ways: 0,
        ends: 0,
        waits: false,
        trips: 0,
    }
}

fn answered(journey: Journey) -> Expectation {
    let legs = u32::try_from(journey.legs.len()).unwrap_or(u32::MAX);
    Expectation {
        answer: Ok(Found {
            arrival: journey.arrival,
            legs,
        }),
        legs: journey.legs,
        ways: journey.ways,
        ends: journey.ends,
        waits: false,
        trips: 0,
    }
}

/// What an ask has to answer; none where there are too many trips to list.
fn expect(
    heap: Global,
    world: World,
    enquiry: Enquiry,
    sizes: Sizes,
) -> Result<Option<Expectation>, AllocError> {
    if let Err(refusal) = refused_by_tests(world, enquiry, sizes) {
        return Ok(Some(refused(heap, refusal)));
    }
    let Some(survey) = survey_from(heap, world, enquiry.start, enquiry.second)? else {
        return Ok(None);
    };
    let mut expectation = match read_answer(heap, world, &survey, enquiry.target, sizes.slip)? {
        Err(refusal) => refused(heap, refusal),
        Ok(journey) => answered(journey),
    };
    expectation.waits = any_waits(world, &survey, enquiry.target);
    expectation.trips = survey.trips.len();
    Ok(Some(expectation))
}

/// Whether the rule has just one end.
fn has_one_end(world: World) -> bool {
    let ends = (0..world.rule.states()).filter(|state| world.rule.ends(*state));
    ends.count() == 1
}

/// Counts what is worth it.
fn note(counts: &mut Counts, world: World, expectation: &Expectation) {
    let is_reckoned = matches!(expectation.answer, Ok(_) | Err(Refusal::NoJourney));
    counts.reply(Reply::Asked(expectation.answer));
    counts.journey(expectation.legs.as_slice());
    counts.trips = counts.trips.saturating_add(expectation.trips as u64);
    count_if(&mut counts.ties, expectation.ways > 1);
    count_if(&mut counts.tied_ends, expectation.ends > 1);
    count_if(&mut counts.waits, expectation.waits);
    count_if(&mut counts.first_seconds, is_reckoned && has_one_end(world));
}

/// Whether a slip has these legs in its first rows, and is blank behind them.
fn is_filled(slip: &[Leg], legs: &[Leg]) -> bool {
    slip.starts_with(legs) && slip.iter().skip(legs.len()).all(|row| *row == blank_leg())
}

/// Whether the ask has another answer without the notices.
fn is_changed(
    heap: Global,
    world: World,
    enquiry: Enquiry,
    sizes: Sizes,
    expectation: &Expectation,
) -> Result<bool, AllocError> {
    if world.notices.is_empty() {
        return Ok(false);
    }
    let without = World {
        notices: &[],
        ..world
    };
    let Some(other) = expect(heap, without, enquiry, sizes)? else {
        return Ok(false);
    };
    Ok(other.answer != expectation.answer || other.legs.as_slice() != expectation.legs.as_slice())
}

/// Holds the answer of an ask, and what its slip has then, against the list of all trips.
pub(crate) fn judge_ask(
    heap: Global,
    counts: &mut Counts,
    world: World,
    lent: Sizes,
    made: Made,
) -> Result<Option<Difference>, AllocError> {
    let sizes = Sizes {
        slip: made.slip.len(),
        ..lent
    };
    count_if(&mut counts.asks, true);
    let Some(expectation) = expect(heap, world, made.enquiry, sizes)? else {
        count_if(&mut counts.passed_over, true);
        return Ok(None);
    };
    note(counts, world, &expectation);
    let changed = is_changed(heap, world, made.enquiry, sizes, &expectation)?;
    count_if(&mut counts.changed, changed);
    let expected = Reply::Asked(expectation.answer);
    if expected == made.reply && is_filled(made.slip, expectation.legs.as_slice()) {
        return Ok(None);
    }
    Ok(Some(Difference {
        step: made.step,
        expected,
        expected_legs: expectation.legs,
        seen: made.reply,
        seen_legs: made.slip.to_vec(heap)?,
    }))
}
