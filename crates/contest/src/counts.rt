//! What was seen.
ghost use Rattle.std.specs.Prelude.{◌≡◌};

use model::Leg;
use scripts::Reply;

/// Counts over many trials.
#[derive(Default, Drop)]
pub struct Counts {
    pub calls: u32,
    pub no_calls: u32,
    pub asks: u32,
    /// Asks that were passed over, since there are too many trips to list.
    pub passed_over: u32,
    pub journeys: u32,
    pub legs: u32,
    pub legs_of_no_seconds: u32,
    /// Journeys with several eager trips of fewest legs to their place.
    pub ties: u32,
    /// Journeys with several places of the target at the first second.
    pub tied_ends: u32,
    /// Asks that are answered otherwise without the standing notices.
    pub changed: u32,
    /// Asks that a trip with a wait suits.
    pub waits: u32,
    /// Asks by a rule with one end: first second and rank of that place are compared.
    pub first_seconds: u32,
    /// Refusals by number.
    // a number for an index, since this is the number that is printed beside the count
    pub refused: [u32; 64],
    /// Trips that were listed.
    pub trips: u64,
}

fn count(number: &mut u32) {
    *number = number.saturating_add(1);
}

impl Counts {
    /// Nothing seen yet.
    pub fn new() -> Counts
        ensures { (result.asks ≡ 0) × (result.journeys ≡ 0) × (result.trips ≡ 0) }
    {
        Counts::default()
    }

    /// Counts a call by what came of it.
    pub(crate) fn reply(&mut self, reply: Reply) {
        match reply {
            Reply::Idle => count(&mut self.no_calls),
            Reply::Asked(Ok(_)) => count(&mut self.journeys),
            Reply::Opened(Ok(_)) | Reply::Shown(_, Ok(())) => count(&mut self.calls),
            Reply::Asked(Err(refusal))
            | Reply::Opened(Err(refusal))
            | Reply::Shown(_, Err(refusal)) => {
                if let Some(refused) = self.refused.get_mut(refusal.number() as usize) {
                    count(refused);
                }
            }
        }
    }

    /// Counts the legs of a journey.
    pub(crate) fn journey(&mut self, legs: &[Leg]) {
        for leg in legs {
            count(&mut self.legs);
            if leg.entered == leg.arrived {
                count(&mut self.legs_of_no_seconds);
            }
        }
    }
}

/// Counts what is so.
pub(crate) fn count_if(number: &mut u32, so: bool) {
    if so {
        count(number);
    }
}
