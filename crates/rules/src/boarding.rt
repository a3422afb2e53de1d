//! Rules that limit the number of boardings.
ghost use Rattle.std.specs.Prelude.{◌≡◌, ◌<◌, ◌≤◌, Ok, Err};
ghost use Rattle.automata.specs.Words.{AcceptsJust};
ghost use Rattle.automata.specs.Boardings.{boards, boarded, AtMost};
ghost use Rattle.automata.proofs.BoardingLaws.{boarded_lawful};
ghost use Rattle.rules.specs.Faults.{BoardingAtFault};

use crate::fault::RuleFault;
use crate::rule::Rule;
use model::{LABELS, Mode};

const MOST_BOARDINGS: u32 = 15;

/// At most so many boardings of bus, ship and rail.
#[derive(Clone, Copy, Drop)]
pub struct BoardingRule {
    limit: u32,
    ghost few: { limit ≤ 15 },
}

impl BoardingRule {
    /// The rule for at most `limit` boardings, 0 to 15.
    pub fn new(limit: u32) -> Result<BoardingRule, RuleFault>
        ensures made { elim result [ Ok rule ↦ (limit ≤ 15) × (rule.limit ≡ limit) | Err fault ↦ BoardingAtFault fault limit ] }
        ensures words { elim result [ Ok rule ↦ AcceptsJust (boarded rule.limit) (AtMost limit) | Err _ ↦ 15 < limit ] }
    {
        if limit > MOST_BOARDINGS {
            return Err(RuleFault::BoardingLimit);
        }
        Ok(BoardingRule { limit })
    }
}

/// Whether a label is a boarding: bus, ship or rail.
fn is_boarding(label: u32) -> bool
    ensures { result ≡ boards label }
{
    Mode::try_from(label).is_ok_and(Mode::is_boarding)
}

impl Rule for BoardingRule {
    ghost automaton = { λ r. boarded r.limit };

    ghost lawful = { λ r. boarded_lawful r.limit r.few };

    fn states(&self) -> u32 {
        self.limit + 1
    }

    fn next(&self, state: u32, label: u32) -> Option<u32> {
        if state > self.limit || label >= LABELS {
            None
        } else if !is_boarding(label) {
            Some(state)
        } else if state < self.limit {
            Some(state + 1)
        } else {
            None
        }
    }

    fn ends(&self, state: u32) -> bool {
        state <= self.limit
    }
}
