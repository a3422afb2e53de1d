//! The ledger of a planner: which notices stand, and which are drafted, after a list of calls.
//! It is a definition, reckoned from the planner's mark, its book's count and the calls alone.
#![tactic(auto)]

ghost use Rattle.ledger.specs.Sound.{AlwaysSound, IdleCalls};

/// In every ledger the notices, standing and drafted, are at most sixty-four, one for a service, in range and of the book's services;
/// and a refused call changes nothing in it, nor does an ask.
pub fn ledgers_are_sound()
    ensures sound { AlwaysSound }
    ensures idle { IdleCalls }
{}
