//! What can be wrong with a rule's numbers.
ghost use Rattle.std.specs.Prelude.{◌≡◌};
ghost use Rattle.rules.specs.Faults.{refusal_of};

use model::Refusal;

/// Why a rule is refused; the index is that of the first step that leads to no state.
#[derive(Clone, Copy, Debug, Drop, PartialEq, Eq)]
pub enum RuleFault {
    StateCount,
    StepCount,
    EndCount,
    NextState(usize),
    BoardingLimit,
}

/// The refusal by which a fault is reported.
impl From<RuleFault> for Refusal {
    ghost from_gives = { λ fault refusal. refusal ≡ refusal_of fault };

    fn from(fault: RuleFault) -> Refusal {
        match fault {
            RuleFault::StateCount
            | RuleFault::StepCount
            | RuleFault::EndCount
            | RuleFault::NextState(_)
            | RuleFault::BoardingLimit => Refusal::RuleField,
        }
    }
}
