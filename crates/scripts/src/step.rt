//! The steps of a script.
ghost use Rattle.std.specs.Prelude.{◌≡◌, replicate};
ghost use Rattle.scripts.specs.declared.step.Reply.TheVariants.{Idle};

use model::{Enquiry, Found, Leg, Refusal};
use notices::Notice;

/// What a step does with the bulletin in its slot: opening lays one into an empty slot, the others show or spend the one that lies there.
#[derive(Clone, Copy, Debug, Drop, PartialEq, Eq)]
pub enum Change {
    Open,
    Put(Notice),
    Lift(u32),
    Issue,
    TearUp,
}

/// What a step asks for.
#[derive(Clone, Copy, Debug, Drop, PartialEq, Eq)]
pub enum Action {
    Ask(Enquiry),
    Change(usize, Change),
}

/// What came of a step.
#[derive(Clone, Copy, Debug, Default, Drop, PartialEq, Eq)]
pub enum Reply {
    /// No call was made: there is no such planner or slot, no bulletin to show, or no room for one.
    #[default]
    Idle,
    /// The answer of an ask.
    Asked(Result<Found, Refusal>),
    /// The answer of an opening: the mark of the bulletin that lies in the slot.
    Opened(Result<u32, Refusal>),
    /// The mark that was shown, and the answer.
    Shown(u32, Result<(), Refusal>),
}

/// The rows of a step's slip.
pub const SLIP_ROWS: usize = 64;

/// One step: the planner's index, what is asked for, what came of it, and the slip for an ask's legs.
#[derive(Clone, Copy, Drop)]
pub struct Step {
    pub planner: usize,
    pub action: Action,
    pub reply: Reply,
    pub slip: [Leg; SLIP_ROWS],
}

impl Step {
    /// A step that has not been made, with these rows in its slip.
    pub fn new(planner: usize, action: Action, row: Leg) -> Step
        ensures { result ≡ record { planner = planner; action = action; reply = Idle; slip = replicate 64 row } }
    {
        Step {
            planner,
            action,
            reply: Reply::Idle,
            slip: [row; SLIP_ROWS],
        }
    }
}
