//! The script.
use model::{Enquiry, Leg};
use notices::Notice;
use scripts::{Action, Change, Step};
use std::alloc::{AllocError, Global};

/// The planner over walks and a timetable, and the slot of its bulletin.
const FIRST: usize = 0;

/// The planner over walks alone, and the slot of its bulletin.
const SECOND: usize = 1;

/// The service from stop 1 to stop 3: a bus of the first planner, a walk of the second.
const LAST_LEG: u32 = 3;

/// A service that neither book has.
const NO_SERVICE: u32 = 4;

/// A step that has not been made.
fn step(planner: usize, action: Action) -> Step {
    Step::new(planner, action, Leg::default())
}

/// The enquiry that every ask of the script makes.
fn ask(planner: usize) -> Step {
    let enquiry = Enquiry {
        start: 0,
        target: 3,
        second: 0,
    };
    step(planner, Action::Ask(enquiry))
}

/// A change with the bulletin in the planner's own slot.
fn change(planner: usize, change: Change) -> Step {
    step(planner, Action::Change(planner, change))
}

/// Ten minutes late.
fn late(service: u32) -> Notice {
    Notice {
        service,
        lateness: 600,
        ..Notice::default()
    }
}

/// Shut for the first two hours.
fn shut(service: u32) -> Notice {
    Notice {
        service,
        until: 7_200,
        ..Notice::default()
    }
}

/// Both planners are asked, and the first drafts a lateness.
fn draft_lateness(script: &mut Vec<Step>) -> Result<(), AllocError> {
    script.push(ask(FIRST))?;
    script.push(ask(SECOND))?;
    script.push(change(FIRST, Change::Open))?;
    script.push(change(FIRST, Change::Put(late(LAST_LEG))))?;
    // the draft does not count yet
    script.push(ask(FIRST))?;
    script.push(change(FIRST, Change::Put(late(NO_SERVICE))))?;
    // into the other slot, which is empty: the planner has a draft already
    script.push(step(FIRST, Action::Change(SECOND, Change::Open)))?;
    Ok(())
}

/// The second opens a draft and is shown the first's bulletin; the first issues its draft.
fn issue_lateness(script: &mut Vec<Step>) -> Result<(), AllocError> {
    script.push(change(SECOND, Change::Open))?;
    script.push(step(SECOND, Action::Change(FIRST, Change::Lift(LAST_LEG))))?;
    script.push(change(FIRST, Change::Issue))?;
    script.push(ask(FIRST))?;
    Ok(())
}

/// The second drafts a shutting, lifts it and tears its draft up.
fn tear_up_shutting(script: &mut Vec<Step>) -> Result<(), AllocError> {
    script.push(change(SECOND, Change::Put(shut(LAST_LEG))))?;
    script.push(change(SECOND, Change::Lift(LAST_LEG)))?;
    script.push(change(SECOND, Change::Lift(LAST_LEG)))?;
    script.push(change(SECOND, Change::TearUp))?;
    script.push(ask(SECOND))?;
    Ok(())
}

/// The steps over both planners, none of them made.
pub fn new_script(heap: Global) -> Result<Vec<Step>, AllocError> {
    let mut script = Vec::new(heap);
    draft_lateness(&mut script)?;
    issue_lateness(&mut script)?;
    tear_up_shutting(&mut script)?;
    Ok(script)
}
