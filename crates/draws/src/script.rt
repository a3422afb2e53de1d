//! Scripts drawn.
ghost use Rattle.std.specs.Prelude.{◌≡◌};

use crate::town::Town;
use chance::Dice;
use model::{Enquiry, HORIZON, Leg};
use notices::Notice;
use scripts::{Action, Change, Step};
use std::alloc::{AllocError, Global};

/// What the rows of a slip hold before an ask.
pub fn blank_leg() -> Leg
    ensures { result ≡ record { arc = 77; entered = 7; arrived = 77 } }
{
    Leg {
        arc: 77,
        entered: 7,
        arrived: 77,
    }
}

/// A step that has not been made.
fn step(planner: usize, action: Action) -> Step {
    Step::new(planner, action, blank_leg())
}

/// A stop, most often another one.
fn draw_other(dice: &mut Dice, stops: u32, stop: u32) -> u32 {
    let other = dice.below(stops);
    if other == stop {
        dice.below(stops)
    } else {
        other
    }
}

/// An enquiry, now and then with a stop or a second that is not there.
pub(crate) fn draw_enquiry(dice: &mut Dice, town: &Town) -> Enquiry {
    let start = if dice.once_in(32) {
        town.stops.saturating_add(dice.below(2))
    } else {
        dice.below(town.stops)
    };
    let target = if dice.once_in(32) {
        town.stops.saturating_add(dice.below(2))
    } else {
        draw_other(dice, town.stops, start)
    };
    let second = if dice.once_in(32) {
        HORIZON.saturating_add(dice.below(2)).saturating_add(1)
    } else {
        town.from.saturating_add(dice.below(3))
    };
    Enquiry {
        start,
        target,
        second,
    }
}

/// A notice of 0 to 2 seconds' lateness or, seldom, of so many that nobody arrives; of a short shutting or none. Now and then a field is out of range.
fn draw_notice(dice: &mut Dice, town: &Town) -> Notice {
    let service = dice.below(town.services.saturating_add(1));
    // by the faces of a die: how many of them a case has is its chance
    let lateness = match dice.below(24) {
        0 => HORIZON + 1,
        1 => HORIZON,
        _ => dice.below(3),
    };
    let shut = town.from.saturating_add(dice.below(5));
    let until = if dice.once_in(24) {
        shut.saturating_sub(1)
    } else {
        shut.saturating_add(dice.below(4))
    };
    Notice {
        service,
        lateness,
        shut,
        until,
    }
}

fn draw_change(dice: &mut Dice, town: &Town) -> Change {
    // by the faces of a die: how many of them a change has is its chance
    match dice.below(12) {
        0..=2 => Change::Open,
        3..=6 => Change::Put(draw_notice(dice, town)),
        7 => Change::Lift(dice.below(town.services)),
        8..=10 => Change::Issue,
        _ => Change::TearUp,
    }
}

/// One of two, now and then the other one, and seldom one that is not there.
fn draw_index(dice: &mut Dice, usual: usize) -> usize {
    if dice.once_in(64) {
        2
    } else if dice.once_in(8) {
        1usize.saturating_sub(usual)
    } else {
        usual
    }
}

/// An ask, or a change with the bulletin of a slot.
fn draw_step(dice: &mut Dice, town: &Town) -> Step {
    let usual = dice.below(2) as usize;
    let planner = draw_index(dice, usual);
    if dice.once_in(2) {
        step(planner, Action::Ask(draw_enquiry(dice, town)))
    } else {
        step(
            planner,
            Action::Change(draw_index(dice, usual), draw_change(dice, town)),
        )
    }
}

/// Puts notices of no effect for all of the 67 services from one on, so that the last find no room.
fn flood(script: &mut Vec<Step>, from: u32) -> Result<(), AllocError> {
    script.push(step(0, Action::Change(0, Change::Open)))?;
    for service in 0..67 {
        let notice = Notice {
            service: (from.saturating_add(service)) % 67,
            lateness: service % 2,
            shut: 0,
            until: service % 3,
        };
        script.push(step(0, Action::Change(0, Change::Put(notice))))?;
    }
    Ok(())
}

/// A bulletin of two notices, opened and issued at one planner.
fn draw_bulletin(dice: &mut Dice, town: &Town, script: &mut Vec<Step>) -> Result<(), AllocError> {
    let at = dice.below(2) as usize;
    let one = draw_notice(dice, town);
    let other = draw_notice(dice, town);
    script.push(step(at, Action::Change(at, Change::Open)))?;
    script.push(step(at, Action::Change(at, Change::Put(one))))?;
    script.push(step(at, Action::Change(at, Change::Put(other))))?;
    script.push(step(at, Action::Change(at, Change::Issue)))?;
    Ok(())
}

/// A script over two planners and two slots. That of a large town puts notices until there is no room.
pub(crate) fn draw_script(
    heap: Global,
    dice: &mut Dice,
    town: &Town,
) -> Result<Vec<Step>, AllocError> {
    let mut script = Vec::new(heap);
    if town.large {
        flood(&mut script, dice.below(67))?;
    }
    for _ in 0..dice.below(16).saturating_add(12) {
        if dice.once_in(8) {
            draw_bulletin(dice, town, &mut script)?;
        }
        script.push(draw_step(dice, town))?;
    }
    Ok(script)
}
