//! The calls of a trial drawn.
ghost use Rattle.std.specs.Prelude.{◌≡◌, IfOk};

use crate::script::{blank_leg, draw_enquiry, draw_script};
use crate::town::Town;
use chance::Dice;
use model::Enquiry;
use plain::PlainRule;
use scripts::Reply;
use stage::{Ask, Calls};
use std::alloc::{AllocError, Global};

const MARK: u32 = 7;

/// As much room as is needed, or one less, or more.
fn draw_room(dice: &mut Dice, needed: usize) -> usize {
    // by the faces of a die: how many of them a case has is its chance
    match dice.below(16) {
        0 => needed.saturating_sub(1),
        1 => needed.saturating_add(3),
        _ => needed,
    }
}

/// Asks of both planners from one stop to every stop, with slips of up to four rows.
fn draw_asks(heap: Global, dice: &mut Dice, town: &Town) -> Result<Vec<Ask>, AllocError> {
    let mut asks = Vec::new(heap);
    let enquiry = draw_enquiry(dice, town);
    for planner in 0..2 {
        for target in 0..town.stops {
            let rows = dice.below(5) as usize;
            asks.push(Ask {
                planner,
                enquiry: Enquiry { target, ..enquiry },
                slip: vec![in heap; blank_leg(); rows]?,
                reply: Reply::Idle,
            })?;
        }
    }
    Ok(asks)
}

/// A script over two planners, which now and then have the same mark, and asks after it.
pub fn draw_calls(
    heap: Global,
    dice: &mut Dice,
    town: &Town,
    rule: &PlainRule,
) -> Result<Calls, AllocError>
    ensures { IfOk result (λ calls. calls.mark ≡ 7) }
{
    let states = rule.states() as usize;
    let rows = (town.stops as usize).saturating_mul(states);
    let slots = town.arcs.len().saturating_mul(states).saturating_add(1);
    let other_mark = if dice.once_in(8) { MARK } else { MARK + 1 };
    Ok(Calls {
        mark: MARK,
        other_mark,
        rows: draw_room(dice, rows),
        slots: draw_room(dice, slots),
        script: draw_script(heap, dice, town)?,
        asks: draw_asks(heap, dice, town)?,
    })
}
