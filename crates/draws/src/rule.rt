//! Rules drawn.
use chance::Dice;
use model::LABELS;
use plain::{Part, PlainRule, PlainTable};
use std::alloc::{AllocError, Global};

/// A table of so many states, most steps of which lead on, and two thirds of whose states are ends, a single one always.
fn draw_table(heap: Global, dice: &mut Dice, states: u32) -> Result<Part, AllocError> {
    let mut next = Vec::new(heap);
    let mut ends = Vec::new(heap);
    for _ in 0..states {
        for _ in 0..LABELS {
            next.push(if dice.once_in(8) {
                None
            } else {
                Some(dice.below(states))
            })?;
        }
        ends.push(states == 1 || !dice.once_in(3))?;
    }
    Ok(Part::Table(PlainTable { states, next, ends }))
}

/// A table of 1 to 3 states, often of one.
fn draw_small_table(heap: Global, dice: &mut Dice) -> Result<Part, AllocError> {
    let states = dice.below(4).saturating_sub(1).saturating_add(1);
    draw_table(heap, dice, states)
}

/// A table rule, a boarding rule, or a pair of both in either order, which now and then has too many states.
pub fn draw_rule(heap: Global, dice: &mut Dice) -> Result<PlainRule, AllocError> {
    // by the faces of a die: how many of them a kind has is its chance
    match dice.below(12) {
        0..=4 => Ok(PlainRule {
            first: draw_small_table(heap, dice)?,
            second: Part::Any,
        }),
        5 | 6 => Ok(PlainRule {
            first: Part::Boardings(dice.below(3)),
            second: Part::Any,
        }),
        7 | 8 => Ok(PlainRule {
            first: draw_small_table(heap, dice)?,
            second: Part::Boardings(dice.below(2)),
        }),
        9 | 10 => Ok(PlainRule {
            first: Part::Boardings(dice.below(2)),
            second: draw_small_table(heap, dice)?,
        }),
        _ => Ok(PlainRule {
            first: draw_table(heap, dice, 5)?,
            second: Part::Boardings(dice.below(4).saturating_add(12)),
        }),
    }
}
