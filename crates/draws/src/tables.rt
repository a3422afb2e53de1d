//! Books drawn.
use chance::Dice;
use model::{Connection, HORIZON, Point, Span};
use plain::Tables;
use std::alloc::{AllocError, Global};

/// A walk of 0 to 3 seconds, most often of none.
fn draw_walk(dice: &mut Dice) -> u32 {
    dice.below(5).saturating_sub(1)
}

/// Adds a service of 2 to 4 connections from a second on; several may depart together, and a later one may arrive sooner.
fn draw_timetable(dice: &mut Dice, from: u32, tables: &mut Tables) -> Result<(), AllocError> {
    let start = tables.connections.len();
    let mut departure = from;
    for _ in 0..dice.below(3).saturating_add(2) {
        departure = departure.saturating_add(dice.below(3)).min(HORIZON);
        let arrival = departure.saturating_add(dice.below(4)).min(HORIZON);
        tables.connections.push(Connection { departure, arrival })?;
    }
    let len = tables.connections.len().saturating_sub(start);
    tables.timetables.push(Span { start, len })?;
    Ok(())
}

/// Adds a service of 1 to 3 points from a second on. Arrivals never fall, so that travel times often do.
fn draw_road(dice: &mut Dice, from: u32, tables: &mut Tables) -> Result<(), AllocError> {
    let start = tables.points.len();
    let mut second = from;
    let mut arrival = from;
    for _ in 0..dice.below(3).saturating_add(1) {
        second = second.saturating_add(dice.below(3)).saturating_add(1);
        arrival = arrival
            .max(second)
            .saturating_add(dice.below(4))
            .min(HORIZON);
        if second <= HORIZON {
            let travel = arrival.saturating_sub(second);
            tables.points.push(Point { second, travel })?;
        }
    }
    let len = tables.points.len().saturating_sub(start);
    tables.roads.push(Span { start, len })?;
    Ok(())
}

/// A book of so many walks of 0, 1, 2 seconds and so on, then of so many others and one to three more; and of one or two timetables and roads, whose
/// rows lie from a second on.
pub(crate) fn draw_tables(
    heap: Global,
    dice: &mut Dice,
    rising: u32,
    walks: u32,
    from: u32,
) -> Result<Tables, AllocError> {
    let mut tables = Tables {
        walks: Vec::new(heap),
        connections: Vec::new(heap),
        timetables: Vec::new(heap),
        points: Vec::new(heap),
        roads: Vec::new(heap),
    };
    for time in 0..rising {
        tables.walks.push(time)?;
    }
    for _ in 0..dice.below(3).saturating_add(1).saturating_add(walks) {
        tables.walks.push(draw_walk(dice))?;
    }
    for _ in 0..dice.below(2).saturating_add(1) {
        draw_timetable(dice, from, &mut tables)?;
        draw_road(dice, from, &mut tables)?;
    }
    Ok(tables)
}
