//! A network with two books.
ghost use Rattle.std.specs.Prelude.{◌≤◌, IfOk};

use crate::tables::draw_tables;
use chance::Dice;
use model::{Arc, HORIZON, LABELS};
use plain::Tables;
use std::alloc::{AllocError, Global};

/// Seconds lie from the first second on, or so close before the horizon that some things come too late.
const CLOSE: u32 = 6;

/// So many services that there can be 64 notices and more services.
const MANY: u32 = 66;

/// Arcs have services below this number.
const MOST_SHARED: usize = 9;

/// Stops and arcs, and the books of two planners.
#[derive(Drop)]
pub struct Town {
    pub stops: u32,
    pub arcs: Vec<Arc>,
    pub one: Tables,
    pub other: Tables,
    /// The first second at which something happens.
    pub from: u32,
    /// The arcs' services are below this number; now and then the last of them is not in both books.
    pub services: u32,
    /// Whether the books have so many services that notices can run out.
    pub large: bool,
}

/// The number of stops: 2 to 6.
fn draw_stops(dice: &mut Dice) -> u32
    ensures { (2 ≤ result) × (result ≤ 6) }
{
    dice.below(5).saturating_add(2)
}

/// The number of heads that a stop has arcs to: one or two, and none now and then.
fn draw_degree(dice: &mut Dice) -> u32 {
    if dice.once_in(6) {
        0
    } else {
        dice.below(2).saturating_add(1)
    }
}

/// The next stop or any, the same one too.
fn draw_head(dice: &mut Dice, stops: u32, tail: u32) -> u32 {
    let next = tail.saturating_add(1);
    if next < stops && dice.once_in(2) {
        next
    } else {
        dice.below(stops)
    }
}

/// The arcs out of each stop in turn. Often two go side by side by the same service, under labels of their own.
fn draw_arcs(
    heap: Global,
    dice: &mut Dice,
    stops: u32,
    services: u32,
) -> Result<Vec<Arc>, AllocError> {
    let mut arcs = Vec::new(heap);
    for tail in 0..stops {
        for _ in 0..draw_degree(dice) {
            let head = draw_head(dice, stops, tail);
            let service = dice.below(services);
            for _ in 0..dice.below(3).max(1) {
                arcs.push(Arc::new(tail, head, dice.below(LABELS), service))?;
            }
        }
    }
    Ok(arcs)
}

/// From stop 0 to stop 4 a way of three arcs, the first two of which take no seconds, and one of two arcs, the second of which is come to later: by walks of
/// 0, 1 and 2 seconds both arrive together.
fn draw_diamond(heap: Global, dice: &mut Dice) -> Result<Vec<Arc>, AllocError> {
    let mut arcs = Vec::new(heap);
    for (tail, head, service) in [(0, 1, 0), (0, 3, 1), (1, 2, 0), (2, 4, 2), (3, 4, 1)] {
        arcs.push(Arc::new(tail, head, dice.below(LABELS), service))?;
    }
    Ok(arcs)
}

/// The arcs of a town, which may be a diamond.
fn draw_streets(
    heap: Global,
    dice: &mut Dice,
    diamond: bool,
    stops: u32,
    services: u32,
) -> Result<Vec<Arc>, AllocError> {
    if diamond {
        draw_diamond(heap, dice)
    } else {
        draw_arcs(heap, dice, stops, services)
    }
}

/// A town of 2 to 6 stops; now and then a diamond.
pub fn draw_town(heap: Global, dice: &mut Dice) -> Result<Town, AllocError>
    ensures { IfOk result (λ town. (2 ≤ town.stops) × (town.stops ≤ 6)) }
{
    let diamond = dice.once_in(16);
    let stops = if diamond { 5 } else { draw_stops(dice) };
    let from = if dice.once_in(8) { HORIZON - CLOSE } else { 0 };
    let large = dice.once_in(24);
    let walks = if large { MANY } else { 0 };
    let rising = if diamond { 3 } else { 0 };
    let one = draw_tables(heap, dice, rising, walks, from)?;
    let other = draw_tables(heap, dice, rising, walks, from)?;
    let shared = one.count().min(other.count()).min(MOST_SHARED) as u32;
    let services = if dice.once_in(16) {
        shared.saturating_add(1)
    } else {
        shared
    };
    let arcs = draw_streets(heap, dice, diamond, stops, services)?;
    Ok(Town {
        stops,
        arcs,
        one,
        other,
        from,
        services,
        large,
    })
}
