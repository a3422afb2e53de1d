//! An enquiry answered.
ghost use Rattle.std.specs.Prelude.{◌≡◌, ◌≤◌, length, take};
ghost use Rattle.model.specs.Asking.{Asked};
ghost use Rattle.engine.specs.Worlds.{world_of};

use crate::trace::trace;
use book::Book;
use engine::{Product, SearchTables};
use labels::Label;
use model::{Enquiry, Found, Leg, Refusal};
use rules::Rule;

/// So many rows of the label table, from the first on.
fn first_rows<'t>(tables: &'t SearchTables<'_>, count: usize) -> &'t [Option<Label>]
    requires { count ≤ length tables.now.labels.now }
    ensures { result.now ≡ take count tables.now.labels.now }
{
    &tables.labels[..count]
}

/// The journey that answers the enquiry: its arrival and number of legs, and its legs in the first rows of the slip. The label table needs a
/// row for each stop and state, and the queue a slot for each arc and state and one more.
pub fn ask<B: Book, R: Rule>(
    product: &Product<'_, B, R>,
    enquiry: Enquiry,
    tables: &mut SearchTables<'_>,
    slip: &mut [Leg],
) -> Result<Found, Refusal>
    ensures asked { Asked product.now.network.stops (B.Book.services product.now.book.now) (world_of B.Book.answer R.Rule.automaton product.now) enquiry tables.old.labels.now tables.new.labels.now tables.old.slots.now tables.new.slots.now slip.old slip.new result }
    ensures same_tables { (tables.new.labels.ghost_name ≡ tables.old.labels.ghost_name) × (tables.new.slots.ghost_name ≡ tables.old.slots.ghost_name) }
{
    let Some(reached) = product.search(enquiry, tables)? else {
        return Err(Refusal::NoJourney);
    };
    if slip.len() < reached.label.legs as usize {
        return Err(Refusal::RowsShort);
    }
    let states = product.rule.states();
    let rows = product.network.stops() as usize * states as usize;
    trace(
        product.network.arcs(),
        first_rows(tables, rows),
        states,
        enquiry.target,
        reached,
        slip,
    );
    Ok(Found {
        arrival: reached.label.second,
        legs: reached.label.legs,
    })
}
