//! Asks of two planners.
ghost use Rattle.std.specs.Prelude.{◌≡◌};
ghost use Rattle.planner.specs.Planners.{Planned};
ghost use Rattle.planner.specs.Alike.{SameWhereAlike};

use crate::planner::Planner;
use book::Book;
use model::{Enquiry, Found, Leg, Refusal};
use network::Network;
use rules::Rule;
use search::SearchTables;

/// Asks two planners, or one twice, the same over one network, each with its own tables and slip. Where the planners are alike in their
/// standing notices and in what their books and rules mean, two answers have the same arrival and the same legs.
pub fn ask_both<B: Book, R: Rule, C: Book, S: Rule>(
    network: Network,
    enquiry: Enquiry,
    first: &Planner<B, R>,
    first_tables: &mut SearchTables<'_>,
    first_slip: &mut [Leg],
    second: &Planner<C, S>,
    second_tables: &mut SearchTables<'_>,
    second_slip: &mut [Leg],
) -> (Result<Found, Refusal>, Result<Found, Refusal>)
    ensures first { Planned B.Book.services B.Book.answer R.Rule.automaton first.now network.entry.stops network.entry.arcs.now enquiry first_tables.old.labels.now first_tables.new.labels.now first_tables.old.slots.now first_tables.new.slots.now first_slip.old first_slip.new result.0 }
    ensures second { Planned C.Book.services C.Book.answer S.Rule.automaton second.now network.entry.stops network.entry.arcs.now enquiry second_tables.old.labels.now second_tables.new.labels.now second_tables.old.slots.now second_tables.new.slots.now second_slip.old second_slip.new result.1 }
    ensures first_same { (first_tables.new.labels.ghost_name ≡ first_tables.old.labels.ghost_name) × (first_tables.new.slots.ghost_name ≡ first_tables.old.slots.ghost_name) }
    ensures second_same { (second_tables.new.labels.ghost_name ≡ second_tables.old.labels.ghost_name) × (second_tables.new.slots.ghost_name ≡ second_tables.old.slots.ghost_name) }
    ensures alike { SameWhereAlike B.Book.answer R.Rule.automaton C.Book.answer S.Rule.automaton first.now second.now first_slip.new second_slip.new result.0 result.1 }
{
    let one = first.ask(network, enquiry, first_tables, first_slip);
    let other = second.ask(network, enquiry, second_tables, second_slip);
    (one, other)
}
