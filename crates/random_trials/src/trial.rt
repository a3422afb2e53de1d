//! One trial.
use crate::failure::Failure;
use crate::printing::print_difference;
use book::{Bank, Book};
use books::{BookFault, Roads, Timetables, Walks};
use chance::Dice;
use contest::{Counts, judge_calls};
use draws::{Town, draw_calls, draw_rule, draw_town};
use network::Network;
use plain::{Part, PlainRule, PlainTable, Tables};
use rules::{BoardingRule, Pair, Rule, RuleFault, TableRule};
use stage::{Calls, play_two};
use std::alloc::Global;

/// The services of drawn tables: walks, then timetables, then roads.
// the order of a file's services too; but the maker in `contents` takes a file's tables and the counts of its rows, and a draw has neither
type TownBook<'a> = Bank<Bank<Walks<'a>, Timetables<'a>>, Roads<'a>>;

fn table_rule(table: &PlainTable) -> Result<TableRule, RuleFault> {
    TableRule::new(table.states, table.next.as_slice(), table.ends.as_slice())
}

/// The book over drawn tables.
fn book_over<'a>(tables: &'a Tables) -> Result<TownBook<'a>, BookFault> {
    Ok(Bank {
        first: Bank {
            first: Walks::new(tables.walks.as_slice())?,
            second: Timetables::new(tables.connections.as_slice(), tables.timetables.as_slice())?,
        },
        second: Roads::new(tables.points.as_slice(), tables.roads.as_slice())?,
    })
}

/// Plays the calls over two planners of these books.
fn play<A: Book + Drop, B: Book + Drop, R: Rule + Copy>(
    heap: Global,
    network: Network,
    one: A,
    other: B,
    rule: R,
    calls: &mut Calls,
) -> Result<(), Failure> {
    play_two(heap, network, one, other, rule, calls).map_err(|_error| Failure::Memory)
}

/// Plays the calls over two planners of these books, by the drawn rule.
fn play_by_rule<A: Book + Drop, B: Book + Drop>(
    heap: Global,
    network: Network,
    one: A,
    other: B,
    rule: &PlainRule,
    calls: &mut Calls,
) -> Result<(), Failure> {
    match (&rule.first, &rule.second) {
        (Part::Table(table), Part::Any) => {
            play(heap, network, one, other, table_rule(table)?, calls)
        }
        (Part::Boardings(most), Part::Any) => {
            play(heap, network, one, other, BoardingRule::new(*most)?, calls)
        }
        (Part::Table(table), Part::Boardings(most)) => {
            let rule = Pair::new(table_rule(table)?, BoardingRule::new(*most)?);
            play(heap, network, one, other, rule, calls)
        }
        (Part::Boardings(most), Part::Table(table)) => {
            let rule = Pair::new(BoardingRule::new(*most)?, table_rule(table)?);
            play(heap, network, one, other, rule, calls)
        }
        _ => Err(Failure::Laying),
    }
}

/// Lays the town's network and books, and plays the calls over them.
fn play_in_town(
    heap: Global,
    town: &Town,
    rule: &PlainRule,
    calls: &mut Calls,
) -> Result<(), Failure> {
    let network = Network::new(town.stops, town.arcs.as_slice())?;
    let one = book_over(&town.one)?;
    let other = book_over(&town.other)?;
    play_by_rule(heap, network, one, &other, rule, calls)
}

/// Judges the calls, and fails with what is printed of a difference.
fn report(
    rt: &HostRuntime,
    seed: u64,
    counts: &mut Counts,
    town: &Town,
    rule: &PlainRule,
    calls: &Calls,
) -> Result<(), Failure> {
    let heap = rt.alloc();
    match judge_calls(heap, counts, town, rule, calls)? {
        None => Ok(()),
        Some(difference) => {
            print_difference(rt, seed, &difference)?;
            Err(Failure::Difference)
        }
    }
}

/// Draws a trial from a seed, plays it and judges it.
pub fn make_trial(rt: &HostRuntime, seed: u64, counts: &mut Counts) -> Result<(), Failure> {
    let heap = rt.alloc();
    let mut dice = Dice::new(seed);
    let town = draw_town(heap, &mut dice)?;
    let rule = draw_rule(heap, &mut dice)?;
    let mut calls = draw_calls(heap, &mut dice, &town, &rule)?;
    play_in_town(heap, &town, &rule, &mut calls)?;
    report(rt, seed, counts, &town, &rule, &calls)
}
