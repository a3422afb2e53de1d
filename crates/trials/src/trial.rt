//! The network, the two planners and the run.
use crate::failure::Failure;
use crate::printing::print_script;
use crate::script::new_script;
use crate::tables::Tables;
use book::Book;
use network::Network;
use rules::BoardingRule;
use stage::{Calls, play_two};

/// The mark of the planner over walks and a timetable.
const FIRST_MARK: u32 = 7;

/// The mark of the planner over walks alone.
const SECOND_MARK: u32 = 8;

const BOARDINGS: u32 = 1;

/// A label for each stop and each number of boardings.
const ROWS: usize = 8;

/// A slot for each arc and each number of boardings, and one for the start.
const SLOTS: usize = 9;

/// Plays the script over two planners of these books, and prints it.
fn play_and_print<A: Book + Drop, B: Book + Drop>(
    rt: &HostRuntime,
    network: Network,
    first: A,
    second: B,
) -> Result<(), Failure> {
    let mut calls = Calls {
        mark: FIRST_MARK,
        other_mark: SECOND_MARK,
        rows: ROWS,
        slots: SLOTS,
        script: new_script(rt.alloc())?,
        asks: Vec::new(rt.alloc()),
    };
    let rule = BoardingRule::new(BOARDINGS)?;
    play_two(rt.alloc(), network, first, second, rule, &mut calls)?;
    print_script(rt, network, calls.script.as_slice())?;
    Ok(())
}

/// Lays the network and both books, runs the script and prints it.
pub fn trial(rt: &HostRuntime) -> Result<(), Failure> {
    let tables = Tables::new();
    let network = tables.network()?;
    let bank = tables.bank()?;
    let walks = tables.other_walks()?;
    play_and_print(rt, network, bank, walks)
}
