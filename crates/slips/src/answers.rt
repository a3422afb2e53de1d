//! The answers to an input's enquiries, printed one after the other.
use crate::halt::Halt;
use crate::tables::{ASK_SIZES, FILE_ROWS};
use book::Book;
use contents::{FileContents, lay_book, lay_network, read_rule};
use enquiries::Enquiries;
use lines::Slip;
use model::Enquiry;
use network::Network;
use planner::Planner;
use rules::Rule;
use std::io;
use wire::Fault;
use workspace::AskTables;

/// The mark of the run's one planner.
const MARK: u32 = 0;

/// Answers an enquiry, and prints its slip, each line by a write of its own: what several runs write to one output mixes by lines.
fn answer<B: Book, R: Rule>(
    rt: &HostRuntime,
    network: Network,
    planner: &Planner<B, R>,
    enquiry: Enquiry,
    tables: &mut AskTables,
) -> io::Result<()> {
    let answer = planner.ask(
        network,
        enquiry,
        &mut tables.space.lend(),
        tables.slip.as_mut_slice(),
    );
    let slip = Slip {
        enquiry,
        answer,
        arcs: network.arcs(),
        legs: tables.slip.as_slice(),
    };
    for line in slip.lines() {
        println!(rt; "{line}")?;
    }
    Ok(())
}

/// Answers the enquiries that stand in the input from a place on.
fn answer_enquiries<B: Book, R: Rule>(
    rt: &HostRuntime,
    network: Network,
    planner: &Planner<B, R>,
    input: &[u8],
    from: usize,
) -> Result<(), Halt> {
    let mut tables = AskTables::new(rt.alloc(), ASK_SIZES)?;
    for enquiry in Enquiries::new(input, from) {
        answer(rt, network, planner, enquiry?, &mut tables)?;
    }
    Ok(())
}

/// Reads the files at the front of the input, and answers the enquiries after them.
pub fn answer_all(rt: &HostRuntime, input: &[u8]) -> Result<(), Halt> {
    let mut tables = FileContents::new(rt.alloc(), FILE_ROWS)?;
    let loaded = tables.load(input)?;
    let (rule, enquiries) = read_rule(input, loaded.end)?;
    let at = loaded.end;
    let book = lay_book(&tables, loaded.counts).map_err(|fault| Fault {
        refusal: fault.into(),
        at,
    })?;
    let network = lay_network(&tables, loaded.counts).map_err(|fault| Fault {
        refusal: fault.into(),
        at,
    })?;
    let planner = Planner::new(book, rule, MARK);
    answer_enquiries(rt, network, &planner, input, enquiries)
}
