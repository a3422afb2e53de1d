//! Asks with slips of any length.
use book::Book;
use model::{Enquiry, Leg};
use network::Network;
use planner::Planner;
use rules::Rule;
use scripts::{Reply, Step};
use search::SearchTables;

/// An ask of a planner, with a slip of its own, and what came of it.
#[derive(Drop)]
pub struct Ask {
    pub planner: usize,
    pub enquiry: Enquiry,
    pub slip: Vec<Leg>,
    pub reply: Reply,
}

/// The calls of a trial: a script over two planners of these marks, then asks; and the rows and slots that all asks are lent.
#[derive(Drop)]
pub struct Calls {
    pub mark: u32,
    pub other_mark: u32,
    pub rows: usize,
    pub slots: usize,
    pub script: Vec<Step>,
    pub asks: Vec<Ask>,
}

/// Asks each enquiry of its planner, where there is one.
pub(crate) fn make_asks<B: Book, R: Rule>(
    network: Network,
    planners: &[Planner<B, R>],
    tables: &mut SearchTables<'_>,
    asks: &mut [Ask],
) {
    for ask in asks.iter_mut() {
        if let Some(planner) = planners.get(ask.planner) {
            let answer = planner.ask(network, ask.enquiry, tables, ask.slip.as_mut_slice());
            ask.reply = Reply::Asked(answer);
        }
    }
}
