//! Enquiries over files, answered into a table of numbers.
ghost use Rattle.std.specs.Prelude.{◌≤◌, length, IfSome};

use crate::tables::{ask_sizes, file_rows};
use book::Book;
use contents::{FileContents, lay_book, lay_network, read_rule};
use model::{Enquiry, Found, Leg, Refusal};
use network::Network;
use planner::Planner;
use rules::{Pair, Rule, TableRule};
use std::alloc::Global;
use workspace::AskTables;

/// The mark of the run's one planner.
const MARK: u32 = 0;

/// The numbers of an enquiry, and of each row of an answer.
const ROW: usize = 3;

/// Puts a row at the front of a table if it has room for it, and gives how many numbers were put.
fn put_row(table: &mut [u32], row: [u32; ROW]) -> usize
    ensures { result ≤ length table.old }
{
    if table.len() < ROW {
        return 0;
    }
    table[..ROW].copy_from_slice(&row);
    ROW
}

/// Puts an answer at the front of a table: 0, the arrival and the number of legs, then each leg's arc, second of coming and arrival;
/// or the refusal's number and two zeros. Gives how many numbers were put: rows past the table's end are not.
fn put_answer(table: &mut [u32], answered: Result<Found, Refusal>, slip: &[Leg]) -> usize
    ensures { result ≤ length table.old }
{
    match answered {
        Ok(found) => {
            let mut len = put_row(table, [0, found.arrival, found.legs]);
            let legs = slip.len().min(found.legs as usize);
            for leg in &slip[..legs] {
                len += put_row(&mut table[len..], [leg.arc, leg.entered, leg.arrived]);
            }
            len
        }
        Err(refusal) => put_row(table, [refusal.number() as u32, 0, 0]),
    }
}

/// Asks each enquiry once and puts the answers one after the other; gives how many numbers they are.
fn ask_all<B: Book, R: Rule>(
    planner: &Planner<B, R>,
    network: Network,
    enquiries: &[u32],
    tables: &mut AskTables,
    answers: &mut [u32],
) -> usize
    ensures { result ≤ length answers.old }
{
    let mut len = 0;
    for enquiry in enquiries.chunks_exact(ROW) {
        let enquiry = Enquiry {
            start: enquiry[0],
            target: enquiry[1],
            second: enquiry[2],
        };
        let answered = planner.ask(
            network,
            enquiry,
            &mut tables.space.lend(),
            tables.slip.as_mut_slice(),
        );
        len += put_answer(&mut answers[len..], answered, tables.slip.as_slice());
    }
    len
}

/// The pair of two rule files that stand one after the other.
fn read_pair(file: &[u8]) -> Option<Pair<TableRule, TableRule>> {
    let (first, end) = read_rule(file, 0).ok()?;
    let (second, _) = read_rule(file, end).ok()?;
    Some(Pair::new(first, second))
}

/// Loads the files and asks so many times; none where a file is at fault or there is no memory.
fn ask_rounds(
    heap: Global,
    network: &[u8],
    rules: &[u8],
    enquiries: &[u32],
    rounds: u32,
    answers: &mut [u32],
) -> Option<usize>
    ensures { IfSome result (λ n. n ≤ length answers.old) }
{
    let mut tables = FileContents::new(heap, file_rows(network.len())).ok()?;
    let counts = tables.load(network).ok()?.counts;
    let rule = read_pair(rules)?;
    let book = lay_book(&tables, counts).ok()?;
    let network = lay_network(&tables, counts).ok()?;
    let mut lent = AskTables::new(heap, ask_sizes(rule.states(), counts)).ok()?;
    let planner = Planner::new(book, rule, MARK);
    let mut len = 0;
    for _ in 0..rounds {
        len = ask_all(&planner, network, enquiries, &mut lent, answers);
    }
    Some(len)
}

/// Loads a network file and the pair of two rule files, asks each enquiry (start, target and second) so many times, and puts
/// the last round's answers into a table of numbers; gives how many these are, and 0 where a file is at fault or there is no memory.
#[unsafe(no_mangle)]
pub extern "C" fn nulambitra_answers(
    heap: Global,
    network: &[u8],
    rules: &[u8],
    enquiries: &[u32],
    rounds: u32,
    answers: &mut [u32],
) -> usize
    ensures { result ≤ length answers.old }
{
    ask_rounds(heap, network, rules, enquiries, rounds, answers).unwrap_or(0)
}
