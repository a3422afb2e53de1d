//! A script and asks, played.
ghost use Rattle.std.specs.Prelude.{◌≡◌, [], ◌∷◌, None, Ok, IfOk};
ghost use Rattle.scripts.specs.Balances.{Balanced};

use crate::asks::{Calls, make_asks};
use book::{Book, Either};
use network::Network;
use planner::Planner;
use rules::Rule;
use scripts::{Unspent, run_out};
use search::SearchTables;
use std::alloc::{AllocError, Global};
use workspace::SearchSpace;

/// Runs the script, and makes the asks once the bulletins that are out at its end are torn up.
fn play<B: Book, R: Rule>(
    network: Network,
    planners: &mut [Planner<B, R>],
    tables: &mut SearchTables<'_>,
    calls: &mut Calls,
) -> Result<(), Unspent>
    ensures kept { (calls.new.rows ≡ calls.old.rows) × (calls.new.slots ≡ calls.old.slots) × (calls.new.mark ≡ calls.old.mark) }
    ensures spent { Balanced planners.old (None ∷ None ∷ []) → result ≡ Ok tt }
{
    let played = run_out(network, planners, tables, calls.script.as_mut_slice());
    make_asks(network, planners, tables, calls.asks.as_mut_slice());
    played
}

/// Two planners by one rule over these books, which may be of two types.
fn new_planners<A: Book + Drop, B: Book + Drop, R: Rule + Copy>(
    heap: Global,
    one: A,
    other: B,
    rule: R,
    calls: &Calls,
) -> Result<Vec<Planner<Either<A, B>, R>>, AllocError>
    ensures { IfOk result (λ planners. Balanced planners.items (None ∷ None ∷ [])) }
{
    let mut planners = Vec::new(heap);
    planners.push(Planner::new(Either::Left(one), rule, calls.mark))?;
    planners.push(Planner::new(Either::Right(other), rule, calls.other_mark))?;
    Ok(planners)
}

/// Plays the calls over two planners by one rule, and writes into each call what came of it. It fails for want of memory alone: every
/// bulletin that is out at the script's end is taken in.
pub fn play_two<A: Book + Drop, B: Book + Drop, R: Rule + Copy>(
    heap: Global,
    network: Network,
    one: A,
    other: B,
    rule: R,
    calls: &mut Calls,
) -> Result<(), AllocError>
    ensures kept { (calls.new.rows ≡ calls.old.rows) × (calls.new.slots ≡ calls.old.slots) × (calls.new.mark ≡ calls.old.mark) }
{
    let mut space = SearchSpace::new(heap, calls.rows, calls.slots)?;
    let mut planners = new_planners(heap, one, other, rule, calls)?;
    match play(network, planners.as_mut_slice(), &mut space.lend(), calls) {
        Ok(()) => Ok(()),
        Err(Unspent(_first, _second)) => unreachable(),
    }
}
