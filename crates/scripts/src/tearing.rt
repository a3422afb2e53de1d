//! A script's end, where the bulletins that are out are torn up.
ghost use Rattle.std.specs.Prelude.{◌≡◌, [], ◌∷◌, length, None, Ok, Option};
ghost use Rattle.labels.specs.declared.label.Label.{Label};
ghost use Rattle.engine.specs.declared.entry.Entry.{Entry};
ghost use Rattle.scripts.specs.Scripts.{SameTables, ground_of};
ghost use Rattle.scripts.specs.Balances.{Balanced, ToreUp, ToreUpAt};
ghost use Rattle.scripts.specs.Endings.{RanOut, left_over};

use crate::running::run;
use crate::step::Step;
use book::Book;
use network::Network;
use planner::{Bulletin, Planner, Returned};
use rules::Rule;
use search::SearchTables;

/// The bulletins of two slots that no planner took in, which can be neither dropped nor forgotten.
pub struct Unspent(pub Option<Bulletin>, pub Option<Bulletin>);

/// Tears up the bulletin of a slot at a planner, and gives back what the planner does not take in.
fn tear_up_at<B: Book, R>(planner: &mut Planner<B, R>, held: Option<Bulletin>) -> Option<Bulletin>
    ensures { ToreUpAt planner.old planner.new held result }
{
    let Returned {
        refusal: _,
        bulletin,
    } = planner.tear_up(held?).err()?;
    Some(bulletin)
}

/// Tears up the bulletin of a slot at whichever planner takes it in.
fn tear_up<B: Book, R>(planners: &mut [Planner<B, R>], held: Option<Bulletin>) -> Option<Bulletin>
    ensures { ToreUp planners.old planners.new held result }
{
    let mut left = held;
    for planner in planners.iter_mut() {
        left = tear_up_at(planner, left);
    }
    left
}

/// Fails with the bulletins that are left, if there are any.
fn none_left(first: Option<Bulletin>, second: Option<Bulletin>) -> Result<(), Unspent>
    ensures { result ≡ left_over first second }
{
    match (first, second) {
        (None, None) => Ok(()),
        (first, second) => Err(Unspent(first, second)),
    }
}

/// Runs a script with two slots for bulletins, and tears up those that are out at its end. Where the planners have no drafts before, none
/// is left.
pub fn run_out<B: Book, R: Rule>(
    network: Network,
    planners: &mut [Planner<B, R>],
    tables: &mut SearchTables<'_>,
    script: &mut [Step],
) -> Result<(), Unspent>
    ensures ran { RanOut (Option Label) Entry B.Book.services B.Book.answer R.Rule.automaton (ground_of network.entry.stops network.entry.arcs.now (length tables.old.labels.now) (length tables.old.slots.now)) planners.old script.old planners.new script.new result }
    ensures same_tables { SameTables tables.old tables.new }
    ensures spent { Balanced planners.old (None ∷ None ∷ []) → result ≡ Ok tt }
{
    let mut bulletins = [None, None];
    run(network, planners, &mut bulletins, tables, script);
    let [first, second] = bulletins;
    let first = tear_up(planners, first);
    let second = tear_up(planners, second);
    none_left(first, second)
}
