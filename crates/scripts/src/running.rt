//! Running a script.
ghost use Rattle.std.specs.Prelude.{◌≡◌, length, Some, None, Option};
ghost use Rattle.labels.specs.declared.label.Label.{Label};
ghost use Rattle.engine.specs.declared.entry.Entry.{Entry};
ghost use Rattle.scripts.specs.declared.step.Reply.TheVariants.{Opened, Shown};
ghost use Rattle.scripts.specs.Scripts.{told, back, marked, handed, Changed, ChangedAt, Performed, Ran, TablesAfter, SameTables, TablesKept, ground_of};
ghost use Rattle.scripts.specs.Balances.{Balanced, SlotsBalance};

use crate::step::{Action, Change, Reply, Step};
use book::Book;
use model::Refusal;
use network::Network;
use planner::{Bulletin, Planner, Returned};
use rules::Rule;
use search::SearchTables;

/// What came of an opening, and its bulletin.
fn opened(answer: Result<Bulletin, Refusal>) -> (Reply, Option<Bulletin>)
    ensures { result ≡ (Opened (marked answer), handed answer) }
{
    // a match, as the bulletin is moved into the pair beside its mark
    match answer {
        Ok(bulletin) => (Reply::Opened(Ok(bulletin.mark())), Some(bulletin)),
        Err(refusal) => (Reply::Opened(Err(refusal)), None),
    }
}

/// What came of spending a bulletin of that mark, and the bulletin where it came back.
fn spent(mark: u32, answer: Result<(), Returned>) -> (Reply, Option<Bulletin>)
    ensures { result ≡ (Shown mark (told answer), back answer) }
{
    // a match, as the bulletin is moved out of the error beside its refusal
    match answer {
        Ok(()) => (Reply::Shown(mark, Ok(())), None),
        Err(Returned { refusal, bulletin }) => (Reply::Shown(mark, Err(refusal)), Some(bulletin)),
    }
}

/// Makes a change with a bulletin, and says what came of it and what the slot holds then.
fn show<B: Book, R>(
    planner: &mut Planner<B, R>,
    bulletin: Bulletin,
    change: Change,
) -> (Reply, Option<Bulletin>)
    ensures { Changed B.Book.services change (Some bulletin) result.1 result.0 planner.old planner.new }
{
    let mark = bulletin.mark();
    match change {
        Change::Open => (Reply::Idle, Some(bulletin)),
        Change::Put(notice) => {
            let answer = planner.put(&bulletin, notice);
            (Reply::Shown(mark, answer), Some(bulletin))
        }
        Change::Lift(service) => {
            let answer = planner.lift(&bulletin, service);
            (Reply::Shown(mark, answer), Some(bulletin))
        }
        Change::Issue => spent(mark, planner.issue(bulletin)),
        Change::TearUp => spent(mark, planner.tear_up(bulletin)),
    }
}

/// Makes a change with what a slot holds, and says what came of it and what the slot holds then.
fn change_held<B: Book, R>(
    planner: &mut Planner<B, R>,
    held: Option<Bulletin>,
    change: Change,
) -> (Reply, Option<Bulletin>)
    ensures { Changed B.Book.services change held result.1 result.0 planner.old planner.new }
{
    match held {
        Some(bulletin) => show(planner, bulletin, change),
        None => match change {
            Change::Open => opened(planner.open()),
            Change::Put(_) | Change::Lift(_) | Change::Issue | Change::TearUp => {
                (Reply::Idle, None)
            }
        },
    }
}

/// Lays what there is into an empty slot.
fn lay(slot: &mut Option<Bulletin>, held: Option<Bulletin>)
    requires { slot.old ≡ None }
    ensures { slot.new ≡ held }
{
    if let Some(bulletin) = held {
        match slot.replace(bulletin) {
            None => {}
            Some(_) => unreachable(),
        }
    }
}

/// Makes a change with the bulletin in a slot.
fn change_at<B: Book, R>(
    planner: &mut Planner<B, R>,
    bulletins: &mut [Option<Bulletin>],
    slot: usize,
    change: Change,
) -> Reply
    ensures changed { ChangedAt B.Book.services slot change bulletins.old bulletins.new result planner.old planner.new }
    ensures balance { SlotsBalance planner.old planner.new bulletins.old bulletins.new }
{
    // by index, as a proof knows of a slice after its `get_mut` no more than the length
    if slot >= bulletins.len() {
        return Reply::Idle;
    }
    let held = bulletins[slot].take();
    let (reply, held) = change_held(planner, held, change);
    lay(&mut bulletins[slot], held);
    reply
}

/// Makes one step; at a planner that is not there it does nothing.
fn perform<B: Book, R: Rule>(
    network: Network,
    planners: &mut [Planner<B, R>],
    bulletins: &mut [Option<Bulletin>],
    tables: &mut SearchTables<'_>,
    step: &mut Step,
)
    ensures steps { Performed (Option Label) Entry B.Book.services B.Book.answer R.Rule.automaton (ground_of network.entry.stops network.entry.arcs.now (length tables.old.labels.now) (length tables.old.slots.now)) planners.old bulletins.old step.old planners.new bulletins.new step.new }
    ensures tables { TablesAfter step.new.reply tables.old.labels.now tables.new.labels.now tables.old.slots.now tables.new.slots.now }
    ensures same_tables { SameTables tables.old tables.new }
    ensures balanced { Balanced planners.old bulletins.old → Balanced planners.new bulletins.new }
{
    let at = step.planner;
    // by index, as a proof knows of a slice after its `get_mut` no more than the length
    if at >= planners.len() {
        step.reply = Reply::Idle;
        return;
    }
    match step.action {
        Action::Ask(enquiry) => {
            let result = planners[at].ask(network, enquiry, tables, &mut step.slip);
            step.reply = Reply::Asked(result);
        }
        Action::Change(slot, change) => {
            step.reply = change_at(&mut planners[at], bulletins, slot, change);
        }
    }
}

/// Makes the steps of a script one after the other, each at its planner, and writes into each what came of it. The bulletins that are
/// out lie in the slots meanwhile.
pub fn run<B: Book, R: Rule>(
    network: Network,
    planners: &mut [Planner<B, R>],
    bulletins: &mut [Option<Bulletin>],
    tables: &mut SearchTables<'_>,
    script: &mut [Step],
)
    ensures steps { Ran (Option Label) Entry B.Book.services B.Book.answer R.Rule.automaton (ground_of network.entry.stops network.entry.arcs.now (length tables.old.labels.now) (length tables.old.slots.now)) planners.old bulletins.old script.old planners.new bulletins.new script.new }
    ensures tables { TablesKept script.new (length script.new) tables.old.labels.now tables.new.labels.now tables.old.slots.now tables.new.slots.now }
    ensures same_tables { SameTables tables.old tables.new }
    ensures balanced { Balanced planners.old bulletins.old → Balanced planners.new bulletins.new }
{
    for step in script.iter_mut() {
        perform(network, planners, bulletins, tables, step);
    }
}
