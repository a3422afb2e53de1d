//! A trial judged.
use crate::asks::{Difference, Made, judge_ask};
use crate::counts::Counts;
use clerk::Clerk;
use draws::Town;
use lister::{Sizes, World};
use notices::Notice;
use plain::{PlainRule, Tables};
use scripts::{Action, Change, Reply, Step};
use stage::{Ask, Calls};
use std::alloc::{AllocError, Global};

/// How long one waits at most after the first second of a town.
const PATIENCE: u32 = 4;

/// What a trial is made over: the town and the rule, and the lengths of the tables that all asks are lent.
#[derive(Clone, Copy)]
struct Ground<'a> {
    town: &'a Town,
    rule: &'a PlainRule,
    lent: Sizes,
}

impl<'a> Ground<'a> {
    /// The book of one of the two planners.
    fn book(self, planner: usize) -> &'a Tables {
        if planner == 0 {
            &self.town.one
        } else {
            &self.town.other
        }
    }

    /// The world of one of the two planners.
    fn world(self, planner: usize, notices: &'a [Notice]) -> World<'a> {
        World {
            stops: self.town.stops,
            arcs: self.town.arcs.as_slice(),
            book: self.book(planner),
            notices,
            rule: self.rule,
            last: self.town.from.saturating_add(PATIENCE),
        }
    }
}

/// What comes of a change with what a slot holds, and what the slot holds then.
fn change(
    heap: Global,
    clerk: &mut Clerk,
    held: Option<u32>,
    change: Change,
) -> Result<(Reply, Option<u32>), AllocError> {
    match (held, change) {
        (None, Change::Open) => {
            let mark = clerk.mark;
            let answer = clerk.call(heap, 0, change)?.map(|()| mark);
            Ok((Reply::Opened(answer), answer.ok()))
        }
        (None, _) => Ok((Reply::Idle, None)),
        (Some(mark), Change::Open) => Ok((Reply::Idle, Some(mark))),
        (Some(mark), Change::Put(_) | Change::Lift(_)) => {
            let answer = clerk.call(heap, mark, change)?;
            Ok((Reply::Shown(mark, answer), Some(mark)))
        }
        (Some(mark), Change::Issue | Change::TearUp) => {
            let answer = clerk.call(heap, mark, change)?;
            Ok((Reply::Shown(mark, answer), answer.err().map(|_| mark)))
        }
    }
}

// Heap and counts stand by themselves below: a function that takes the heap makes lists, and the counts outlive the trial that the rest is of.

/// Holds what came of a call without legs against what had to come of it.
fn compare(heap: Global, step: usize, expected: Reply, seen: Reply) -> Option<Difference> {
    if seen == expected {
        return None;
    }
    Some(Difference {
        step,
        expected,
        expected_legs: Vec::new(heap),
        seen,
        seen_legs: Vec::new(heap),
    })
}

/// Holds a reply against that no call was made.
fn no_call(heap: Global, counts: &mut Counts, step: usize, seen: Reply) -> Option<Difference> {
    counts.reply(Reply::Idle);
    compare(heap, step, Reply::Idle, seen)
}

/// Holds what came of a change against what the clerk says.
fn judge_change(
    heap: Global,
    counts: &mut Counts,
    step: usize,
    clerk: &mut Clerk,
    held: &mut Option<u32>,
    action: Change,
    seen: Reply,
) -> Result<Option<Difference>, AllocError> {
    let (expected, left) = change(heap, clerk, *held, action)?;
    *held = left;
    counts.reply(expected);
    Ok(compare(heap, step, expected, seen))
}

/// Holds an ask of a planner, where there is one, against what the lister says.
fn judge_asked(
    heap: Global,
    counts: &mut Counts,
    ground: Ground,
    clerks: &[Clerk],
    planner: usize,
    made: Made,
) -> Result<Option<Difference>, AllocError> {
    let Some(clerk) = clerks.get(planner) else {
        return Ok(no_call(heap, counts, made.step, made.reply));
    };
    let world = ground.world(planner, clerk.standing.as_slice());
    judge_ask(heap, counts, world, ground.lent, made)
}

/// Holds what came of a step against what the clerks and the lister say.
fn judge_step(
    heap: Global,
    counts: &mut Counts,
    ground: Ground,
    clerks: &mut [Clerk],
    held: &mut [Option<u32>],
    number: usize,
    step: &Step,
) -> Result<Option<Difference>, AllocError> {
    match step.action {
        Action::Ask(enquiry) => {
            let made = Made {
                step: number,
                enquiry,
                reply: step.reply,
                slip: &step.slip,
            };
            judge_asked(heap, counts, ground, clerks, step.planner, made)
        }
        Action::Change(slot, action) => {
            let (Some(clerk), Some(held)) = (clerks.get_mut(step.planner), held.get_mut(slot))
            else {
                return Ok(no_call(heap, counts, number, step.reply));
            };
            judge_change(heap, counts, number, clerk, held, action, step.reply)
        }
    }
}

/// Holds an ask after the script against what the lister says.
fn judge_late_ask(
    heap: Global,
    counts: &mut Counts,
    ground: Ground,
    clerks: &[Clerk],
    number: usize,
    ask: &Ask,
) -> Result<Option<Difference>, AllocError> {
    let made = Made {
        step: number,
        enquiry: ask.enquiry,
        reply: ask.reply,
        slip: ask.slip.as_slice(),
    };
    judge_asked(heap, counts, ground, clerks, ask.planner, made)
}

/// The ledgers of both planners before any call.
fn new_clerks(heap: Global, town: &Town, calls: &Calls) -> Result<Vec<Clerk>, AllocError> {
    let mut clerks = Vec::new(heap);
    clerks.push(Clerk::new(heap, calls.mark, town.one.count()))?;
    clerks.push(Clerk::new(heap, calls.other_mark, town.other.count()))?;
    Ok(clerks)
}

/// The first call of a trial, of its script or of the asks after it, that came out otherwise than the clerks and the lister say.
pub fn judge_calls(
    heap: Global,
    counts: &mut Counts,
    town: &Town,
    rule: &PlainRule,
    calls: &Calls,
) -> Result<Option<Difference>, AllocError> {
    let mut clerks = new_clerks(heap, town, calls)?;
    let mut held = [None; 2];
    let lent = Sizes {
        rows: calls.rows,
        slots: calls.slots,
        slip: 0,
    };
    let ground = Ground { town, rule, lent };
    for (number, step) in calls.script.iter().enumerate() {
        let clerks = clerks.as_mut_slice();
        let found = judge_step(heap, counts, ground, clerks, &mut held, number, step)?;
        if found.is_some() {
            return Ok(found);
        }
    }
    for (number, ask) in calls.asks.iter().enumerate() {
        let number = number.saturating_add(calls.script.len());
        let found = judge_late_ask(heap, counts, ground, clerks.as_slice(), number, ask)?;
        if found.is_some() {
            return Ok(found);
        }
    }
    Ok(None)
}
