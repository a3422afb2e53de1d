//! Rules that are given by a table.
ghost use Rattle.std.specs.Prelude.{◌≡◌, ℕ, ◌<◌, ◌≤◌, length, Some, None, Ok, Err, slice_index_or};
ghost use Rattle.automata.specs.Tables.{tabled, Closed};
ghost use Rattle.automata.proofs.TableLaws.{tabled_lawful};
ghost use Rattle.rules.specs.Faults.{step_within, FirstOutside, SoundTable, TableAtFault};
ghost use Rattle.rules.specs.declared.fault.RuleFault.TheVariants.{NextState};

use crate::fault::RuleFault;
use crate::rule::Rule;
use model::LABELS;

/// A table rule has at most this many states.
pub const MAX_STATES: usize = 16;
/// The entries of a table of that many states.
pub const MAX_ENTRIES: usize = MAX_STATES * LABELS as usize;

/// 1 to 16 states, with a next state or none for each state and label, six in a row, and an end mark for each state.
// The tables lie in the rule beside the number of its states, since a rule stands where there is no heap.
#[derive(Clone, Copy, Drop)]
pub struct TableRule {
    states: u32,
    steps: [Option<u32>; MAX_ENTRIES],
    marks: [bool; MAX_STATES],
    ghost some: { 1 ≤ states },
    ghost few: { states ≤ 16 },
    ghost closed: { Closed states steps },
}

impl TableRule {
    /// The rule of a table of so many states: `next` has six entries for each state, by label, and `ends` one mark for each.
    pub fn new(states: u32, next: &[Option<u32>], ends: &[bool]) -> Result<TableRule, RuleFault>
        ensures { elim result [ Ok rule ↦ SoundTable states next.now ends.now × (tabled rule.states rule.steps rule.marks ≡ tabled states next.now ends.now) | Err fault ↦ TableAtFault fault states next.now ends.now ] }
    {
        if states < 1 || states > MAX_STATES as u32 {
            return Err(RuleFault::StateCount);
        }
        if next.len() != (states * LABELS) as usize {
            return Err(RuleFault::StepCount);
        }
        if ends.len() != states as usize {
            return Err(RuleFault::EndCount);
        }
        steps_within(states, next)?;
        let mut steps = [None; MAX_ENTRIES];
        put_front(&mut steps, next);
        let mut marks = [false; MAX_STATES];
        put_front(&mut marks, ends);
        Ok(TableRule {
            states,
            steps,
            marks,
        })
    }
}

/// Tests that every step leads to a state or is none.
fn steps_within(states: u32, steps: &[Option<u32>]) -> Result<(), RuleFault>
    ensures { elim result [ Ok _ ↦ Closed states steps.now | Err fault ↦ (i : ℕ) × (fault ≡ NextState i) × FirstOutside states steps.now i ] }
{
    match steps.iter().position(|step| !within(*step, states)) {
        Some(i) => Err(RuleFault::NextState(i)),
        None => Ok(()),
    }
}

/// Whether a step leads to a state or is none.
fn within(step: Option<u32>, states: u32) -> bool
    ensures { result ≡ step_within states step }
{
    step.is_none_or(|next| next < states)
}

/// Copies a list to the front of a table that is no shorter.
fn put_front<T: Copy>(table: &mut [T], list: &[T])
    requires { length list.now ≤ length table.old }
    ensures front { (i : ℕ) (d : T) → i < length list.now → slice_index_or table.new i d ≡ slice_index_or list.now i d }
    ensures rest { (i : ℕ) (d : T) → length list.now ≤ i → slice_index_or table.new i d ≡ slice_index_or table.old i d }
{
    table[..list.len()].copy_from_slice(list);
}

impl Rule for TableRule {
    ghost automaton = { λ r. tabled r.states r.steps r.marks };

    ghost lawful = { λ r. tabled_lawful r.states r.steps r.marks r.some r.few r.closed };

    fn states(&self) -> u32 {
        self.states
    }

    fn next(&self, state: u32, label: u32) -> Option<u32> {
        if state < self.states && label < LABELS {
            self.steps[(state * LABELS + label) as usize]
        } else {
            None
        }
    }

    fn ends(&self, state: u32) -> bool {
        state < self.states && self.marks[state as usize]
    }
}
