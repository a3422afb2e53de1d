//! The end marks of a rule file.
ghost use Rattle.std.specs.Prelude.{◌≤◌, take, Ok, Err};
ghost use Rattle.formats.specs.RuleFile.{mark, marks};
ghost use Rattle.wire.specs.Readers.{Reads, viewed};

use model::Refusal;
use rules::MAX_STATES;
use wire::{Fault, Reader};

/// An end mark, 0 or 1.
fn read_mark(reader: &mut Reader) -> Result<bool, Fault>
    ensures { Reads mark.read reader.old reader.new result }
{
    let mark = reader.number_in(0, 1, Refusal::RuleField)?;
    Ok(mark == 1)
}

/// The number of states, which it answers, and the end mark of each, into the front of `ends`.
pub(crate) fn read_marks(reader: &mut Reader, ends: &mut [bool; MAX_STATES]) -> Result<u32, Fault>
    ensures says { Reads marks.read reader.old reader.new (viewed (λ k. take k ends.new) result) }
    ensures small { elim result [ Ok k ↦ (1 ≤ k) × (k ≤ 16) | Err _ ↦ Unit {0} ] }
{
    let states = reader.number_in(1, MAX_STATES as u32, Refusal::RuleField)?;
    for end in ends[..states as usize].iter_mut() {
        *end = read_mark(reader)?;
    }
    Ok(states)
}
