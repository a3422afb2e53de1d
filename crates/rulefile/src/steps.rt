//! The steps of a rule file, as a table.
ghost use Rattle.std.specs.Prelude.{◌≡◌, ◌≤◌, replicate, None};
ghost use Rattle.rulefile.specs.Tables.{Tabulates};

use crate::step::read_step;
use formats::RuleStep;
use model::LABELS;
use rules::MAX_ENTRIES;
use wire::{Fault, Reader};

/// A table with no step.
fn no_steps() -> [Option<u32>; MAX_ENTRIES]
    ensures { result ≡ replicate 96 None }
{
    [None; MAX_ENTRIES]
}

/// The steps of a rule of so many states, each as the entry of its state and label.
pub(crate) fn read_steps(
    reader: &mut Reader,
    states: u32,
) -> Result<[Option<u32>; MAX_ENTRIES], Fault>
    requires { states ≤ 16 }
    ensures { Tabulates states reader.old reader.new result }
{
    let mut next = no_steps();
    let mut before: Option<RuleStep> = None;
    let count = reader.number()?;
    for _i in 0..count {
        let step = read_step(reader, states, before)?;
        next[step.state as usize * LABELS as usize + step.label as usize] = Some(step.next);
        before = Some(step);
    }
    Ok(next)
}
