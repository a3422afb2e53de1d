//! One step of a rule file.
ghost use Rattle.std.specs.Prelude.{◌≡◌};
ghost use Rattle.formats.specs.RuleFile.{any_step, rises as follows, step as a_step};
ghost use Rattle.wire.specs.Readers.{Reads};

use formats::RuleStep;
use model::{LABELS, Refusal};
use wire::{Fault, Reader};

/// Whether a step comes after the one before, if there is one: by state, then by label.
fn rises(before: Option<RuleStep>, step: RuleStep) -> bool
    ensures { result ≡ follows before step }
{
    before.is_none_or(|last| (last.state, last.label) < (step.state, step.label))
}

/// A step, whatever came before it.
fn read_any(reader: &mut Reader, states: u32) -> Result<RuleStep, Fault>
    ensures { Reads (any_step states).read reader.old reader.new result }
{
    let state = reader.number_below(states, Refusal::RuleField)?;
    let label = reader.number_in(0, LABELS - 1, Refusal::RuleField)?;
    let next = reader.number_below(states, Refusal::RuleField)?;
    Ok(RuleStep { state, label, next })
}

/// The step after another, in a rule of so many states.
pub(crate) fn read_step(
    reader: &mut Reader,
    states: u32,
    before: Option<RuleStep>,
) -> Result<RuleStep, Fault>
    ensures { Reads (a_step states before).read reader.old reader.new result }
{
    let at = reader.place();
    let step = read_any(reader, states)?;
    if rises(before, step) {
        Ok(step)
    } else {
        Err(Fault {
            refusal: Refusal::StepsNotAscending,
            at,
        })
    }
}
