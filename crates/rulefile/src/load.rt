//! A rule file as a table rule.
ghost use Rattle.std.specs.Prelude.{◌≡◌, ◌≤◌, length};
ghost use Rattle.formats.specs.RuleFile.{rule};
ghost use Rattle.rulefile.specs.Loading.{IsRuleOf, Loads, Made};
ghost use Rattle.rulefile.specs.Tables.{Holds};

use crate::marks::read_marks;
use crate::steps::read_steps;
use model::{LABELS, Refusal};
use rules::{MAX_ENTRIES, MAX_STATES, RuleFault, TableRule};
use wire::{Fault, Reader};

/// What a rule file holds, as tables; they lie beside the number of states, since there is no heap here.
#[derive(Clone, Copy, Drop)]
struct RuleTables {
    states: u32,
    ends: [bool; MAX_STATES],
    next: [Option<u32>; MAX_ENTRIES],
}

/// Reads a whole rule file.
fn read_tables(reader: &mut Reader) -> Result<RuleTables, Fault>
    ensures { Holds reader.old reader.new result }
{
    let mut ends = [false; MAX_STATES];
    let states = read_marks(reader, &mut ends)?;
    let next = read_steps(reader, states)?;
    Ok(RuleTables { states, ends, next })
}

/// The rule of tables that are sound.
fn table_rule(tables: &RuleTables) -> Result<TableRule, RuleFault>
    requires some { 1 ≤ tables.now.states }
    requires few { tables.now.states ≤ 16 }
    requires marks { length tables.now.ends ≡ 16 }
    requires rows { length tables.now.next ≡ 96 }
    ensures { Made tables.now result }
{
    let states = tables.states as usize;
    TableRule::new(
        tables.states,
        &tables.next[..states * LABELS as usize],
        &tables.ends[..states],
    )
}

/// The rule of the file that begins at a place of `file`, and the place after its last step; or the file's first fault.
pub fn read_rule(file: &[u8], at: usize) -> Result<(TableRule, usize), Fault>
    ensures { IsRuleOf (rule.read file.now at) result }
{
    let mut reader = Reader::starting_within(file, at)?;
    let tables = read_tables(&mut reader)?;
    let rule = table_rule(&tables).map_err(|fault| Fault {
        refusal: Refusal::from(fault),
        at,
    })?;
    Ok((rule, reader.place()))
}

/// Makes `rule` the rule of the file that begins at a place of `file`, and answers the place after its last step.
/// A file at fault leaves the rule as it is.
pub fn load_rule(file: &[u8], at: usize, rule: &mut TableRule) -> Result<usize, Fault>
    ensures { Loads file.now at rule.old rule.new result }
{
    let (read, end) = read_rule(file, at)?;
    *rule = read;
    Ok(end)
}
