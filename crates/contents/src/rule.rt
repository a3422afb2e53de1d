//! The rule of a rule file.
ghost use Rattle.formats.specs.RuleFile.{rule};
ghost use Rattle.rulefile.specs.Loading.{IsRuleOf};

use rules::TableRule;
use wire::Fault;

/// The rule of the file that begins at a place of some bytes, and the place after it; or the file's first fault.
pub fn read_rule(bytes: &[u8], at: usize) -> Result<(TableRule, usize), Fault>
    ensures { IsRuleOf (rule.read bytes.now at) result }
{
    rulefile::read_rule(bytes, at)
}
