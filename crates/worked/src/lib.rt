//! The worked examples, as one assertion over the definitions that the contracts use.
#![tactic(auto)]

ghost use Rattle.std.specs.Prelude.{◌≡◌};
ghost use Rattle.worked.specs.Worked.{WorkedExamples};

/// How many worked examples there are; that all of them hold is in the contract.
pub fn worked_examples() -> u32
    ensures count { result ≡ 8 }
    ensures examples { WorkedExamples }
{
    8
}
