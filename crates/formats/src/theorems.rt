//! The theorems about whole files, each the contract of a function that does nothing.
ghost use Rattle.formats.specs.Examples.{NumberExamples};
ghost use Rattle.formats.specs.NetworkFile.{network};
ghost use Rattle.formats.specs.RuleFile.{rule};
ghost use Rattle.formats.specs.Theorems.{ReadsBack, WritesBack};

/// A network that is written reads back the same, and a network file that is accepted writes back to the same bytes.
pub fn network_files_go_both_ways()
    ensures there { ReadsBack network }
    ensures back { WritesBack network }
{}

/// A rule that is written reads back the same, and a rule file that is accepted writes back to the same bytes.
pub fn rule_files_go_both_ways()
    ensures there { ReadsBack rule }
    ensures back { WritesBack rule }
{}

/// Examples of numbers in a file.
pub fn numbers_of_a_file()
    ensures { NumberExamples }
{}
