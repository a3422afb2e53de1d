//! Which words a rule accepts.
ghost use Rattle.std.specs.Prelude.{Decides};
ghost use Rattle.model.specs.Rules.{Accepts};

use crate::rule::Rule;

/// Whether the steps of a word of labels lead from state 0 to an end of the rule.
pub fn accepts<R: Rule>(rule: &R, word: &[u32]) -> bool
    ensures { Decides result (Accepts (R.Rule.automaton rule.now) word.now) }
{
    let mut state = 0;
    for label in word {
        let Some(next) = rule.next(state, *label) else {
            return false;
        };
        state = next;
    }
    rule.ends(state)
}
