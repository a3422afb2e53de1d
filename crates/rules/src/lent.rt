//! A rule that is lent.
use crate::rule::Rule;

/// A lent rule means what the rule means.
impl<'a, R: Rule> Rule for &'a R {
    ghost automaton = { λ r. R.Rule.automaton r.now };

    ghost lawful = { λ r. R.Rule.lawful r.now };

    fn states(&self) -> u32 {
        (**self).states()
    }

    fn next(&self, state: u32, label: u32) -> Option<u32> {
        (**self).next(state, label)
    }

    fn ends(&self, state: u32) -> bool {
        (**self).ends(state)
    }
}
