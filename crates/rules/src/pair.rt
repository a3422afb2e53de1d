//! Two rules as one.
ghost use Rattle.std.specs.Prelude.{◌≡◌, ◌*◌, ◌<◌, ◌≤◌, true, false, MatchOption};
ghost use Rattle.automata.specs.Words.{AcceptsJust};
ghost use Rattle.automata.specs.Pairs.{paired, AcceptedByBoth, PairStateExamples};
ghost use Rattle.automata.proofs.PairLaws.{paired_lawful};

use crate::rule::Rule;
use model::MOST_STATES;

/// Both rules at once: the product of the two automata, as long as it has at most 64 states.
#[derive(Clone, Copy, Drop)]
pub struct Pair<A, B> {
    first: A,
    second: B,
}

impl<A: Rule, B: Rule> Pair<A, B> {
    /// The pair of two rules. It accepts just the words of both where it fits, and else none.
    pub fn new(first: A, second: B) -> Pair<A, B>
        ensures first { result.first ≡ first }
        ensures second { result.second ≡ second }
        ensures words { (A.Rule.automaton first).states * (B.Rule.automaton second).states ≤ 64 → AcceptsJust (paired (A.Rule.automaton result.first) (B.Rule.automaton result.second)) (AcceptedByBoth (A.Rule.automaton first) (B.Rule.automaton second)) }
        ensures none { 64 < (A.Rule.automaton first).states * (B.Rule.automaton second).states → AcceptsJust (paired (A.Rule.automaton result.first) (B.Rule.automaton result.second)) (λ word. ⊥) }
    {
        Pair { first, second }
    }

    /// The states of the second rule, where the pair fits.
    fn width(&self) -> Option<u32>
        ensures { MatchOption result (64 < (A.Rule.automaton self.now.first).states * (B.Rule.automaton self.now.second).states) (λ width. ((A.Rule.automaton self.now.first).states * (B.Rule.automaton self.now.second).states ≤ 64) × (width ≡ (B.Rule.automaton self.now.second).states)) }
    {
        let width = self.second.states();
        (self.first.states() * width <= MOST_STATES).then_some(width)
    }
}

impl<A: Rule, B: Rule> Rule for Pair<A, B> {
    ghost automaton = { λ r. paired (A.Rule.automaton r.first) (B.Rule.automaton r.second) };

    ghost lawful = { λ r. paired_lawful _ _ (A.Rule.lawful r.first) (B.Rule.lawful r.second) };

    /// A rule answers a number of states; one above the most says that the pair does not fit. Each rule is asked once, so that the states of
    /// pairs of pairs take one question for each rule in them.
    fn states(&self) -> u32 {
        let states = self.first.states() * self.second.states();
        if states <= MOST_STATES {
            states
        } else {
            MOST_STATES + 1
        }
    }

    fn next(&self, state: u32, label: u32) -> Option<u32> {
        let width = self.width()?;
        let first = self.first.next(state / width, label)?;
        let second = self.second.next(state % width, label)?;
        Some(first * width + second)
    }

    fn ends(&self, state: u32) -> bool {
        self.width().is_some_and(|width| {
            self.first.ends(state / width) && self.second.ends(state % width)
        })
    }
}

/// Worked examples: pairs of rules of 8 and 8 states have 64 states, and those of 5 and 13 have 65.
pub fn pair_state_examples()
    ensures { PairStateExamples }
{}
