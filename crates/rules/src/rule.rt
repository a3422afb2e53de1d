//! What a rule on modes is.
ghost use Rattle.std.specs.Prelude.{◌≡◌};
ghost use Rattle.model.specs.Rules.{Automaton, LawfulRule};

/// An automaton that reads the labels of a journey's arcs. Asking changes nothing.
pub trait Rule {
    /// The number of states, the next state or none for each state and label, and the ends.
    ghost automaton: { Self → Automaton };

    /// 1 to 65 states; next states and ends are states; none from no state and for no label.
    ghost lawful: { (r : Self) → LawfulRule (automaton r) };

    fn states(&self) -> u32
        ensures { result ≡ (automaton self.now).states };

    fn next(&self, state: u32, label: u32) -> Option<u32>
        ensures { result ≡ (automaton self.now).next state label };

    fn ends(&self, state: u32) -> bool
        ensures { result ≡ (automaton self.now).ends state };
}
