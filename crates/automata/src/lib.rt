//! The automata of the rules, the words that they accept, and the theorems about them; no code.
#![tactic(auto)]
