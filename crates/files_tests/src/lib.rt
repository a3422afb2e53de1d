//! Network files at their edges.
#![tactic(auto)]

#[cfg(test)]
mod tests;
