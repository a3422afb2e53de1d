//! Rule files as they are read, and network files as they are written.
#![tactic(auto)]

#[cfg(test)]
mod network_files;
#[cfg(test)]
mod rule_files;
