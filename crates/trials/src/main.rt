//! Runs a fixed script over two planners, whose books are of two types, and prints what came of each step.
#![tactic(auto)]

mod failure;
mod printing;
mod script;
mod tables;
mod trial;

use crate::failure::Failure;
use crate::trial::trial;

fn main(rt: HostRuntime) -> Result<(), Failure> {
    trial(&rt)
}
