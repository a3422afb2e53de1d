//! Sets planners against a list of all trips, on small networks that are drawn from fixed seeds, and prints what it saw.
#![tactic(auto)]

mod failure;
mod printing;
mod trial;

use crate::failure::Failure;
use crate::printing::print_counts;
use crate::trial::make_trial;
use contest::Counts;

/// How many trials there are; each is drawn by its number.
const TRIALS: u64 = 3_000;

/// Makes the trials, up to the first answer that is not the one expected.
fn make_trials(rt: &HostRuntime) -> Result<(), Failure> {
    let mut counts = Counts::new();
    for seed in 0..TRIALS {
        make_trial(rt, seed, &mut counts)?;
    }
    print_counts(rt, TRIALS, &counts)?;
    Ok(())
}

/// Stops with an error at the first answer that is not the one expected, once that has been printed.
fn main(rt: HostRuntime) -> Result<(), Failure> {
    make_trials(&rt)
}
