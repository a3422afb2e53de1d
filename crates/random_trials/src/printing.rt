//! What the run prints.
use contest::{Counts, Difference};
use model::{Found, Leg};
use scripts::Reply;
use std::io;

fn print_refusals(rt: &HostRuntime, counts: &Counts) -> io::Result<()> {
    for (number, count) in counts.refused.iter().enumerate() {
        if *count > 0 {
            println!(rt; "refused {number}: {count}")?;
        }
    }
    Ok(())
}

fn print_line(rt: &HostRuntime, text: &str, number: u32) -> io::Result<()> {
    println!(rt; "{text}: {number}")
}

/// Prints what was seen, a line for each count; it is called where no difference was met.
pub fn print_counts(rt: &HostRuntime, trials: u64, counts: &Counts) -> io::Result<()> {
    let trips = counts.trips;
    println!(rt; "trials: {trials}")?;
    println!(rt; "trips listed: {trips}")?;
    print_line(rt, "changes accepted", counts.calls)?;
    print_line(rt, "steps without a call", counts.no_calls)?;
    print_line(rt, "asks", counts.asks)?;
    print_line(rt, "asks with too many trips to list", counts.passed_over)?;
    print_line(rt, "journeys", counts.journeys)?;
    print_line(rt, "legs", counts.legs)?;
    print_line(rt, "legs of no seconds", counts.legs_of_no_seconds)?;
    print_line(
        rt,
        "journeys with several eager trips of fewest legs",
        counts.ties,
    )?;
    print_line(
        rt,
        "journeys with several ends at the first second",
        counts.tied_ends,
    )?;
    print_line(rt, "asks that notices change", counts.changed)?;
    print_line(rt, "asks that a trip with a wait suits", counts.waits)?;
    print_line(
        rt,
        "first seconds and ranks of one place",
        counts.first_seconds,
    )?;
    print_refusals(rt, counts)?;
    println!(rt; "differences: 0")
}

fn print_legs(rt: &HostRuntime, legs: &[Leg]) -> io::Result<()> {
    for leg in legs {
        let arc = leg.arc;
        let entered = leg.entered;
        let arrived = leg.arrived;
        println!(rt; "  arc {arc} {entered} {arrived}")?;
    }
    Ok(())
}

/// Prints what came of a call or has to come of it, refusals by number.
fn print_reply(rt: &HostRuntime, word: &str, reply: Reply) -> io::Result<()> {
    match reply {
        Reply::Idle => println!(rt; "{word} NoCall"),
        Reply::Asked(Ok(Found { arrival, legs })) => {
            println!(rt; "{word} Journey({arrival}, {legs})")
        }
        Reply::Asked(Err(refusal)) => {
            let number = refusal.number();
            println!(rt; "{word} AskRefused({number})")
        }
        Reply::Opened(Ok(mark)) => println!(rt; "{word} Opened({mark})"),
        Reply::Opened(Err(refusal)) => {
            let number = refusal.number();
            println!(rt; "{word} OpeningRefused({number})")
        }
        Reply::Shown(mark, Ok(())) => println!(rt; "{word} Shown({mark}, None)"),
        Reply::Shown(mark, Err(refusal)) => {
            let number = refusal.number();
            println!(rt; "{word} Shown({mark}, Some({number}))")
        }
    }
}

/// Prints an answer that is not the one expected.
pub fn print_difference(rt: &HostRuntime, seed: u64, difference: &Difference) -> io::Result<()> {
    let step = difference.step;
    println!(rt; "difference: seed {seed} step {step}")?;
    print_reply(rt, "expected", difference.expected)?;
    print_legs(rt, difference.expected_legs.as_slice())?;
    print_reply(rt, "seen", difference.seen)?;
    print_legs(rt, difference.seen_legs.as_slice())
}
