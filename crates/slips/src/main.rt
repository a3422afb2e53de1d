//! Reads a network file, a rule file and enquiries from standard input, and prints each enquiry's slip.
#![tactic(auto)]

mod answers;
mod halt;
mod tables;

use answers::answer_all;
use halt::Halt;
use lines::FaultLine;
use model::Refusal;
use std::io;
use std::io::Read;
use tables::LONGEST_INPUT;
use wire::Fault;

/// The input, or as much of it as shows that it is too long.
fn read_input(rt: &HostRuntime) -> io::Result<Vec<u8>> {
    let mut input = Vec::new(rt.alloc());
    rt.stdin()
        .take(LONGEST_INPUT as u64 + 1)
        .read_to_end(&mut input)?;
    Ok(input)
}

fn print_fault(rt: &HostRuntime, fault: Fault) -> io::Result<()> {
    println!(rt; "{}", FaultLine(fault))
}

fn main(rt: HostRuntime) -> io::Result<()> {
    let input = read_input(&rt)?;
    if input.len() > LONGEST_INPUT {
        return print_fault(
            &rt,
            Fault {
                refusal: Refusal::FileEndsEarly,
                at: LONGEST_INPUT,
            },
        );
    }
    match answer_all(&rt, input.as_slice()) {
        Ok(()) => Ok(()),
        Err(Halt::Fault(fault)) => print_fault(&rt, fault),
        Err(Halt::Io(error)) => Err(error),
    }
}
