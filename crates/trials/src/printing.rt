//! The lines of a script that was run.
use lines::{RefusedLine, Slip};
use model::{Enquiry, Leg, Refusal};
use network::Network;
use scripts::{Action, Change, Reply, Step};
use std::io;

/// Prints what a change asks for.
fn print_change(rt: &HostRuntime, change: Change) -> io::Result<()> {
    match change {
        Change::Open => print!(rt; "open "),
        Change::Put(notice) => {
            let service = notice.service;
            print!(rt; "put service {service} ")
        }
        Change::Lift(service) => print!(rt; "lift service {service} "),
        Change::Issue => print!(rt; "issue "),
        Change::TearUp => print!(rt; "tear up "),
    }
}

/// Prints the mark of the bulletin that an opening handed out.
fn print_opened(rt: &HostRuntime, answer: Result<u32, Refusal>) -> io::Result<()> {
    match answer {
        Ok(mark) => println!(rt; "mark {mark}"),
        Err(refusal) => println!(rt; "{}", RefusedLine(refusal)),
    }
}

/// Prints the mark that was shown, and what came of it.
fn print_shown(rt: &HostRuntime, mark: u32, answer: Result<(), Refusal>) -> io::Result<()> {
    print!(rt; "mark {mark} ")?;
    match answer {
        Ok(()) => println!(rt; "done"),
        Err(refusal) => println!(rt; "{}", RefusedLine(refusal)),
    }
}

/// Prints what came of a change.
fn print_changed(rt: &HostRuntime, reply: Reply) -> io::Result<()> {
    match reply {
        Reply::Opened(answer) => print_opened(rt, answer),
        Reply::Shown(mark, answer) => print_shown(rt, mark, answer),
        Reply::Idle | Reply::Asked(_) => println!(rt; "no call"),
    }
}

/// Prints what came of an ask.
fn print_asked(
    rt: &HostRuntime,
    network: Network,
    enquiry: Enquiry,
    reply: Reply,
    legs: &[Leg],
) -> io::Result<()> {
    match reply {
        Reply::Asked(answer) => {
            let slip = Slip {
                enquiry,
                answer,
                arcs: network.arcs(),
                legs,
            };
            for line in slip.lines() {
                println!(rt; "{line}")?;
            }
            Ok(())
        }
        Reply::Idle | Reply::Opened(_) | Reply::Shown(_, _) => println!(rt; "no call"),
    }
}

/// Prints a step: its planner, what it asks for and what came of it.
fn print_step(rt: &HostRuntime, network: Network, step: &Step) -> io::Result<()> {
    let planner = step.planner;
    print!(rt; "{planner} ")?;
    match step.action {
        Action::Ask(enquiry) => {
            print!(rt; "ask ")?;
            print_asked(rt, network, enquiry, step.reply, &step.slip)
        }
        Action::Change(_, change) => {
            print_change(rt, change)?;
            print_changed(rt, step.reply)
        }
    }
}

/// Prints the steps of a script, each on a line and the legs of a journey after it.
pub fn print_script(rt: &HostRuntime, network: Network, script: &[Step]) -> io::Result<()> {
    for step in script {
        print_step(rt, network, step)?;
    }
    Ok(())
}
