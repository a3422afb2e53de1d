//! The lines that a program prints of an enquiry's answer.
#![tactic(auto)]

ghost use Rattle.std.specs.Prelude.{◌≡◌, Some};
ghost use Rattle.lines.specs.Lines.{journey_text, leg_text, letter_of, refused_text, fault_text, layer_text};

mod slip;
mod slip_lines;

use model::{Arc, Enquiry, Found, Layer, Leg, Mode, Refusal};
pub use slip::Slip;
pub use slip_lines::{SlipLine, SlipLines};
use std::fmt;
use wire::Fault;

/// The answer to an enquiry: its arrival and its number of legs.
#[derive(Clone, Copy)]
pub struct JourneyLine {
    pub enquiry: Enquiry,
    pub found: Found,
}

impl fmt::Display for JourneyLine {
    ghost output = { λ l. Some (journey_text l.enquiry l.found) };

    fn fmt<W: fmt::Write>(&self, f: &mut fmt::Formatter<W>) -> fmt::Result {
        let start = self.enquiry.start;
        let target = self.enquiry.target;
        let second = self.enquiry.second;
        let arrival = self.found.arrival;
        let legs = self.found.legs;
        write!(
            f,
            "journey {start} {target} {second} arrives {arrival} legs {legs}"
        )
    }
}

/// The letter of a label, or `-` for what is no label.
// no `Display` of `Mode`: what is printed of it is settled here, and a label may be no mode
pub fn letter(label: u32) -> char
    ensures { result ≡ letter_of label }
{
    match Mode::try_from(label) {
        Ok(Mode::Foot) => 'f',
        Ok(Mode::Bus) => 'b',
        Ok(Mode::Ship) => 's',
        Ok(Mode::Rail) => 'r',
        Ok(Mode::Car) => 'c',
        Ok(Mode::Link) => 'l',
        Err(_) => '-',
    }
}

/// A leg of a journey, with its arc.
#[derive(Clone, Copy)]
pub struct LegLine {
    pub leg: Leg,
    pub arc: Arc,
}

impl fmt::Display for LegLine {
    ghost output = { λ l. Some (leg_text l.leg l.arc) };

    fn fmt<W: fmt::Write>(&self, f: &mut fmt::Formatter<W>) -> fmt::Result {
        let number = self.leg.arc;
        let tail = self.arc.tail;
        let head = self.arc.head;
        let mode = letter(self.arc.label);
        let entered = self.leg.entered;
        let arrived = self.leg.arrived;
        write!(f, "leg {number} {tail} {head} {mode} {entered} {arrived}")
    }
}

/// A refused enquiry.
#[derive(Clone, Copy)]
pub struct RefusedLine(pub Refusal);

impl fmt::Display for RefusedLine {
    ghost output = { λ l. Some (refused_text l.0) };

    fn fmt<W: fmt::Write>(&self, f: &mut fmt::Formatter<W>) -> fmt::Result {
        let number = self.0.number();
        write!(f, "refused {number}")
    }
}

/// The name of a layer.
// no `Display` of `Layer`, whose crate knows no output
pub fn layer_name(layer: Layer) -> &'static str
    ensures { result.now ≡ layer_text layer }
{
    match layer {
        Layer::Number => "number",
        Layer::Record => "record",
        Layer::Network => "network",
    }
}

/// A fault in a file.
#[derive(Clone, Copy)]
pub struct FaultLine(pub Fault);

impl fmt::Display for FaultLine {
    ghost output = { λ l. Some (fault_text l.0.refusal l.0.at) };

    fn fmt<W: fmt::Write>(&self, f: &mut fmt::Formatter<W>) -> fmt::Result {
        let number = self.0.refusal.number();
        let at = self.0.at;
        let layer = layer_name(self.0.layer());
        write!(f, "file {number} at {at} in {layer}")
    }
}
