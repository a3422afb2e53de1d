//! The slip of an enquiry: its answer, and the legs of a journey that was found.
ghost use Rattle.std.specs.Prelude.{Some};
ghost use Rattle.std.specs.Fmt.{DisplaysOnOk};
ghost use Rattle.lines.specs.Lines.{leg_line, legs_text, slip_text};

use crate::{JourneyLine, LegLine, RefusedLine};
use model::{Arc, Enquiry, Found, Leg, Refusal};
use std::fmt;

/// An enquiry, its answer, the arcs of the network and the rows that its legs were written to.
#[derive(Clone, Copy)]
pub struct Slip<'a> {
    pub enquiry: Enquiry,
    pub answer: Result<Found, Refusal>,
    pub arcs: &'a [Arc],
    pub legs: &'a [Leg],
}

/// Writes the line of a leg; a leg whose arc is not among the arcs has none.
fn write_leg<W: fmt::Write>(arcs: &[Arc], leg: Leg, f: &mut fmt::Formatter<W>) -> fmt::Result
    ensures { DisplaysOnOk W.write_str_gives f.old result (Some (leg_line arcs.now leg)) f.new }
{
    match arcs.get(leg.arc as usize) {
        Some(arc) => {
            let line = LegLine { leg, arc: *arc };
            write!(f, "\n{line}")
        }
        None => Ok(()),
    }
}

/// Writes the lines of legs.
fn write_legs<W: fmt::Write>(arcs: &[Arc], legs: &[Leg], f: &mut fmt::Formatter<W>) -> fmt::Result
    ensures { DisplaysOnOk W.write_str_gives f.old result (Some (legs_text arcs.now legs.now)) f.new }
{
    for leg in legs {
        write_leg(arcs, *leg, f)?;
    }
    Ok(())
}

impl fmt::Display for Slip<'_> {
    ghost output = { λ s. Some (slip_text s.enquiry s.answer s.arcs.now s.legs.now) };

    fn fmt<W: fmt::Write>(&self, f: &mut fmt::Formatter<W>) -> fmt::Result {
        match self.answer {
            Ok(found) => {
                let enquiry = self.enquiry;
                write!(f, "{}", JourneyLine { enquiry, found })?;
                let legs = self.legs.len().min(found.legs as usize);
                write_legs(self.arcs, &self.legs[..legs], f)
            }
            Err(refusal) => write!(f, "{}", RefusedLine(refusal)),
        }
    }
}
