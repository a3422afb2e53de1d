//! The lines of a slip, one after the other.
ghost use Rattle.std.specs.Prelude.{◌≡◌, ◌+◌, ◌++◌, [], ◌∷◌, length, Some, None};
ghost use Rattle.std.specs.Iterator.{at_most};
ghost use Rattle.lines.specs.Lines.{slip_text};
ghost use Rattle.lines.specs.SlipLines.{HandsOut, GivesLeg, line_text, left, lines_left};

use crate::slip::Slip;
use crate::{JourneyLine, LegLine, RefusedLine};
use model::{Arc, Leg};
use std::fmt;

/// A line of a slip.
#[derive(Clone, Copy)]
pub enum SlipLine {
    Journey(JourneyLine),
    Leg(LegLine),
    Refused(RefusedLine),
}

impl fmt::Display for SlipLine {
    ghost output = { λ l. Some (line_text l) };

    fn fmt<W: fmt::Write>(&self, f: &mut fmt::Formatter<W>) -> fmt::Result {
        match self {
            SlipLine::Journey(line) => write!(f, "{line}"),
            SlipLine::Leg(line) => write!(f, "{line}"),
            SlipLine::Refused(line) => write!(f, "{line}"),
        }
    }
}

/// The lines of a slip that are still to be handed out, for those who write each line at once.
#[derive(Drop)]
pub struct SlipLines<'a> {
    first: Option<SlipLine>,
    arcs: &'a [Arc],
    legs: &'a [Leg],
}

impl<'a> Slip<'a> {
    /// The lines of the slip: with their ends they are its text and a line's end.
    pub fn lines(self) -> SlipLines<'a>
        ensures { left result ≡ slip_text self.entry.enquiry self.entry.answer self.entry.arcs.now self.entry.legs.now ++ 10 ∷ [] }
    {
        match self.answer {
            Ok(found) => {
                let enquiry = self.enquiry;
                let legs = (found.legs as usize).min(self.legs.len());
                SlipLines {
                    first: Some(SlipLine::Journey(JourneyLine { enquiry, found })),
                    arcs: self.arcs,
                    legs: &self.legs[..legs],
                }
            }
            Err(refusal) => SlipLines {
                first: Some(SlipLine::Refused(RefusedLine(refusal))),
                arcs: self.arcs,
                legs: &[],
            },
        }
    }
}

impl<'a> SlipLines<'a> {
    /// The line of the next leg whose arc is among the arcs: another has none.
    fn next_leg(&mut self) -> Option<SlipLine>
        ensures { GivesLeg self.old result self.new }
    {
        while let Some((leg, rest)) = self.legs.split_first() {
            self.legs = rest;
            if let Some(arc) = self.arcs.get(leg.arc as usize) {
                return Some(SlipLine::Leg(LegLine {
                    leg: *leg,
                    arc: *arc,
                }));
            }
        }
        None
    }
}

impl<'a> Iterator for SlipLines<'a> {
    type Item = SlipLine;

    ghost next_gives = { HandsOut };

    ghost remaining = { λ lines. at_most (lines_left lines) };

    fn next(&mut self) -> Option<SlipLine> {
        match self.first.take() {
            Some(line) => Some(line),
            None => self.next_leg(),
        }
    }
}
