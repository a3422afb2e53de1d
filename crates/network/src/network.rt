//! The network value.
ghost use Rattle.std.specs.Prelude.{◌≡◌, ◌<◌, ◌≤◌, [], length, Ok, Err, IfSome, Decides};
ghost use Rattle.network.specs.Sound.{Counted, Fit, Ascending, InRange, Tested, Sound, FirstFault, Cut, Below, Above, Around, NoneAbove, Strides, Leaving, numbers};

use crate::fault::{ArcRange, NetworkFault};
use model::{Arc, LABELS, MOST_ARCS, MOST_STOPS};
use std::ops::Range;

/// The arcs that leave a stop are gone over so many at a time.
const STRIDE: usize = 8;

/// How far from a stop's share of the arcs its first one is looked for at first.
const REACH: usize = 64;

/// The stops `0..stops`, and the arcs between them by ascending tail.
#[derive(Clone, Copy)]
pub struct Network<'a> {
    stops: u32,
    arcs: &'a [Arc],
    ghost counted: { Counted stops arcs.now },
    ghost fit: { Fit stops arcs.now },
    ghost ascending: { Ascending arcs.now },
}

impl<'a> Network<'a> {
    /// The smallest network: one stop and no arc.
    pub fn empty() -> Network<'a>
        ensures stops { result.stops ≡ 1 }
        ensures arcs { result.arcs.now ≡ [] }
    {
        Network {
            stops: 1,
            arcs: &[],
        }
    }

    /// Becomes the network of these stops and arcs, or refuses at the first fault and stays as it was.
    pub fn lay(&mut self, stops: u32, arcs: &'a [Arc]) -> Result<(), NetworkFault>
        ensures answer { Tested result stops arcs.now }
        ensures laid { elim result [ Ok _ ↦ (self.new.stops ≡ stops) × (self.new.arcs.now ≡ arcs.now) | Err _ ↦ self.new ≡ self.old ] }
    {
        *self = Network::new(stops, arcs)?;
        Ok(())
    }

    /// The network of these stops and arcs, or the first fault.
    pub fn new(stops: u32, arcs: &'a [Arc]) -> Result<Network<'a>, NetworkFault>
        ensures made { elim result [ Ok network ↦ (network.stops ≡ stops) × (network.arcs.now ≡ arcs.now) × Sound stops arcs.now | Err fault ↦ FirstFault fault stops arcs.now ] }
    {
        tested(stops, arcs)?;
        Ok(Network { stops, arcs })
    }

    /// How many stops there are.
    pub fn stops(self) -> u32
        ensures { result ≡ self.entry.stops }
    {
        self.stops
    }

    /// The arcs by number.
    pub fn arcs(self) -> &'a [Arc]
        ensures { result.now ≡ self.entry.arcs.now }
    {
        self.arcs
    }

    /// The arcs that leave a stop: those and no others. None leaves a stop that is not there.
    pub fn leaving(self, stop: u32) -> ArcRange
        ensures { Leaving self.entry.arcs.now stop (numbers result) }
    {
        let first = self.first_from(stop);
        let near = self.strides(stop, first, STRIDE);
        let end = self.strides(stop, near, 1);
        ArcRange { first, end }
    }

    /// The number after the arc `i`, where there is that arc and its tail is below `stop`.
    fn below(self, stop: u32, i: usize) -> Option<usize>
        ensures { IfSome result (Below self.entry.arcs.now stop) }
    {
        // by index once it is known to be there: `get` and `then_some` are no plainer, and want a proof of their own
        if i < self.arcs.len() && self.arcs[i].tail < stop {
            Some(i + 1)
        } else {
            None
        }
    }

    /// The number `i`, where there is an arc of that number and its tail is not below `stop`.
    fn not_below(self, stop: u32, i: usize) -> Option<usize>
        ensures { IfSome result (Above self.entry.arcs.now stop) }
    {
        // as above
        if i < self.arcs.len() && self.arcs[i].tail >= stop {
            Some(i)
        } else {
            None
        }
    }

    /// Numbers among which the first arc is whose tail is not below `stop`, or which end at it. Where arcs are spread over the stops it lies
    /// near the stop's share of them, and they are few.
    fn around(self, stop: u32) -> Range<usize>
        ensures { Around self.entry.arcs.now stop result }
    {
        let share = (stop as usize).saturating_mul(self.arcs.len()) / self.stops as usize;
        let start = self.below(stop, share.saturating_sub(REACH)).unwrap_or(0);
        let end = self
            .not_below(stop, share.saturating_add(REACH))
            .unwrap_or(self.arcs.len());
        start..end
    }

    /// The number of the first arc whose tail is not below `stop`, or the count of arcs.
    fn first_from(self, stop: u32) -> usize
        ensures { Cut self.entry.arcs.now stop result }
    {
        let around = self.around(stop);
        let start = around.start;
        start + self.arcs[around].partition_point(|arc| arc.tail < stop)
    }

    /// Goes on from a number over arcs whose tails are not above `stop`, so many at a time.
    fn strides(self, stop: u32, from: usize, stride: usize) -> usize
        requires { (0 < stride) × ((from ≤ length self.arcs.now) × (NoneAbove self.arcs.now stop from)) }
        ensures { Strides self.entry.arcs.now stop stride result }
    {
        let mut end = from;
        // leaps by a stride, with no index counted; a second search by halves is slower, as docs/BENCH.md has it
        while self.arcs.len() - end >= stride && self.arcs[end + (stride - 1)].tail <= stop {
            end += stride;
        }
        end
    }
}

/// Whether these stops and arcs are a network, and else the first fault.
fn tested(stops: u32, arcs: &[Arc]) -> Result<(), NetworkFault>
    ensures { Tested result stops arcs.now }
{
    if stops < 1 || stops > MOST_STOPS {
        return Err(NetworkFault::StopCount);
    }
    if arcs.len() > MOST_ARCS as usize {
        return Err(NetworkFault::ArcCount);
    }
    let mut low = 0;
    for (i, arc) in arcs.iter().enumerate() {
        if !within(*arc, stops) {
            return Err(NetworkFault::ArcField(i));
        }
        if arc.tail < low {
            return Err(NetworkFault::TailFalls(i));
        }
        low = arc.tail;
    }
    Ok(())
}

/// Whether both ends of an arc are stops, and its label is a label.
fn within(arc: Arc, stops: u32) -> bool
    ensures { Decides result (InRange stops arc) }
{
    arc.tail < stops && arc.head < stops && arc.label < LABELS
}
