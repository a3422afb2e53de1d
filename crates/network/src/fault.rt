//! What can be wrong with a list of arcs, and parts of such a list.
ghost use Rattle.std.specs.Prelude.{◌≡◌};
ghost use Rattle.network.specs.Sound.{refusal_of, numbers};

use model::Refusal;
use std::ops::Range;

/// Why a network is refused; the index is that of the first arc at fault.
#[derive(Clone, Copy, Debug, Drop, PartialEq, Eq)]
pub enum NetworkFault {
    StopCount,
    ArcCount,
    ArcField(usize),
    TailFalls(usize),
}

impl From<NetworkFault> for Refusal {
    /// The refusal by which the fault is reported.
    ghost from_gives = { λ fault refusal. refusal ≡ refusal_of fault };

    fn from(fault: NetworkFault) -> Refusal {
        match fault {
            NetworkFault::StopCount => Refusal::StopCount,
            NetworkFault::ArcCount => Refusal::ArcCount,
            NetworkFault::ArcField(_) => Refusal::ArcField,
            NetworkFault::TailFalls(_) => Refusal::TailFalls,
        }
    }
}

/// The arcs from the number `first` on and before the number `end`; a `Range` of the library is not `Copy`.
#[derive(Clone, Copy, Debug, Drop, PartialEq, Eq)]
pub struct ArcRange {
    pub first: usize,
    pub end: usize,
}

impl ArcRange {
    /// The numbers of the arcs, to go over them.
    pub fn numbers(self) -> Range<usize>
        ensures { result ≡ numbers self }
    {
        self.first..self.end
    }
}
