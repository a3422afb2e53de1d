//! What networks and journeys are made of.
ghost use Rattle.std.specs.Prelude.{◌≡◌};

/// A way from the stop `tail` to the stop `head`, by a service, of the mode that the label names. An arc's number is its index.
#[derive(Clone, Copy, Debug, Default, Drop, PartialEq, Eq)]
pub struct Arc {
    pub tail: u32,
    pub head: u32,
    // a number and no `Mode`: whoever hands arcs in may hold any, and a network refuses one that is no label
    pub label: u32,
    pub service: u32,
}

/// A stop with a state of the rule: a node of the product of network and automaton.
#[derive(Clone, Copy, Debug, Default, Drop, PartialEq, Eq)]
pub struct Place {
    pub stop: u32,
    pub state: u32,
}

/// A ride on the arc of that number, come to at one second and left at another.
#[derive(Clone, Copy, Debug, Default, Drop, PartialEq, Eq)]
pub struct Leg {
    pub arc: u32,
    pub entered: u32,
    pub arrived: u32,
}

impl Arc {
    /// The arc from a tail to a head, of a label and a service.
    pub const fn new(tail: u32, head: u32, label: u32, service: u32) -> Arc
        ensures { result ≡ record { tail = tail; head = head; label = label; service = service } }
    {
        Arc {
            tail,
            head,
            label,
            service,
        }
    }
}
