//! The subject's own words: the clock, arcs, legs and places, refusals; in specs/ what books, rules and networks mean,
//! what a trip is and which journey answers an enquiry; in proofs/ the theorems about them.
#![tactic(auto)]

mod clock;
mod enquiry;
mod label;
mod limits;
mod network;
mod refusal;
mod tables;

pub use clock::HORIZON;
pub use enquiry::{Enquiry, Found};
pub use label::{LABELS, Mode, NoSuchLabel};
pub use limits::{
    LONGEST_NAME, LONGEST_WALK, MOST_ARCS, MOST_CONNECTIONS, MOST_POINTS, MOST_SERVICES,
    MOST_STATES, MOST_STOPS,
};
pub use network::{Arc, Leg, Place};
pub use refusal::{Cause, Layer, Refusal};
pub use tables::{Connection, Point, Span};
