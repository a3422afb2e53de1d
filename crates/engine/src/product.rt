//! What a search goes over.
ghost use Rattle.std.specs.Prelude.{◌≡◌, ◌<◌, ◌≤◌, ◌^◌, ◌&&◌, ◌==◌, length, slice_index_or};
ghost use Rattle.labels.specs.Table.{offer as offer_of};
ghost use Rattle.labels.specs.Rows.{place_of};
ghost use Rattle.model.specs.declared.network.Arc.{Arc as ArcOf};
ghost use Rattle.engine.specs.Worlds.{world_of};

use book::Book;
use labels::{Label, Offer};
use model::Place;
use network::Network;
use rules::Rule;

/// The product of a network and a rule's automaton, under a service book: its places are the stops in each state.
#[derive(Clone, Copy)]
pub struct Product<'a, B, R> {
    pub network: Network<'a>,
    pub book: &'a B,
    pub rule: &'a R,
}

impl<B: Book, R: Rule> Product<'_, B, R> {
    /// The place of a number.
    pub(crate) fn place(&self, number: u32) -> Place
        ensures { result ≡ place_of (world_of B.Book.answer R.Rule.automaton self.now).states number }
    {
        let states = self.rule.states();
        Place {
            stop: number / states,
            state: number % states,
        }
    }

    /// Whether a place is one of the target's in an end state.
    pub(crate) fn ends(&self, place: Place, target: u32) -> bool
        ensures { result ≡ (place.stop == target && (world_of B.Book.answer R.Rule.automaton self.now).ends place.state) }
    {
        place.stop == target && self.rule.ends(place.state)
    }

    /// What the arc `i`, which leaves the stop of `from`, offers one there with the label `label`.
    pub(crate) fn offer(&self, from: Place, label: Label, i: usize) -> Option<Offer>
        requires size { (i < length self.now.network.arcs.now) × (label.legs < 2 ^ 31) }
        requires leaves { (d : ArcOf) → (slice_index_or self.now.network.arcs.now i d).tail ≡ from.stop }
        ensures { result ≡ offer_of (world_of B.Book.answer R.Rule.automaton self.now) from label i }
    {
        let arc = self.network.arcs()[i];
        let state = self.rule.next(from.state, arc.label)?;
        let arrival = self.book.arrival(arc.service, label.second)?;
        Some(Offer {
            at: Place {
                stop: arc.head,
                state,
            },
            label: Label {
                second: arrival,
                legs: label.legs + 1,
                arc: i as u32,
                state: from.state,
                settled: false,
            },
        })
    }
}
