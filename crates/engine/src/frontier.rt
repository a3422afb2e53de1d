//! The labels of a search, and the places that wait to be settled.
ghost use Rattle.std.specs.Prelude.{◌≡◌, ℕ, ◌+◌, ◌*◌, ◌^◌, ◌<◌, ◌≤◌, false, [], length, Some, slice_set};
ghost use Rattle.labels.specs.Table.{begun, settle as settle_of};
ghost use Rattle.labels.specs.Rows.{row_of, accepted, view};
ghost use Rattle.model.specs.Trips.{place};
ghost use Rattle.queue.specs.Contents.{contents, capacity};
ghost use Rattle.engine.specs.Agenda.{queued, NextDue};
ghost use Rattle.engine.specs.Frontiers.{Standing, Kept};

use crate::entry::Entry;
use labels::{Label, Offer};
use queue::Queue;

/// The rows of a label table, and the queue of those that are labelled and not settled.
#[derive(Drop)]
pub(crate) struct Frontier<'a, 'b> {
    pub(crate) labels: &'a mut [Option<Label>],
    pub(crate) queue: &'a mut Queue<'b, Entry>,
}

/// Whether the entry of the label in a row serves another label too: the row waits, and both have the same second and legs.
fn is_queued(row: Option<Label>, label: Label) -> bool
    ensures { result ≡ queued row label }
{
    row.is_some_and(|known| {
        !known.settled && known.second == label.second && known.legs == label.legs
    })
}

impl Frontier<'_, '_> {
    /// Clears the rows, and labels the place at `start` in state 0.
    pub(crate) fn begin(&mut self, states: u32, start: u32, second: u32)
        requires size { (0 < states) × ((start * states < length self.old.labels.now) × (length self.old.labels.now < 2 ^ 32)) }
        requires empty { (contents self.old.queue.now ≡ []) × (0 < capacity self.old.queue.now) }
        ensures table { view states self.new.labels.now ≡ begun (place start 0) second }
        ensures standing { Standing self.new }
        ensures count { length (contents self.new.queue.now) ≡ 1 }
        ensures same_rows { self.new.labels.ghost_name ≡ self.old.labels.ghost_name }
        ensures kept { Kept self.old self.new }
    {
        self.labels.fill(None);
        let first = start * states;
        self.labels[first as usize] = Some(Label {
            second,
            legs: 0,
            arc: 0,
            state: 0,
            settled: false,
        });
        let entry = Entry {
            second,
            legs: 0,
            place: first,
        };
        let Ok(()) = self.queue.push(entry) else {
            unreachable()
        };
    }

    /// Takes the place to settle next out of the queue, with its label; entries of places that are settled are passed over.
    pub(crate) fn next(&mut self) -> Option<(u32, Label)>
        requires { Standing self.old }
        ensures next { NextDue self.old.labels.now self.old.queue.now self.new.queue.now result }
        ensures labels { self.new.labels.now ≡ self.old.labels.now }
        ensures kept { Kept self.old self.new }
    {
        while let Some(entry) = self.queue.pop() {
            let Some(label) = self.labels[entry.place as usize] else {
                unreachable()
            };
            if !label.settled {
                return Some((entry.place, label));
            }
        }
        None
    }

    /// Settles the place of that number, which has the label, and gives the label as it is then.
    pub(crate) fn settle(&mut self, number: u32, label: Label) -> Label
        requires { number < length self.old.labels.now }
        ensures label { result ≡ settle_of label }
        ensures labels { self.new.labels.now ≡ slice_set self.old.labels.now number (Some (settle_of label)) }
        ensures queue { self.new.queue.now ≡ self.old.queue.now }
        ensures kept { Kept self.old self.new }
    {
        let settled = Label {
            settled: true,
            ..label
        };
        self.labels[number as usize] = Some(settled);
        settled
    }

    /// The row keeps the better of its label and the offered one; a label that is written is queued, unless its entry is in the queue.
    pub(crate) fn accept(&mut self, states: u32, offer: Offer)
        requires size { (row_of states offer.at < length self.old.labels.now) × (length self.old.labels.now < 2 ^ 32) }
        requires unsettled { offer.label.settled ≡ false }
        requires standing { Standing self.old }
        requires room { length (contents self.old.queue.now) < capacity self.old.queue.now }
        ensures labels { self.new.labels.now ≡ accepted states offer self.old.labels.now }
        ensures standing { Standing self.new }
        ensures count { length (contents self.new.queue.now) ≤ length (contents self.old.queue.now) + 1 }
        ensures kept { Kept self.old self.new }
    {
        let place = offer.at.stop as usize * states as usize + offer.at.state as usize;
        let known = self.labels[place];
        if !offer.label.improves(known) {
            return;
        }
        self.labels[place] = Some(offer.label);
        if is_queued(known, offer.label) {
            return;
        }
        let entry = Entry {
            second: offer.label.second,
            legs: offer.label.legs,
            place: place as u32,
        };
        let Ok(()) = self.queue.push(entry) else {
            unreachable()
        };
    }
}
