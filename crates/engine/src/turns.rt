//! The search itself.
ghost use Rattle.std.specs.Prelude.{◌≡◌, ℕ, ◌+◌, ◌-◌, ◌*◌, ◌^◌, ◌<◌, ◌≤◌, length, Some, slice_set};
ghost use Rattle.labels.specs.Table.{begun, settle, relax_below, turn as turn_of};
ghost use Rattle.labels.specs.Rows.{view, place_of, relaxed_count, Waits};
ghost use Rattle.model.specs.Asking.{rows_needed, slots_needed};
ghost use Rattle.model.specs.Trips.{place};
ghost use Rattle.network.specs.Sound.{Leaving};
ghost use Rattle.queue.specs.Contents.{contents, capacity};
ghost use Rattle.engine.specs.Agenda.{Agenda, Ended, Searched};
ghost use Rattle.engine.specs.Frontiers.{Standing, Kept};
ghost use Rattle.engine.specs.Worlds.{world_of};

use crate::entry::Entry;
use crate::frontier::Frontier;
use crate::product::Product;
use crate::tables::SearchTables;
use book::Book;
use labels::Label;
use model::{Enquiry, Place, Refusal};
use queue::Queue;
use rules::Rule;
use std::ops::Range;

/// A place of the target that answers an enquiry, by its state, with its label.
#[derive(Clone, Copy, Drop)]
pub struct Reached {
    pub state: u32,
    pub label: Label,
}

impl<B: Book, R: Rule> Product<'_, B, R> {
    /// Relaxes the arcs of a range, which are those out of the place `from`; its label is `label`.
    fn relax(&self, frontier: &mut Frontier<'_, '_>, range: Range<usize>, from: Place, label: Label)
        requires size { (length frontier.old.labels.now ≡ rows_needed self.now.network.stops (world_of B.Book.answer R.Rule.automaton self.now)) × (label.legs < 2 ^ 31) }
        requires standing { Standing frontier.old }
        requires range { Leaving self.now.network.arcs.now from.stop range }
        requires room { length (contents frontier.old.queue.now) + (range.end - range.start) ≤ capacity frontier.old.queue.now }
        ensures count { length (contents frontier.new.queue.now) ≤ length (contents frontier.old.queue.now) + (range.end - range.start) }
        ensures table { view (world_of B.Book.answer R.Rule.automaton self.now).states frontier.new.labels.now ≡ relax_below (world_of B.Book.answer R.Rule.automaton self.now) from label (length self.now.network.arcs.now) (view (world_of B.Book.answer R.Rule.automaton self.now).states frontier.old.labels.now) }
        ensures standing { Standing frontier.new }
        ensures kept { Kept frontier.old frontier.new }
    {
        let states = self.rule.states();
        for i in range {
            if let Some(made) = self.offer(from, label, i) {
                frontier.accept(states, made);
            }
        }
    }

    /// Settles the place of that number, which has the label, and relaxes the arcs out of it.
    fn turn(&self, frontier: &mut Frontier<'_, '_>, number: u32, label: Label)
        requires size { (length frontier.old.labels.now ≡ rows_needed self.now.network.stops (world_of B.Book.answer R.Rule.automaton self.now)) × ((Waits frontier.old.labels.now number label) × (label.legs < 2 ^ 31)) }
        requires agenda { Agenda (slice_set frontier.old.labels.now number (Some (settle label))) frontier.old.queue.now }
        requires room { (length (contents frontier.old.queue.now) ≤ relaxed_count self.now.network.arcs.now (world_of B.Book.answer R.Rule.automaton self.now).states frontier.old.labels.now) × (slots_needed (world_of B.Book.answer R.Rule.automaton self.now) ≤ capacity frontier.old.queue.now) }
        ensures table { view (world_of B.Book.answer R.Rule.automaton self.now).states frontier.new.labels.now ≡ turn_of (world_of B.Book.answer R.Rule.automaton self.now) (place_of (world_of B.Book.answer R.Rule.automaton self.now).states number) label (view (world_of B.Book.answer R.Rule.automaton self.now).states frontier.old.labels.now) }
        ensures standing { Standing frontier.new }
        ensures count { length (contents frontier.new.queue.now) ≤ relaxed_count self.now.network.arcs.now (world_of B.Book.answer R.Rule.automaton self.now).states (slice_set frontier.old.labels.now number (Some (settle label))) }
        ensures kept { Kept frontier.old frontier.new }
    {
        let from = self.place(number);
        let settled = frontier.settle(number, label);
        let range = self.network.leaving(from.stop).numbers();
        self.relax(frontier, range, from, settled);
    }

    /// Settles places, of which that at the enquiry's start in state 0 is the first, until a place of the target in an end state is next.
    fn reach(&self, frontier: &mut Frontier<'_, '_>, enquiry: Enquiry) -> Option<Reached>
        requires size { (length frontier.old.labels.now ≡ rows_needed self.now.network.stops (world_of B.Book.answer R.Rule.automaton self.now)) × (slots_needed (world_of B.Book.answer R.Rule.automaton self.now) ≤ capacity frontier.old.queue.now) }
        requires begun { view (world_of B.Book.answer R.Rule.automaton self.now).states frontier.old.labels.now ≡ begun (place enquiry.start 0) enquiry.second }
        requires standing { Standing frontier.old }
        requires count { length (contents frontier.old.queue.now) ≡ 1 }
        ensures ended { Ended (world_of B.Book.answer R.Rule.automaton self.now) (place enquiry.start 0) enquiry.second enquiry.target (view (world_of B.Book.answer R.Rule.automaton self.now).states frontier.new.labels.now) result }
        ensures same_rows { frontier.new.labels.ghost_name ≡ frontier.old.labels.ghost_name }
    {
        while let Some((number, label)) = frontier.next() {
            let place = self.place(number);
            if self.ends(place, enquiry.target) {
                return Some(Reached {
                    state: place.state,
                    label,
                });
            }
            self.turn(frontier, number, label);
        }
        None
    }

    /// Begins at the enquiry's start in state 0, and goes on to the place of the target that answers it.
    fn explore(
        &self,
        labels: &mut [Option<Label>],
        slots: &mut [Entry],
        enquiry: Enquiry,
    ) -> Option<Reached>
        requires size { (length labels.old ≡ rows_needed self.now.network.stops (world_of B.Book.answer R.Rule.automaton self.now)) × (slots_needed (world_of B.Book.answer R.Rule.automaton self.now) ≤ length slots.old) }
        requires start { enquiry.start < self.now.network.stops }
        ensures { Ended (world_of B.Book.answer R.Rule.automaton self.now) (place enquiry.start 0) enquiry.second enquiry.target (view (world_of B.Book.answer R.Rule.automaton self.now).states labels.new) result }
    {
        let states = self.rule.states();
        let mut queue = Queue::new(slots);
        let mut frontier = Frontier {
            labels,
            queue: &mut queue,
        };
        frontier.begin(states, enquiry.start, enquiry.second);
        self.reach(&mut frontier, enquiry)
    }

    /// Searches from the enquiry's start for the place of its target that answers it.
    pub fn search(
        &self,
        enquiry: Enquiry,
        tables: &mut SearchTables<'_>,
    ) -> Result<Option<Reached>, Refusal>
        ensures searched { Searched self.now.network.stops (B.Book.services self.now.book.now) (world_of B.Book.answer R.Rule.automaton self.now) enquiry tables.old.labels.now tables.new.labels.now tables.old.slots.now tables.new.slots.now result }
        ensures same_tables { (tables.new.labels.ghost_name ≡ tables.old.labels.ghost_name) × (tables.new.slots.ghost_name ≡ tables.old.slots.ghost_name) }
        ensures sizes { (length tables.new.labels.now ≡ length tables.old.labels.now) × (length tables.new.slots.now ≡ length tables.old.slots.now) }
    {
        self.test(enquiry, tables.labels.len(), tables.slots.len())?;
        let rows = self.network.stops() as usize * self.rule.states() as usize;
        let found = self.explore(&mut tables.labels[..rows], tables.slots, enquiry);
        Ok(found)
    }
}
