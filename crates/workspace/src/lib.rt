//! The tables that asks are lent, for programs that keep them in memory of their own.
#![tactic(auto)]

#[cfg(test)]
mod tests;

ghost use Rattle.std.specs.Prelude.{◌≡◌, IfOk, vec_items};
ghost use Rattle.workspace.specs.Blank.{BlankSearch, Blank};

use model::Leg;
use search::{Entry, Label, SearchTables};
use std::alloc::{AllocError, Global};

/// A label table, and the slots of a queue.
#[derive(Drop)]
pub struct SearchSpace {
    pub labels: Vec<Option<Label>>,
    pub slots: Vec<Entry>,
}

/// Space for searches, and a slip.
#[derive(Drop)]
pub struct AskTables {
    pub space: SearchSpace,
    pub slip: Vec<Leg>,
}

/// How many rows each has.
#[derive(Clone, Copy, Drop)]
pub struct AskSizes {
    pub labels: usize,
    pub slots: usize,
    pub legs: usize,
}

impl SearchSpace {
    /// Space of so many label rows and queue slots: no labels, and zeros in the slots.
    pub fn new(heap: Global, labels: usize, slots: usize) -> Result<SearchSpace, AllocError>
        ensures { IfOk result (BlankSearch labels slots) }
    {
        Ok(SearchSpace {
            labels: vec![in heap; None; labels]?,
            slots: vec![in heap; Entry::default(); slots]?,
        })
    }

    /// The tables, lent to searches.
    pub fn lend(&mut self) -> SearchTables<'_>
        ensures labels { result.labels.now ≡ vec_items self.old.labels }
        ensures slots { result.slots.now ≡ vec_items self.old.slots }
    {
        SearchTables {
            labels: self.labels.as_mut_slice(),
            slots: self.slots.as_mut_slice(),
        }
    }
}

impl AskTables {
    /// Tables of these sizes: no labels, and zeros in the slots and the slip.
    pub fn new(heap: Global, sizes: AskSizes) -> Result<AskTables, AllocError>
        ensures { IfOk result (Blank sizes) }
    {
        Ok(AskTables {
            space: SearchSpace::new(heap, sizes.labels, sizes.slots)?,
            slip: vec![in heap; Leg::default(); sizes.legs]?,
        })
    }
}
