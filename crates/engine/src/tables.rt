//! What a search is lent.
use crate::entry::Entry;
use labels::Label;

/// The tables that a search is lent: the rows of its labels, and the slots of its queue.
#[derive(Drop)]
pub struct SearchTables<'a> {
    pub labels: &'a mut [Option<Label>],
    pub slots: &'a mut [Entry],
}
