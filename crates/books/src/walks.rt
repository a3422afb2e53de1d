//! The walk book.
ghost use Rattle.std.specs.Prelude.{◌≡◌, ◌≤◌, [], length, Ok, Err, Some, None};
ghost use Rattle.meanings.specs.Answers.{timely};
ghost use Rattle.meanings.specs.Spans.{most_services};
ghost use Rattle.meanings.specs.Walks.{walked, Walkable};
ghost use Rattle.meanings.proofs.Walks.{walked_lawful};
ghost use Rattle.meanings.specs.Faults.{walks_fault, verdict};

use crate::rows::test_count;
use book::Book;
use meanings::BookFault;
use model::{HORIZON, LONGEST_WALK};

/// Each service takes its own fixed time.
#[derive(Clone, Copy, Drop)]
pub struct Walks<'a> {
    times: &'a [u32],
    ghost few: { length times.now ≤ most_services },
    ghost walkable: { Walkable times.now (length times.now) },
}

/// An arrival counts only up to the horizon.
pub(crate) fn timely(arrival: u32) -> Option<u32>
    ensures { result ≡ timely arrival }
{
    (arrival <= HORIZON).then_some(arrival)
}

impl<'a> Walks<'a> {
    /// A book without services.
    pub fn empty() -> Walks<'a>
        ensures { result.times.now ≡ [] }
    {
        Walks { times: &[] }
    }

    /// The book over this table, or its first fault.
    pub fn new(times: &'a [u32]) -> Result<Walks<'a>, BookFault>
        ensures made { elim result [ Ok book ↦ (book.times.now ≡ times.now) × (walks_fault times.now ≡ None) | Err fault ↦ walks_fault times.now ≡ Some fault ] }
    {
        test_count(times.len())?;
        match times.iter().position(|time| *time > LONGEST_WALK) {
            Some(service) => Err(BookFault::WalkTooLong(service)),
            None => Ok(Walks { times }),
        }
    }

    /// Becomes the book over this table, or refuses at the first fault and stays as it was.
    pub fn lay(&mut self, times: &'a [u32]) -> Result<(), BookFault>
        ensures answer { result ≡ verdict (walks_fault times.now) }
        ensures laid { elim result [ Ok _ ↦ self.new.times.now ≡ times.now | Err _ ↦ self.new ≡ self.old ] }
    {
        *self = Walks::new(times)?;
        Ok(())
    }
}

impl<'a> Book for Walks<'a> {
    ghost services = { λ w. length w.times.now };

    ghost answer = { λ w. walked w.times.now };

    ghost lawful = { λ w. walked_lawful w.times.now w.few };

    fn count(&self) -> u32 {
        self.times.len() as u32
    }

    fn arrival(&self, service: u32, coming: u32) -> Option<u32> {
        let time = self.times.get(service as usize)?;
        if coming > HORIZON {
            return None;
        }
        timely(coming + *time)
    }
}
