//! Books whose services each have a list of rows.
ghost use Rattle.std.specs.Prelude.{◌≡◌, ◌<◌, ◌≤◌, [], length, Ok, Err, Some, None, ⊤};
ghost use Rattle.std.specs.Option.{MatchOption};
ghost use Rattle.std.specs.Result.{MatchResult};
ghost use Rattle.meanings.specs.Spans.{service_rows};
ghost use Rattle.meanings.specs.Faults.{lists_fault, verdict};

use crate::rows::{Row, rows, test_lists};
use meanings::BookFault;
use model::Span;
use std::alloc::AllocError;

/// Each service has a list of rows, and the tables of rows and lists have no fault: what that says of each kind of row stands in
/// `SoundTimetables` and `SoundRoads`.
#[derive(Drop)]
pub struct Lists<'a, R: Row> {
    rows: &'a [R],
    spans: &'a [Span],
    ghost sound: { lists_fault R.Row.tested R.Row.MOST rows.now spans.now ≡ None },
}

/// By hand, since a generic struct with a ghost field derives no `Clone`.
impl<'a, R: Row> Clone for Lists<'a, R> {
    ghost is_clone = { λ book other. other ≡ book };

    ghost is_infallible = { λ _. ⊤ };

    fn clone(&self) -> Result<Lists<'a, R>, AllocError>
        ensures cases { MatchResult result (λ other. other ≡ self.now) (λ _. ¬ ⊤) }
    {
        Ok(*self)
    }
}

impl<'a, R: Row> Copy for Lists<'a, R> {}

impl<'a, R: Row> Lists<'a, R> {
    /// A book without services.
    pub fn empty() -> Lists<'a, R>
        ensures rows { result.rows.now ≡ [] }
        ensures spans { result.spans.now ≡ [] }
    {
        Lists {
            rows: &[],
            spans: &[],
        }
    }

    /// The book over these tables, or their first fault.
    pub fn new(rows: &'a [R], spans: &'a [Span]) -> Result<Lists<'a, R>, BookFault>
        ensures made { elim result [ Ok book ↦ (book.rows.now ≡ rows.now) × (book.spans.now ≡ spans.now) × (lists_fault R.Row.tested R.Row.MOST rows.now spans.now ≡ None) | Err fault ↦ lists_fault R.Row.tested R.Row.MOST rows.now spans.now ≡ Some fault ] }
    {
        test_lists(rows, spans)?;
        Ok(Lists { rows, spans })
    }

    /// Becomes the book over these tables, or refuses at the first fault and stays as it was.
    pub fn lay(&mut self, rows: &'a [R], spans: &'a [Span]) -> Result<(), BookFault>
        ensures answer { result ≡ verdict (lists_fault R.Row.tested R.Row.MOST rows.now spans.now) }
        ensures laid { elim result [ Ok _ ↦ (self.new.rows.now ≡ rows.now) × (self.new.spans.now ≡ spans.now) | Err _ ↦ self.new ≡ self.old ] }
    {
        *self = Lists::new(rows, spans)?;
        Ok(())
    }

    /// How many services there are.
    pub(crate) fn services(&self) -> u32
        ensures { result ≡ length self.now.spans.now }
    {
        self.spans.len() as u32
    }

    /// The rows of a service, if it is there.
    pub(crate) fn list(&self, service: u32) -> Option<&[R]>
        ensures { MatchOption result (length self.now.spans.now ≤ service) (λ list. (service < length self.now.spans.now) × (list.now ≡ service_rows self.now.rows.now self.now.spans.now service)) }
    {
        let span = self.spans.get(service as usize)?;
        Some(rows(self.rows, *span))
    }
}
