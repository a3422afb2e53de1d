//! The tests that an enquiry is put to before a search.
ghost use Rattle.std.specs.Prelude.{◌≡◌, Some, None, MatchResult};
ghost use Rattle.model.specs.Asking.{any_unserved, refusal_of};
ghost use Rattle.engine.specs.Worlds.{world_of};

use crate::product::Product;
use book::Book;
use model::{Arc, Enquiry, HORIZON, MOST_STATES, Refusal};
use rules::Rule;

/// Whether some arc's service is not in a book of `count` services. By `any` an ask whose target is near takes half as long again.
fn any_service_missing(arcs: &[Arc], count: u32) -> bool
    ensures { result ≡ any_unserved count arcs.now }
{
    for arc in arcs {
        if arc.service >= count {
            return true;
        }
    }
    false
}

impl<B: Book, R: Rule> Product<'_, B, R> {
    /// Puts an enquiry to the tests, where there are so many label rows and queue slots: refused by the first that fails.
    pub(crate) fn test(&self, enquiry: Enquiry, rows: usize, slots: usize) -> Result<(), Refusal>
        ensures { MatchResult result (λ _. refusal_of self.now.network.stops (B.Book.services self.now.book.now) (world_of B.Book.answer R.Rule.automaton self.now) enquiry rows slots ≡ None) (λ refused. refusal_of self.now.network.stops (B.Book.services self.now.book.now) (world_of B.Book.answer R.Rule.automaton self.now) enquiry rows slots ≡ Some refused) }
    {
        let stops = self.network.stops();
        let arcs = self.network.arcs();
        let states = self.rule.states();
        if enquiry.start >= stops {
            return Err(Refusal::NoSuchStart);
        }
        if enquiry.target >= stops {
            return Err(Refusal::NoSuchTarget);
        }
        if enquiry.second > HORIZON {
            return Err(Refusal::SecondAboveHorizon);
        }
        if states > MOST_STATES {
            return Err(Refusal::TooManyStates);
        }
        if any_service_missing(arcs, self.book.count()) {
            return Err(Refusal::NoSuchService);
        }
        if rows < stops as usize * states as usize {
            return Err(Refusal::LabelTableShort);
        }
        if slots < 1 + arcs.len() * states as usize {
            return Err(Refusal::QueueShort);
        }
        Ok(())
    }
}
