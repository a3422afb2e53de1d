//! Two books as one.
ghost use Rattle.meanings.specs.Answers.{joined, joined_count};
ghost use Rattle.meanings.proofs.Laws.{joined_lawful};

use crate::book::Book;

/// The services of the first, then those of the second; the count stops at 4,294,967,295.
#[derive(Clone, Copy, Drop)]
pub struct Bank<A, B> {
    pub first: A,
    pub second: B,
}

impl<A: Book, B: Book> Book for Bank<A, B> {
    ghost services = { λ b. joined_count (A.Book.services b.first) (B.Book.services b.second) };

    ghost answer = { λ b. joined (A.Book.services b.first) (A.Book.answer b.first) (B.Book.services b.second) (B.Book.answer b.second) };

    ghost lawful = { λ b. joined_lawful (A.Book.lawful b.first) (B.Book.lawful b.second) };

    fn count(&self) -> u32 {
        self.first.count().saturating_add(self.second.count())
    }

    fn arrival(&self, service: u32, coming: u32) -> Option<u32> {
        let first = self.first.count();
        if service < first {
            self.first.arrival(service, coming)
        } else if service < u32::MAX {
            self.second.arrival(service - first, coming)
        } else {
            None
        }
    }
}
