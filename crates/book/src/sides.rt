//! A book of one type or of another.
ghost use Rattle.either.specs.declared.Either.TheVariants.{Left, Right};

use crate::book::Book;
use either::Either;

/// One of two books.
impl<A: Book, B: Book> Book for Either<A, B> {
    ghost services = { λ b. elim b [ Left x ↦ A.Book.services x | Right y ↦ B.Book.services y ] };

    ghost answer = { λ b. elim b [ Left x ↦ A.Book.answer x | Right y ↦ B.Book.answer y ] };

    ghost lawful = { elim [ Left x ↦ A.Book.lawful x | Right y ↦ B.Book.lawful y ] };

    fn count(&self) -> u32 {
        match self {
            Either::Left(book) => book.count(),
            Either::Right(book) => book.count(),
        }
    }

    fn arrival(&self, service: u32, coming: u32) -> Option<u32> {
        match self {
            Either::Left(book) => book.arrival(service, coming),
            Either::Right(book) => book.arrival(service, coming),
        }
    }
}
