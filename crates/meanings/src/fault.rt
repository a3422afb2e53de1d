//! What can be wrong with the tables of a book.
ghost use Rattle.std.specs.Prelude.{◌≡◌};
ghost use Rattle.meanings.specs.Faults.{refusal_of};

use model::Refusal;

/// Which number of a row is at fault: the second at which one sets out, or the second of arrival.
#[derive(Clone, Copy, Debug, PartialEq, Eq, Drop)]
pub enum Field {
    Departure,
    Arrival,
}

/// The first fault of a book's tables, and where it is: services and the rows of a list are numbered from 0.
#[derive(Clone, Copy, Debug, PartialEq, Eq, Drop)]
pub enum BookFault {
    /// More than 4,096 services.
    TooManyServices,
    /// A service's walk takes more than 86,400 seconds.
    WalkTooLong(usize),
    /// A service's list has no rows or too many.
    ListLength(usize),
    /// A service's list reaches beyond the table.
    ListOutside(usize),
    /// A service's row has a number out of range or out of order.
    Row(usize, usize, Field),
}

/// The refusal that reports a fault.
impl From<BookFault> for Refusal {
    ghost from_gives = { λ fault refusal. refusal ≡ refusal_of fault };

    fn from(_fault: BookFault) -> Refusal {
        Refusal::ServiceField
    }
}
