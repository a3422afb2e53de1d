//! The book and the network over the tables of a network file.
ghost use Rattle.std.specs.Prelude.{◌≡◌, take, Some, None, Ok, Err};
ghost use Rattle.network.specs.Sound.{Sound, FirstFault};
ghost use Rattle.contents.specs.Held.{lists, fronts, book_fault, Laid};

use crate::tables::FileContents;
use book::Bank;
use books::{BookFault, Roads, Timetables, Walks};
use files::Counts;
use network::{Network, NetworkFault};

/// The services of a file: its walks, then its timetables, then its roads.
pub type FileBook<'a> = Bank<Bank<Walks<'a>, Timetables<'a>>, Roads<'a>>;

/// The first rows of a table.
fn front<T>(table: &[T], rows: usize) -> &[T]
    ensures { result.now ≡ take rows table.now }
{
    &table[..rows.min(table.len())]
}

/// The book over the first rows of the tables, or the first fault.
pub fn lay_book(contents: &FileContents, rows: Counts) -> Result<FileBook<'_>, BookFault>
    ensures { elim result [ Ok book ↦ (book_fault (fronts rows (lists contents.now)) ≡ None) × Laid (fronts rows (lists contents.now)) book | Err fault ↦ book_fault (fronts rows (lists contents.now)) ≡ Some fault ] }
{
    let walks = Walks::new(front(contents.walks.as_slice(), rows.walks))?;
    let timetables = Timetables::new(
        front(contents.connections.as_slice(), rows.connections),
        front(contents.timetables.as_slice(), rows.timetables),
    )?;
    let roads = Roads::new(
        front(contents.points.as_slice(), rows.points),
        front(contents.roads.as_slice(), rows.roads),
    )?;
    Ok(Bank {
        first: Bank {
            first: walks,
            second: timetables,
        },
        second: roads,
    })
}

/// The network of so many stops and of the first arcs of the table, or the first fault.
pub fn lay_network(contents: &FileContents, rows: Counts) -> Result<Network<'_>, NetworkFault>
    ensures { elim result [ Ok network ↦ (network.stops ≡ rows.stops) × (network.arcs.now ≡ (fronts rows (lists contents.now)).arcs) × Sound rows.stops (fronts rows (lists contents.now)).arcs | Err fault ↦ FirstFault fault rows.stops (fronts rows (lists contents.now)).arcs ] }
{
    let Ok(stops) = u32::try_from(rows.stops) else {
        return Err(NetworkFault::StopCount);
    };
    Network::new(stops, front(contents.arcs.as_slice(), rows.arcs))
}
