//! A poster filled.
ghost use Rattle.poster.specs.Boards.{listing, BoardsAreOne};
ghost use Rattle.poster.specs.Posted.{Posted};

use crate::departure::{Departure, PosterRow};
use crate::merge::{begin, merge};
use crate::question::Question;
use crate::refusal::test;
use books::Timetables;
use model::Refusal;
use network::Network;
use queue::Queue;

/// Lists the connections of a timetable book on the arcs that leave a stop, at or after a second, by departure, arc and place in the
/// service: the number of rows, and in the first rows of the poster the departure, arrival and arc of each. The book's services are numbered
/// from `first_service` on; arcs of other services are passed over. The queue needs a slot for each arc that leaves the stop.
// what is asked comes side by side, as hosts have it, and is a `Question` from here on
pub fn poster(
    network: Network<'_>,
    timetables: &Timetables<'_>,
    first_service: u32,
    stop: u32,
    second: u32,
    slots: &mut [Departure],
    rows: &mut [PosterRow],
) -> Result<usize, Refusal>
    ensures posted { Posted network.entry.stops (listing network.entry.arcs.now timetables.now.rows.now timetables.now.spans.now first_service stop second) slots.old slots.new rows.old rows.new result }
    ensures boards_are_one { BoardsAreOne }
{
    test(network, stop, second, slots.len())?;
    let question = Question {
        network,
        timetables,
        first_service,
        stop,
        second,
    };
    let mut queue = Queue::new(slots);
    let count = begin(question, &mut queue);
    if rows.len() < count {
        return Err(Refusal::RowsShort);
    }
    Ok(merge(question, &mut queue, rows))
}
