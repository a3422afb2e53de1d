//! The merge of the connections of several arcs through a queue.
ghost use Rattle.std.specs.Prelude.{◌≡◌, ◌<◌, ◌≤◌, [], length, sum_by};
ghost use Rattle.queue.specs.Contents.{contents, capacity};
ghost use Rattle.poster.specs.Asked.{asked};
ghost use Rattle.poster.specs.Merging.{Added, Begun, Leaves, Merged, left};
ghost use Rattle.poster.specs.Posted.{leaving_count};

use crate::departure::{Departure, PosterRow};
use crate::line::{departure_at, due_count, line};
use crate::question::Question;
use queue::Queue;

/// Queues a departure, if there is one.
fn enqueue(queue: &mut Queue<'_, Departure>, departure: Option<Departure>)
    requires { length (contents queue.old) < capacity queue.old }
    ensures added { Added (contents queue.old) departure (contents queue.new) }
    ensures room { capacity queue.new ≡ capacity queue.old }
{
    if let Some(next) = departure {
        let Ok(()) = queue.push(next) else {
            unreachable()
        };
    }
}

/// Queues the first departure that is due on each arc that leaves the stop, and gives the number of all departures that are due.
pub(crate) fn begin(question: Question<'_, '_, '_>, queue: &mut Queue<'_, Departure>) -> usize
    requires empty { contents queue.old ≡ [] }
    requires room { leaving_count question.network.arcs.now question.stop ≤ capacity queue.old }
    ensures { Begun (asked question.entry) (Leaves (asked question.entry)) (contents queue.new) result }
{
    let range = question.network.leaving(question.stop).numbers();
    let mut count = 0;
    for i in range {
        let connections = line(question, i);
        let due = due_count(question, i);
        let place = (connections.len() - due) as u32;
        enqueue(queue, departure_at(connections, i as u32, place));
        count += due;
    }
    count
}

/// Takes the departures out of the queue in order, each followed there by the next on its arc, writes their rows and gives their number.
pub(crate) fn merge(
    question: Question<'_, '_, '_>,
    queue: &mut Queue<'_, Departure>,
    rows: &mut [PosterRow],
) -> usize
    requires begun { Begun (asked question) (Leaves (asked question)) (contents queue.old) (sum_by (left (asked question)) (contents queue.old)) }
    requires fits { sum_by (left (asked question)) (contents queue.old) ≤ length rows.old }
    ensures merged { Merged (asked question.entry) rows.old rows.new result }
    ensures all { result ≡ sum_by (left (asked question.entry)) (contents queue.old) }
{
    // no `zip` with the rows: the queue is emptied by `pop`, and the count of the rows is the answer
    let mut written = 0;
    while let Some(next) = queue.pop() {
        let connections = line(question, next.arc as usize);
        rows[written] = PosterRow {
            departure: next.departure,
            arrival: connections[next.place as usize].arrival,
            arc: next.arc,
        };
        written += 1;
        enqueue(queue, departure_at(connections, next.arc, next.place + 1));
    }
    written
}
