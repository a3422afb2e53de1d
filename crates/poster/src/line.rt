//! The connections of a timetable book on one arc.
ghost use Rattle.std.specs.Prelude.{◌≡◌, ◌<◌, length};
ghost use Rattle.meanings.specs.Timetables.{caught};
ghost use Rattle.poster.specs.Asked.{asked};
ghost use Rattle.poster.specs.Merging.{line, Service, At};

use crate::departure::Departure;
use crate::question::Question;
use model::Connection;

/// The service of an arc as the book numbers it; none where it is below the book's first service.
fn service(question: Question<'_, '_, '_>, arc: usize) -> Option<u32>
    requires { arc < length question.network.arcs.now }
    ensures { Service (asked question.entry) arc result }
{
    let number = question.network.arcs()[arc].service;
    number.checked_sub(question.first_service)
}

/// The connections of an arc's service; none where the service is not one of the book's.
pub(crate) fn line<'t>(question: Question<'_, 't, '_>, arc: usize) -> &'t [Connection]
    requires { arc < length question.network.arcs.now }
    ensures { result.now ≡ line (asked question.entry) arc }
{
    // with `map_or` the closure's result is not tied to the arc's connections by any proof that was found
    match service(question, arc) {
        None => &[],
        Some(service) => question.timetables.connections(service),
    }
}

/// How many of them depart at or after the second.
pub(crate) fn due_count(question: Question<'_, '_, '_>, arc: usize) -> usize
    requires { arc < length question.network.arcs.now }
    ensures { result ≡ length (caught question.entry.second (line (asked question.entry) arc)) }
{
    // no `map_or`, as above
    match service(question, arc) {
        None => 0,
        Some(service) => question
            .timetables
            .departing(service, question.second)
            .len(),
    }
}

/// The departure at a place of an arc's connections; none past their end.
pub(crate) fn departure_at(line: &[Connection], arc: u32, place: u32) -> Option<Departure>
    ensures { At line.now arc place result }
{
    let connection = line.get(place as usize)?;
    Some(Departure {
        departure: connection.departure,
        arc,
        place,
    })
}
