//! The timetable book.
ghost use Rattle.std.specs.Prelude.{◌≡◌, length};
ghost use Rattle.meanings.specs.Spans.{service_rows};
ghost use Rattle.meanings.specs.Timetables.{least, caught, arrivals, earliest, timetabled, Rising};
ghost use Rattle.meanings.proofs.Lawful.{timetables_lawful};

use crate::lists::Lists;
use book::Book;
use model::Connection;

/// Each service has a list of connections.
pub type Timetables<'a> = Lists<'a, Connection>;

/// The connections of a list that depart at or after the coming. Departures never fall, so these are the list's end.
fn departing(list: &[Connection], coming: u32) -> &[Connection]
    requires { Rising list.now }
    ensures { result.now ≡ caught coming list.now }
{
    let first = list.partition_point(|connection| connection.departure < coming);
    &list[first..]
}

/// The least arrival of a list of connections. By `min` a long list takes twice as long.
fn least_arrival(list: &[Connection]) -> Option<u32>
    ensures { result ≡ least (arrivals list.now) }
{
    list.iter()
        .map(|connection| connection.arrival)
        .reduce(|a, b| a.min(b))
}

/// The least arrival of the connections that depart at or after the coming; none first where the coming is after the last departure.
fn earliest(list: &[Connection], coming: u32) -> Option<u32>
    requires { Rising list.now }
    ensures { result ≡ earliest list.now coming }
{
    if list.last()?.departure < coming {
        return None;
    }
    least_arrival(departing(list, coming))
}

impl<'a> Lists<'a, Connection> {
    /// The connections of a service; none of a service that is not there.
    pub fn connections(&self, service: u32) -> &[Connection]
        ensures { result.now ≡ service_rows self.now.rows.now self.now.spans.now service }
    {
        self.list(service).unwrap_or(&[])
    }

    /// The connections of a service that depart at or after the coming; none of a service that is not there.
    pub fn departing(&self, service: u32, coming: u32) -> &[Connection]
        ensures { result.now ≡ caught coming (service_rows self.now.rows.now self.now.spans.now service) }
    {
        departing(self.connections(service), coming)
    }
}

impl<'a> Book for Lists<'a, Connection> {
    ghost services = { λ b. length b.spans.now };

    ghost answer = { λ b. timetabled b.rows.now b.spans.now };

    ghost lawful = { λ b. timetables_lawful b.rows.now b.spans.now b.sound };

    fn count(&self) -> u32 {
        self.services()
    }

    fn arrival(&self, service: u32, coming: u32) -> Option<u32> {
        earliest(self.connections(service), coming)
    }
}
