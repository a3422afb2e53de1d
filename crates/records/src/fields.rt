//! The numbers of one record, read from a file.
ghost use Rattle.formats.specs.NetworkFile.{connection, point, arc};
ghost use Rattle.wire.specs.Readers.{Reads};

use formats::{least_arrival, least_second, second_before};
use model::{Arc, Connection, HORIZON, LABELS, Point, Refusal};
use wire::{Fault, Reader};

/// The connection after a departure at `last`.
pub(crate) fn connection(reader: &mut Reader, last: u32) -> Result<Connection, Fault>
    ensures { Reads (connection last).read reader.old reader.new result }
{
    let departure = reader.number_since(last, 0, HORIZON, Refusal::ServiceField)?;
    let arrival = reader.number_since(departure, 0, HORIZON, Refusal::ServiceField)?;
    Ok(Connection { departure, arrival })
}

/// The point of a road after the point `before`, if there is one.
pub(crate) fn point(reader: &mut Reader, before: Option<Point>) -> Result<Point, Fault>
    ensures { Reads (point before).read reader.old reader.new result }
{
    let base = second_before(before);
    let least = least_second(before);
    let reached = least_arrival(before);
    let second = reader.number_since(base, least, HORIZON, Refusal::ServiceField)?;
    let arrival = reader.number_since(second, reached, HORIZON, Refusal::ServiceField)?;
    Ok(Point {
        second,
        travel: arrival.saturating_sub(second),
    })
}

/// The arc after one whose tail is `last`, in a network of so many stops and services.
pub(crate) fn arc(reader: &mut Reader, stops: u32, services: u32, last: u32) -> Result<Arc, Fault>
    ensures { Reads (arc stops services last).read reader.old reader.new result }
{
    let at = reader.place();
    let tail = reader.number_below(stops, Refusal::ArcField)?;
    let head = reader.number_below(stops, Refusal::ArcField)?;
    let label = reader.number_in(0, LABELS - 1, Refusal::ArcField)?;
    let service = reader.number_below(services, Refusal::NoSuchService)?;
    if tail < last {
        return Err(Fault {
            refusal: Refusal::TailFalls,
            at,
        });
    }
    Ok(Arc {
        tail,
        head,
        label,
        service,
    })
}
