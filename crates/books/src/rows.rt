//! Tables whose rows belong to services, each service having a list of them.
ghost use Rattle.std.specs.Prelude.{◌≡◌, ◌+◌, ◌≤◌, ℕ, length, None, Option};
ghost use Rattle.meanings.specs.Spans.{rows as rows_of};
ghost use Rattle.meanings.specs.Timetables.{most_connections};
ghost use Rattle.meanings.specs.Roads.{most_points};
ghost use Rattle.meanings.specs.declared.fault.Field.{Field as FieldFault};
ghost use Rattle.meanings.specs.Faults.{count_fault, connection_fault, point_fault, rows_fault, list_fault, lists_fault, verdict};

use meanings::{BookFault, Field};
use model::{Connection, HORIZON, MOST_CONNECTIONS, MOST_POINTS, MOST_SERVICES, Point, Span};

/// A row of a service's list, which is tested against the one before it.
pub trait Row: Copy {
    /// The most rows of one service.
    const MOST: usize;

    ghost MOST: { ℕ };

    /// The number that is at fault in a row that follows another, or is the first.
    ghost tested: { Option Self → Self → Option FieldFault };

    /// Refuses a number at fault.
    fn test(self, before: Option<Self>) -> Result<(), Field>
        ensures { result ≡ verdict (tested before self) };
}

impl Row for Connection {
    const MOST: usize = MOST_CONNECTIONS as usize;

    ghost MOST = { most_connections };

    ghost tested = { connection_fault };

    fn test(self, before: Option<Connection>) -> Result<(), Field>
        ensures { result ≡ verdict (connection_fault before self) }
    {
        let low = before.map_or(0, |other| other.departure);
        if self.departure < low || self.departure > HORIZON {
            Err(Field::Departure)
        } else if self.arrival < self.departure || self.arrival > HORIZON {
            Err(Field::Arrival)
        } else {
            Ok(())
        }
    }
}

impl Row for Point {
    const MOST: usize = MOST_POINTS as usize;

    ghost MOST = { most_points };

    ghost tested = { point_fault };

    fn test(self, before: Option<Point>) -> Result<(), Field>
        ensures { result ≡ verdict (point_fault before self) }
    {
        let rises = before.is_none_or(|other| other.second < self.second);
        let low = before.map_or(0, Point::reached);
        let arrival = self.reached();
        if !rises || self.second > HORIZON {
            Err(Field::Departure)
        } else if arrival < low || arrival > HORIZON as u64 {
            Err(Field::Arrival)
        } else {
            Ok(())
        }
    }
}

/// The rows of a span.
pub(crate) fn rows<T>(table: &[T], span: Span) -> &[T]
    requires { span.start + span.len ≤ length table.now }
    ensures { result.now ≡ rows_of table.now span }
{
    let start = span.start;
    let end = start + span.len;
    &table[start..end]
}

/// Refuses too many services.
pub(crate) fn test_count(services: usize) -> Result<(), BookFault>
    ensures { result ≡ verdict (count_fault services) }
{
    if services > MOST_SERVICES as usize {
        Err(BookFault::TooManyServices)
    } else {
        Ok(())
    }
}

/// Refuses the first row at fault of a service's list.
fn test_rows<R: Row>(service: usize, list: &[R]) -> Result<(), BookFault>
    ensures { result ≡ verdict (rows_fault R.Row.tested service 0 None list.now) }
{
    let mut before = None;
    for (place, row) in list.iter().enumerate() {
        if let Err(field) = row.test(before) {
            return Err(BookFault::Row(service, place, field));
        }
        before = Some(*row);
    }
    Ok(())
}

/// Refuses the first fault of a service's list.
fn test_list<R: Row>(table: &[R], service: usize, span: Span) -> Result<(), BookFault>
    ensures { result ≡ verdict (list_fault R.Row.tested R.Row.MOST table.now service span) }
{
    let start = span.start;
    let len = span.len;
    if len < 1 || len > R::MOST {
        return Err(BookFault::ListLength(service));
    }
    if start > table.len() || table.len() - start < len {
        return Err(BookFault::ListOutside(service));
    }
    test_rows(service, rows(table, span))
}

/// Refuses the first fault of a table of lists.
pub(crate) fn test_lists<R: Row>(table: &[R], spans: &[Span]) -> Result<(), BookFault>
    ensures { result ≡ verdict (lists_fault R.Row.tested R.Row.MOST table.now spans.now) }
{
    test_count(spans.len())?;
    for (service, span) in spans.iter().enumerate() {
        test_list(table, service, *span)?;
    }
    Ok(())
}
