//! A book as tables, and when one arrives by them.
ghost use Rattle.std.specs.Prelude.{◌≡◌, ◌+◌, ◌-◌, ◌^◌, ◌<◌, ◌≤◌, min, IfSome, None, vec_len, MatchOption};

use model::{Connection, HORIZON, Point, Span};
use notices::Notice;

/// The services of a book: its walks, then its timetables, then its roads.
// flat rows, and spans into them, as the makers of a planner's book take them
#[derive(Drop)]
pub struct Tables {
    pub walks: Vec<u32>,
    pub connections: Vec<Connection>,
    pub timetables: Vec<Span>,
    pub points: Vec<Point>,
    pub roads: Vec<Span>,
}

/// A second, unless it is above the horizon.
fn in_time(second: u64) -> Option<u32>
    ensures { MatchOption result (172800 < second) (λ s. (s ≡ second) × (s ≤ 172800)) }
{
    u32::try_from(second)
        .ok()
        .filter(|second| *second <= HORIZON)
}

/// The arrival of a walk.
fn walk(time: u32, coming: u32) -> Option<u32>
    ensures { MatchOption result (172800 < time + coming) (λ s. (s ≡ time + coming) × (s ≤ 172800)) }
{
    in_time(time as u64 + coming as u64)
}

/// The least arrival of all connections that depart at or after the coming.
fn ride(connections: &[Connection], coming: u32) -> Option<u32> {
    connections
        .iter()
        .filter(|connection| connection.departure >= coming)
        .map(|connection| connection.arrival)
        .min()
}

/// The arrival between two points: `P + floor((Q - P) * (t - p) / (q - p))`.
fn between(from: Point, to: Point, coming: u32) -> Option<u32> {
    let start = from.second as u64 + from.travel as u64;
    let end = to.second as u64 + to.travel as u64;
    let gone = (coming as u64).checked_sub(from.second as u64)?;
    let whole = (to.second as u64).checked_sub(from.second as u64)?;
    let part = end
        .checked_sub(start)?
        .checked_mul(gone)?
        .checked_div(whole)?;
    in_time(start.checked_add(part)?)
}

/// The arrival by the points of a road: before the first by its travel time, from the last on by that one's, else between neighbours.
fn drive(points: &[Point], coming: u32) -> Option<u32> {
    for (from, to) in points.iter().zip(points.iter().skip(1)) {
        if from.second <= coming && coming < to.second {
            return between(*from, *to, coming);
        }
    }
    let first = points.first()?;
    if coming < first.second {
        return walk(first.travel, coming);
    }
    walk(points.last()?.travel, coming)
}

impl Tables {
    /// How many services there are.
    pub fn count(&self) -> usize
        ensures { result ≡ min (min (vec_len self.now.walks + vec_len self.now.timetables) (2 ^ 64 - 1) + vec_len self.now.roads) (2 ^ 64 - 1) }
    {
        self.walks
            .len()
            .saturating_add(self.timetables.len())
            .saturating_add(self.roads.len())
    }

    /// When one who comes to a service at a second arrives.
    fn arrival(&self, service: usize, coming: u32) -> Option<u32> {
        if let Some(time) = self.walks.get(service) {
            return walk(*time, coming);
        }
        let service = service.checked_sub(self.walks.len())?;
        if let Some(span) = self.timetables.get(service) {
            return ride(listed(self.connections.as_slice(), *span), coming);
        }
        let service = service.checked_sub(self.timetables.len())?;
        let span = self.roads.get(service)?;
        drive(listed(self.points.as_slice(), *span), coming)
    }

    /// When one who comes to a service at a second arrives, under notices: one who comes while it is shut goes on when it opens again, and
    /// then it is late.
    pub fn arrival_under(&self, notices: &[Notice], service: u32, coming: u32) -> Option<u32>
        ensures past { 172800 < coming → result ≡ None }
        ensures bound { IfSome result (λ arrival. arrival ≤ 172800) }
    {
        if coming > HORIZON {
            return None;
        }
        let Some(notice) = notices.iter().find(|notice| notice.service == service) else {
            return walk(0, self.arrival(service as usize, coming)?);
        };
        let shut = notice.shut <= coming && coming < notice.until;
        let going = if shut { notice.until } else { coming };
        walk(notice.lateness, self.arrival(service as usize, going)?)
    }
}

/// The rows of a span.
fn listed<T>(rows: &[T], span: Span) -> &[T] {
    let start = span.start;
    match start.checked_add(span.len) {
        Some(end) if end <= rows.len() => &rows[start..end],
        _ => &rows[0..0],
    }
}
