//! How many rows of each table a network file fills.
ghost use Rattle.std.specs.Prelude.{◌≡◌, ◌+◌, ◌≤◌, if◌then◌else◌, ◌==◌};
ghost use Rattle.records.specs.Records.{meant};
ghost use Rattle.files.specs.Counting.{Few, counted};
ghost use Rattle.files.specs.Filling.{grown};
ghost use Rattle.files.specs.Progress.{unstored};

use model::Span;
use records::Record;

/// The rows that the records of a network file fill: of the stops' names, of the walks, of the timetables and their connections,
/// of the roads and their points, and of the arcs.
#[derive(Clone, Copy, Debug, Default, Drop, PartialEq, Eq)]
pub struct Counts {
    pub stops: usize,
    pub walks: usize,
    pub timetables: usize,
    pub connections: usize,
    pub roads: usize,
    pub points: usize,
    pub arcs: usize,
}

/// The list that rows are added to: its place among the lists, and the rows that it has so far.
#[derive(Clone, Copy, Default, Drop)]
pub(crate) struct Listing {
    pub(crate) row: usize,
    pub(crate) span: Span,
}

/// The rows stored so far: their counts, the lists that the timetables and the roads are at, and the place after the last name.
#[derive(Clone, Copy, Default, Drop)]
pub(crate) struct Progress {
    pub(crate) counts: Counts,
    pub(crate) timetable: Listing,
    pub(crate) road: Listing,
    pub(crate) end: usize,
}

impl Progress {
    /// No rows yet; the first stop stands at a place of the file.
    pub(crate) fn start(end: usize) -> Progress
        ensures { result ≡ unstored end }
    {
        Progress {
            end,
            ..Progress::default()
        }
    }
}

impl Listing {
    /// The list that the next row belongs to, a new one or this one, with the row counted.
    pub(crate) fn extended(self, new: bool, lists: usize, rows: usize) -> Listing
        requires { self.span.len ≤ 4294967295 }
        ensures { result ≡ grown (if new then (record { row = lists; span = record { start = rows; len = 0 } }) else self) }
    {
        let mut list = if new {
            Listing {
                row: lists,
                span: Span {
                    start: rows,
                    len: 0,
                },
            }
        } else {
            self
        };
        list.span.len += 1;
        list
    }
}

impl Counts {
    /// Whether a connection of that service is the first of its timetable: the service was not met before.
    pub(crate) fn begins_timetable(self, service: u32) -> bool
        requires { Few self }
        ensures { result ≡ (service == self.walks + self.timetables) }
    {
        service as usize == self.walks + self.timetables
    }

    /// Whether a point of that service is the first of its road.
    pub(crate) fn begins_road(self, service: u32) -> bool
        requires { Few self }
        ensures { result ≡ (service == self.walks + self.timetables + self.roads) }
    {
        service as usize == self.walks + self.timetables + self.roads
    }

    /// The counts with one record more. A timetable or road is counted with its first row, which has a service not met before.
    pub(crate) fn with(self, item: Record) -> Counts
        requires { Few self }
        ensures { result ≡ counted self (meant item.entry) }
    {
        let mut next = self;
        match item {
            Record::Stop(_) => next.stops += 1,
            Record::Walk(_) => next.walks += 1,
            Record::Connection { service, .. } => {
                if self.begins_timetable(service) {
                    next.timetables += 1;
                }
                next.connections += 1;
            }
            Record::Point { service, .. } => {
                if self.begins_road(service) {
                    next.roads += 1;
                }
                next.points += 1;
            }
            Record::Arc(_) => next.arcs += 1,
        }
        next
    }
}
