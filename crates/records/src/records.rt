//! A file's records from some place on.
ghost use Rattle.std.specs.Prelude.{◌≤◌};

mod next;

use model::Point;
use wire::Reader;

/// The part of the file that a reader of records stands in, with how much of it is left.
#[derive(Clone, Copy, Drop)]
pub(crate) enum Section {
    Front,
    Stops {
        left: u32,
    },
    Walks {
        left: u32,
    },
    Timetables {
        left: u32,
    },
    Connections {
        service: u32,
        lists: u32,
        left: u32,
        last: u32,
    },
    Roads {
        left: u32,
    },
    Points {
        service: u32,
        lists: u32,
        left: u32,
        before: Option<Point>,
    },
    Arcs {
        left: u32,
        last: u32,
    },
    End,
}

/// The records of a file, one at a time: the reader of its bytes, the part that it stands in, and the counts that it has met.
#[derive(Drop)]
pub struct Records<'a> {
    reader: Reader<'a>,
    section: Section,
    stops: u32,
    walks: u32,
    timetables: u32,
    roads: u32,
    ghost few_walks: { walks ≤ 4096 },
    ghost few_timetables: { timetables ≤ 4096 },
    ghost few_roads: { roads ≤ 4096 },
}
