//! Worked examples.
ghost use Rattle.std.specs.Prelude.{◌≡◌, [], ◌∷◌, Some, None};
ghost use Rattle.books.specs.Examples.{BookExamples};

use crate::roads::Roads;
use crate::timetables::Timetables;
use crate::walks::Walks;
use book::Book;
use model::{Connection, Point, Span};

/// The arrivals of the worked examples: by the timetable from 0, 600, 900 and 901, by the road from 0, 333, 999 and 1,000, and on foot
/// from 172,500 and 172,501.
pub fn worked_examples() -> [Option<u32>; 10]
    ensures examples { BookExamples }
    ensures arrivals { result ≡ Some 1800 ∷ Some 1800 ∷ Some 1800 ∷ None ∷ Some 600 ∷ Some 799 ∷ Some 1199 ∷ Some 1200 ∷ Some 172800 ∷ None ∷ [] }
{
    let one_service = [Span::new(0, 2)];
    let connections = [Connection::new(600, 2_400), Connection::new(900, 1_800)];
    let points = [Point::new(0, 600), Point::new(1_000, 200)];
    let by_timetable = Timetables::new(&connections, &one_service).unwrap();
    let by_road = Roads::new(&points, &one_service).unwrap();
    let on_foot = Walks::new(&[300]).unwrap();
    [
        by_timetable.arrival(0, 0),
        by_timetable.arrival(0, 600),
        by_timetable.arrival(0, 900),
        by_timetable.arrival(0, 901),
        by_road.arrival(0, 0),
        by_road.arrival(0, 333),
        by_road.arrival(0, 999),
        by_road.arrival(0, 1_000),
        on_foot.arrival(0, 172_500),
        on_foot.arrival(0, 172_501),
    ]
}
