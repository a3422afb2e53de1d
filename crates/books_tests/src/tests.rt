//! Each book's answers at the edges of its tables, and the first fault that its maker names.
use book::{Bank, Book};
use books::{BookFault, Field, Roads, Timetables, Walks};
use model::{Connection, Point, Span};

// Whether a book answers each service and coming so.
fn answers<B: Book>(book: &B, table: &[(u32, u32, Option<u32>)]) -> bool {
    table.iter().all(|(service, coming, arrival)| book.arrival(*service, *coming) == *arrival)
}

#[test]
fn walks(rt: HostRuntime) {
    let times = [0, 300, 86_400];
    let long = [86_400, 86_401, 86_402];
    let many = [0; 4_097];
    let mut book = Walks::empty();
    assert!(rt; book.lay(&times).is_ok());
    assert!(rt; book.lay(&long) == Err(BookFault::WalkTooLong(1)));
    assert!(rt; book.lay(&many) == Err(BookFault::TooManyServices));
    assert!(rt; book.count() == 3);
    assert!(rt;
        answers(
            &book,
            &[
                (0, 0, Some(0)),
                (0, 172_800, Some(172_800)),
                (0, 172_801, None),
                (1, 172_500, Some(172_800)),
                (1, 172_501, None),
                (2, 86_400, Some(172_800)),
                (2, 86_401, None),
                (3, 0, None),
            ],
        )
    );
}

#[test]
fn timetables(rt: HostRuntime) {
    let connections = [
        Connection::new(600, 2_400),
        Connection::new(900, 1_800),
        Connection::new(900, 900),
        Connection::new(172_800, 172_800),
        Connection::new(7, 9),
        Connection::new(7, 8),
    ];
    let spans = [
        Span::new(0, 2),
        Span::new(2, 2),
        Span::new(3, 1),
        Span::new(4, 2),
    ];
    let mut book = Timetables::empty();
    assert!(rt; book.lay(&connections, &spans).is_ok());
    let outside = [Span::new(5, 2)];
    assert!(rt; book.lay(&connections, &outside) == Err(BookFault::ListOutside(0)));
    assert!(rt; book.count() == 4);
    assert!(rt;
        answers(
            &book,
            &[
                (0, 0, Some(1_800)),
                (0, 600, Some(1_800)),
                (0, 900, Some(1_800)),
                (0, 901, None),
                (1, 900, Some(900)),
                (1, 901, Some(172_800)),
                (2, 0, Some(172_800)),
                (2, 172_800, Some(172_800)),
                (2, 172_801, None),
                (3, 7, Some(8)),
                (3, 8, None),
                (4, 0, None),
            ],
        )
    );
}

#[test]
fn rows_at_fault(rt: HostRuntime) {
    let spans = [Span::new(0, 1), Span::new(0, 2)];
    let connections = [
        (Connection::new(599, 2_400), Field::Departure),
        (Connection::new(172_801, 172_801), Field::Departure),
        (Connection::new(900, 899), Field::Arrival),
        (Connection::new(900, 172_801), Field::Arrival),
    ];
    for (row, field) in &connections {
        let table = [Connection::new(600, 2_400), *row];
        let made = Timetables::new(&table, &spans);
        assert!(rt; made.err() == Some(BookFault::Row(1, 1, *field)));
    }
    let points = [
        (Point::new(5, 600), Field::Departure),
        (Point::new(172_801, 0), Field::Departure),
        (Point::new(6, 598), Field::Arrival),
        (Point::new(172_800, 4_294_967_295), Field::Arrival),
    ];
    for (row, field) in &points {
        let table = [Point::new(5, 600), *row];
        let made = Roads::new(&table, &spans);
        assert!(rt; made.err() == Some(BookFault::Row(1, 1, *field)));
    }
}

#[test]
fn lists_at_fault(rt: HostRuntime) {
    let equal = [Connection::new(5, 9); 513];
    let full = [Span::new(0, 1), Span::new(1, 512)];
    let book = Timetables::new(&equal, &full).expect(&rt, "full lists");
    for list in &[Span::new(0, 0), Span::new(0, 513)] {
        let spans = [Span::new(0, 1), *list];
        let made = Timetables::new(&equal, &spans);
        assert!(rt; made.err() == Some(BookFault::ListLength(1)));
    }
    for list in &[Span::new(2, 512), Span::new(514, 1)] {
        let spans = [Span::new(0, 1), *list];
        let made = Timetables::new(&equal, &spans);
        assert!(rt; made.err() == Some(BookFault::ListOutside(1)));
    }
    let points = [Point::new(0, 0)];
    let spans = [Span::new(0, 97)];
    let made = Roads::new(&points, &spans);
    assert!(rt; made.err() == Some(BookFault::ListLength(0)));
    assert!(rt; answers(&book, &[(1, 5, Some(9)), (1, 6, None), (2, 5, None)]));
}

#[test]
fn roads(rt: HostRuntime) {
    let points = [
        Point::new(0, 600),
        Point::new(1_000, 200),
        Point::new(100, 50),
    ];
    let spans = [Span::new(0, 2), Span::new(2, 1)];
    let mut book = Roads::empty();
    assert!(rt; book.lay(&points, &spans).is_ok());
    let outside = [Span::new(2, 2)];
    assert!(rt; book.lay(&points, &outside) == Err(BookFault::ListOutside(0)));
    assert!(rt;
        answers(
            &book,
            &[
                (0, 0, Some(600)),
                (0, 333, Some(799)),
                (0, 999, Some(1_199)),
                (0, 1_000, Some(1_200)),
                (0, 172_600, Some(172_800)),
                (0, 172_601, None),
                (1, 0, Some(50)),
                (1, 100, Some(150)),
                (1, 101, Some(151)),
                (2, 0, None),
            ],
        )
    );
}

#[test]
fn banks(rt: HostRuntime) {
    let times = [10, 30];
    let walks = Walks::new(&times).expect(&rt, "walks");
    let points = [Point::new(0, 20)];
    let spans = [Span::new(0, 1)];
    let roads = Roads::new(&points, &spans).expect(&rt, "roads");
    let bank = Bank {
        first: &walks,
        second: roads,
    };
    assert!(rt; bank.count() == 3);
    assert!(rt;
        answers(
            &bank,
            &[
                (0, 5, Some(15)),
                (1, 5, Some(35)),
                (2, 5, Some(25)),
                (3, 5, None),
                (4_294_967_295, 5, None),
            ],
        )
    );
}
