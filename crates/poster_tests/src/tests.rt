//! What a poster lists, in which order, when it refuses, and what it leaves alone.
use books::Timetables;
use model::{Arc, Connection, Span};
use network::Network;
use poster::{Departure, PosterRow, poster};

const UNUSED_ROW: PosterRow = PosterRow {
    departure: 1,
    arrival: 2,
    arc: 3,
};

const UNUSED_SLOT: Departure = Departure {
    departure: 4,
    arc: 5,
    place: 6,
};

// The number of the book's first service.
const FIRST_SERVICE: u32 = 5;

const fn row(departure: u32, arrival: u32, arc: u32) -> PosterRow {
    PosterRow {
        departure,
        arrival,
        arc,
    }
}

const fn arc(tail: u32, head: u32, service: u32) -> Arc {
    Arc::new(tail, head, 1, service)
}

// From stop 0 services before, of and after the book's, one of them on two arcs; from stop 1 two of the book's; from stop 2 none.
fn arcs() -> [Arc; 7] {
    [
        arc(0, 1, 4),
        arc(0, 1, 5),
        arc(0, 2, 6),
        arc(0, 2, 6),
        arc(0, 2, 8),
        arc(1, 0, 5),
        arc(1, 2, 7),
    ]
}

fn connections() -> [Connection; 6] {
    [
        Connection::new(600, 2_400),
        Connection::new(900, 1_800),
        Connection::new(900, 1_700),
        Connection::new(600, 700),
        Connection::new(900, 1_000),
        Connection::new(100, 200),
    ]
}

fn spans() -> [Span; 3] {
    [Span::new(0, 3), Span::new(3, 2), Span::new(5, 1)]
}

// Whether the first rows are the expected ones, and the others unused.
fn holds(rows: &[PosterRow], expected: &[PosterRow]) -> bool {
    rows.starts_with(expected)
        && rows
            .iter()
            .skip(expected.len())
            .all(|row| *row == UNUSED_ROW)
}

// Whether all slots are unused.
fn unused(slots: &[Departure]) -> bool {
    slots.iter().all(|slot| *slot == UNUSED_SLOT)
}

// Whether the poster of a stop and a second has these rows.
fn lists(
    network: Network<'_>,
    timetables: &Timetables<'_>,
    stop: u32,
    second: u32,
    expected: &[PosterRow],
) -> bool {
    let mut slots = [UNUSED_SLOT; 5];
    let mut rows = [UNUSED_ROW; 9];
    let answer = poster(
        network,
        timetables,
        FIRST_SERVICE,
        stop,
        second,
        &mut slots,
        &mut rows,
    );
    match answer {
        Ok(count) => count == expected.len() && holds(&rows, expected),
        Err(_) => false,
    }
}

// The number of the refusal, since numbers are what is expected from outside, if there is one and the rows, and up to 52 the slots too, are as they were.
fn refused(
    network: Network<'_>,
    timetables: &Timetables<'_>,
    stop: u32,
    second: u32,
    slots: &mut [Departure],
    rows: &mut [PosterRow],
) -> Option<u8> {
    let answer = poster(
        network,
        timetables,
        FIRST_SERVICE,
        stop,
        second,
        slots,
        rows,
    );
    match answer {
        Ok(_) => None,
        Err(refusal) => {
            let number = refusal.number();
            if holds(rows, &[]) && (number == 53 || unused(slots)) {
                Some(number)
            } else {
                None
            }
        }
    }
}

#[test]
fn departures(rt: HostRuntime) {
    let arcs = arcs();
    let connections = connections();
    let spans = spans();
    let mut network = Network::empty();
    assert!(rt; network.lay(3, &arcs).is_ok());
    let mut timetables = Timetables::empty();
    assert!(rt; timetables.lay(&connections, &spans).is_ok());
    assert!(rt;
        lists(
            network,
            &timetables,
            0,
            600,
            &[
                row(600, 2_400, 1),
                row(600, 700, 2),
                row(600, 700, 3),
                row(900, 1_800, 1),
                row(900, 1_700, 1),
                row(900, 1_000, 2),
                row(900, 1_000, 3),
            ],
        )
    );
    assert!(rt;
        lists(
            network,
            &timetables,
            0,
            601,
            &[
                row(900, 1_800, 1),
                row(900, 1_700, 1),
                row(900, 1_000, 2),
                row(900, 1_000, 3),
            ],
        )
    );
    assert!(rt;
        lists(
            network,
            &timetables,
            1,
            0,
            &[
                row(100, 200, 6),
                row(600, 2_400, 5),
                row(900, 1_800, 5),
                row(900, 1_700, 5),
            ],
        )
    );
    assert!(rt; lists(network, &timetables, 0, 901, &[]));
    assert!(rt; lists(network, &timetables, 2, 0, &[]));
}

#[test]
fn refusals(rt: HostRuntime) {
    let arcs = arcs();
    let connections = connections();
    let spans = spans();
    let mut network = Network::empty();
    assert!(rt; network.lay(3, &arcs).is_ok());
    let mut timetables = Timetables::empty();
    assert!(rt; timetables.lay(&connections, &spans).is_ok());
    let mut few_slots = [UNUSED_SLOT; 4];
    let mut slots = [UNUSED_SLOT; 5];
    let mut few_rows = [UNUSED_ROW; 6];
    let mut rows = [UNUSED_ROW; 7];
    assert!(rt;
        refused(
            network,
            &timetables,
            3,
            172_801,
            &mut few_slots,
            &mut few_rows,
        ) == Some(1)
    );
    assert!(rt;
        refused(
            network,
            &timetables,
            0,
            172_801,
            &mut few_slots,
            &mut few_rows,
        ) == Some(3)
    );
    assert!(rt; refused(network, &timetables, 0, 600, &mut few_slots, &mut few_rows) == Some(52));
    assert!(rt; refused(network, &timetables, 0, 901, &mut few_slots, &mut few_rows) == Some(52));
    assert!(rt; refused(network, &timetables, 0, 600, &mut slots, &mut few_rows) == Some(53));
    assert!(rt; refused(network, &timetables, 0, 600, &mut slots, &mut rows).is_none());
    assert!(rt; refused(network, &timetables, 2, 172_800, &mut [], &mut []).is_none());
}
