//! A network written back as it was loaded, and networks with one fault each.
use files::{FileTables, load};
use model::{Arc, Connection, Point, Refusal, Span};
use writer::{LentTables, write_network};

/// Three stops, a walk of 300, a timetable of two connections, a road of two points, and three arcs.
const FILE: [u8; 43] = [
    0x01, 0x03, 0x01, 0x51, 0x01, 0x43, 0x01, 0x50, 0x01, 0xac, 0x02, 0x01, 0x02, 0xd8, 0x04, 0x88,
    0x0e, 0xac, 0x02, 0x84, 0x07, 0x01, 0x02, 0x00, 0xd8, 0x04, 0xe8, 0x07, 0xc8, 0x01, 0x03, 0x00,
    0x01, 0x00, 0x00, 0x00, 0x02, 0x02, 0x01, 0x01, 0x02, 0x04, 0x02,
];

/// What an output holds before.
const OLD: u8 = 7;

/// The bytes that stops are named from.
const NAMES: [u8; 50] = [65; 50];

/// A network of two stops, a walk, a timetable, a road and two arcs.
#[derive(Clone, Copy, Drop)]
struct Network {
    count: u32,
    stops: [Span; 2],
    walks: [u32; 1],
    connections: [Connection; 2],
    timetables: [Span; 1],
    points: [Point; 2],
    roads: [Span; 1],
    arcs: [Arc; 2],
}

fn sound() -> Network {
    Network {
        count: 2,
        stops: [Span::new(0, 1), Span::new(49, 1)],
        walks: [300],
        connections: [Connection::new(600, 2_400), Connection::new(900, 1_800)],
        timetables: [Span::new(0, 2)],
        points: [Point::new(0, 600), Point::new(1_000, 200)],
        roads: [Span::new(0, 2)],
        arcs: [Arc::new(1, 0, 0, 0), Arc::new(1, 1, 5, 2)],
    }
}

// Loads the file and writes it back; the answer is its length, or the number of the refusal.
fn rewritten(output: &mut [u8]) -> Result<usize, u8> {
    let mut names = [Span::default(); 3];
    let mut walks = [0u32; 1];
    let mut timetables = [Span::default(); 1];
    let mut connections = [Connection::default(); 2];
    let mut roads = [Span::default(); 1];
    let mut points = [Point::default(); 2];
    let mut arcs = [Arc::default(); 3];
    let mut loaded = FileTables {
        names: &mut names,
        walks: &mut walks,
        timetables: &mut timetables,
        connections: &mut connections,
        roads: &mut roads,
        points: &mut points,
        arcs: &mut arcs,
    };
    let _ = load(&FILE, &mut loaded);
    let tables = LentTables {
        names: &FILE,
        stops: &names,
        walks: &walks,
        connections: &connections,
        timetables: &timetables,
        points: &points,
        roads: &roads,
        arcs: &arcs,
    };
    write_network(3, tables, output).map_err(|refusal| refusal.number())
}

fn written(n: &Network, output: &mut [u8]) -> Result<usize, Refusal> {
    let tables = LentTables {
        names: &NAMES,
        stops: &n.stops,
        walks: &n.walks,
        connections: &n.connections,
        timetables: &n.timetables,
        points: &n.points,
        roads: &n.roads,
        arcs: &n.arcs,
    };
    write_network(n.count, tables, output)
}

fn untouched(output: &[u8]) -> bool {
    output.iter().all(|byte| *byte == OLD)
}

// Whether a network is refused by this number, since numbers are what is expected from outside, and the output stays.
fn refused(n: Network, number: u8) -> bool {
    let mut output = [OLD; 80];
    let answer = written(&n, &mut output);
    answer.is_err_and(|refusal| refusal.number() == number) && untouched(&output)
}

// Whether a network is written in so many bytes.
fn taken(n: Network, len: usize) -> bool {
    let mut output = [OLD; 80];
    written(&n, &mut output).is_ok_and(|found| found == len)
}

fn with_count(count: u32) -> Network {
    let mut n = sound();
    n.count = count;
    n
}

fn with_stop(stop: Span) -> Network {
    let mut n = sound();
    n.stops[1] = stop;
    n
}

fn with_walk(seconds: u32) -> Network {
    let mut n = sound();
    n.walks[0] = seconds;
    n
}

fn with_connection(c: Connection) -> Network {
    let mut n = sound();
    n.connections[1] = c;
    n
}

fn with_timetable(row: Span) -> Network {
    let mut n = sound();
    n.timetables[0] = row;
    n
}

fn with_point(p: Point) -> Network {
    let mut n = sound();
    n.points[1] = p;
    n
}

fn with_road(row: Span) -> Network {
    let mut n = sound();
    n.roads[0] = row;
    n
}

fn with_arc(a: Arc) -> Network {
    let mut n = sound();
    n.arcs[1] = a;
    n
}

#[test]
fn a_loaded_file_is_written_back(rt: HostRuntime) {
    let mut output = [OLD; 45];
    assert!(rt; matches!(rewritten(&mut output), Ok(43)));
    assert!(rt; output.starts_with(&FILE));
    assert!(rt; untouched(&output[43..]));
    let mut short = [OLD; 42];
    assert!(rt; matches!(rewritten(&mut short), Err(55)));
    assert!(rt; untouched(&short));
}

#[test]
fn faults(rt: HostRuntime) {
    assert!(rt; taken(sound(), 37));
    assert!(rt; taken(with_stop(Span::new(10, 40)), 76));
    assert!(rt; taken(with_walk(86_400), 38));
    let cases = [
        (with_count(1), 21),
        (with_count(3), 21),
        (with_stop(Span::new(0, 0)), 29),
        (with_stop(Span::new(0, 41)), 29),
        (with_stop(Span::new(49, 2)), 29),
        (with_walk(86_401), 28),
        (with_connection(Connection::new(599, 1_800)), 28),
        (with_connection(Connection::new(900, 899)), 28),
        (with_connection(Connection::new(900, 172_801)), 28),
        (with_timetable(Span::new(0, 0)), 28),
        (with_timetable(Span::new(1, 2)), 28),
        (with_point(Point::new(0, 600)), 28),
        (with_point(Point::new(1, 598)), 28),
        (with_point(Point::new(172_800, 4_294_967_295)), 28),
        (with_road(Span::new(0, 0)), 28),
        (with_road(Span::new(3, 1)), 28),
        (with_arc(Arc::new(2, 1, 5, 2)), 23),
        (with_arc(Arc::new(1, 2, 5, 2)), 23),
        (with_arc(Arc::new(1, 1, 6, 2)), 23),
        (with_arc(Arc::new(0, 1, 5, 2)), 24),
        (with_arc(Arc::new(1, 1, 5, 3)), 25),
    ];
    for (network, number) in &cases {
        assert!(rt; refused(*network, *number));
    }
}

#[test]
fn no_stops_and_too_many_arcs(rt: HostRuntime) {
    let mut output = [OLD; 10];
    let nothing = LentTables {
        names: &[],
        stops: &[],
        walks: &[],
        connections: &[],
        timetables: &[],
        points: &[],
        roads: &[],
        arcs: &[],
    };
    assert!(rt;
        matches!(
            write_network(0, nothing, &mut output),
            Err(Refusal::StopCount)
        )
    );
    let many = LentTables {
        names: &NAMES,
        stops: &[Span::new(0, 1)],
        walks: &[0],
        arcs: &[Arc::default(); 8_193],
        ..nothing
    };
    assert!(rt; matches!(write_network(1, many, &mut output), Err(Refusal::ArcCount)));
    assert!(rt; untouched(&output));
}
