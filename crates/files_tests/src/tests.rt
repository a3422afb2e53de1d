//! A sound network file, each of its truncations, and files with one fault each.
use files::{FileTables, Loaded, load};
use model::{Arc, Connection, Layer, Point, Span};
use std::test::Fail;
use wire::Fault;

/// Three stops, a walk of 300, a timetable of two connections, a road of two points, and three arcs.
const FILE: [u8; 43] = [
    0x01, 0x03, 0x01, 0x51, 0x01, 0x43, 0x01, 0x50, 0x01, 0xac, 0x02, 0x01, 0x02, 0xd8, 0x04, 0x88,
    0x0e, 0xac, 0x02, 0x84, 0x07, 0x01, 0x02, 0x00, 0xd8, 0x04, 0xe8, 0x07, 0xc8, 0x01, 0x03, 0x00,
    0x01, 0x00, 0x00, 0x00, 0x02, 0x02, 0x01, 0x01, 0x02, 0x04, 0x02,
];

// Loads a file into tables that just hold the sound one.
fn loaded(file: &[u8]) -> Result<Loaded, Fault> {
    let mut tables = FileTables {
        names: &mut [Span::default(); 3],
        walks: &mut [0; 1],
        timetables: &mut [Span::default(); 1],
        connections: &mut [Connection::default(); 2],
        roads: &mut [Span::default(); 1],
        points: &mut [Point::default(); 2],
        arcs: &mut [Arc::default(); 3],
    };
    load(file, &mut tables)
}

// Whether a file is refused by this number, at this place and in this layer.
fn refused(file: &[u8], number: u8, place: usize, layer: Layer) -> bool {
    loaded(file).is_err_and(|fault| {
        fault.refusal.number() == number && fault.at == place && fault.layer() == layer
    })
}

// Whether the sound file with one byte changed is refused so.
fn changed(at: usize, byte: u8, number: u8, place: usize, layer: Layer) -> bool {
    let mut file = FILE;
    if at < 43 {
        file[at] = byte;
    }
    refused(&file, number, place, layer)
}

#[test]
fn sound(rt: HostRuntime) -> Result<(), Fail> {
    match loaded(&FILE) {
        Ok(l) => {
            assert_eq!(rt; l.end, 43);
            assert_eq!(rt; l.counts.stops, 3);
            assert_eq!(rt; l.counts.connections, 2);
            assert_eq!(rt; l.counts.points, 2);
            assert_eq!(rt; l.counts.arcs, 3);
            Ok(())
        }
        Err(_) => {
            assert!(rt; false);
            Ok(())
        },
    }
}

#[test]
fn rows(rt: HostRuntime) {
    let mut names = [Span::default(); 4];
    let mut walks = [7u32; 2];
    let mut timetables = [Span::default(); 1];
    let mut connections = [Connection::default(); 2];
    let mut roads = [Span::default(); 1];
    let mut points = [Point::default(); 2];
    let mut arcs = [Arc::default(); 3];
    let mut tables = FileTables {
        names: &mut names,
        walks: &mut walks,
        timetables: &mut timetables,
        connections: &mut connections,
        roads: &mut roads,
        points: &mut points,
        arcs: &mut arcs,
    };
    let _ = load(&FILE, &mut tables);
    assert_eq!(rt; names[1].start, 5);
    assert_eq!(rt; names[1].len, 1);
    assert_eq!(rt; walks[0], 300);
    assert_eq!(rt; walks[1], 7);
    assert_eq!(rt; timetables[0].len, 2);
    assert_eq!(rt; connections[1].departure, 900);
    assert_eq!(rt; connections[1].arrival, 1800);
    assert_eq!(rt; roads[0].len, 2);
    assert_eq!(rt; points[1].second, 1000);
    assert_eq!(rt; points[1].travel, 200);
    assert_eq!(rt; arcs[2].service, 2);
}

#[test]
fn every_truncation_ends_early(rt: HostRuntime) {
    for n in 0..43usize {
        match loaded(&FILE[..n]) {
            Ok(_) => assert!(rt; false),
            Err(fault) => assert_eq!(rt; fault.refusal.number(), 26),
        }
    }
}

#[test]
fn faults(rt: HostRuntime) {
    assert!(rt; changed(0, 2, 30, 0, Layer::Network));
    assert!(rt; changed(1, 0, 21, 1, Layer::Network));
    assert!(rt; changed(2, 0, 29, 2, Layer::Record));
    assert!(rt; changed(2, 41, 29, 2, Layer::Record));
    assert!(rt; changed(2, 40, 26, 43, Layer::Number));
    assert!(rt; refused(&[1, 1, 5, 65, 66], 26, 3, Layer::Number));
    assert!(rt; changed(10, 0, 27, 9, Layer::Number));
    assert!(rt; changed(12, 0, 28, 12, Layer::Record));
    assert!(rt; changed(22, 97, 28, 22, Layer::Record));
    assert!(rt; changed(26, 0, 28, 26, Layer::Record));
    assert!(rt; changed(31, 3, 23, 31, Layer::Network));
    assert!(rt; changed(32, 3, 23, 32, Layer::Network));
    assert!(rt; changed(33, 6, 23, 33, Layer::Network));
    assert!(rt; changed(34, 3, 25, 34, Layer::Network));
    assert!(rt; changed(35, 2, 24, 39, Layer::Network));
}

#[test]
fn a_short_table_is_refused_at_the_end(rt: HostRuntime) {
    let file = [1u8, 4, 1, 65, 1, 66, 1, 67, 1, 68, 0, 0, 0, 0];
    assert!(rt; refused(&file, 54, 14, Layer::Network));
}

#[test]
fn counts_one_past_the_largest(rt: HostRuntime) {
    // 1,025 stops; 4,097 walks; a walk of 86,401; 8,193 arcs
    assert!(rt; refused(&[1, 0x81, 0x08], 21, 1, Layer::Network));
    assert!(rt; refused(&[1, 0x80, 0x08], 26, 3, Layer::Number));
    assert!(rt; refused(&[1, 1, 1, 65, 0x81, 0x20], 28, 4, Layer::Record));
    assert!(rt; refused(&[1, 1, 1, 65, 0x80, 0x20], 26, 6, Layer::Number));
    assert!(rt; refused(&[1, 1, 1, 65, 1, 0x81, 0xa3, 0x05], 28, 5, Layer::Record));
    assert!(rt; refused(&[1, 1, 1, 65, 1, 0x80, 0xa3, 0x05], 26, 8, Layer::Number));
    assert!(rt; refused(&[1, 1, 1, 65, 0, 0, 0, 0x81, 0x40], 22, 7, Layer::Network));
    assert!(rt; refused(&[1, 1, 1, 65, 0, 0, 0, 0x80, 0x40], 26, 9, Layer::Number));
}
