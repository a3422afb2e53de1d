//! The records of a network file.
use model::{Arc, Connection, Point};

/// A record of a network file. A stop's name is a part of the file; a connection and a point come with the number of their service.
#[derive(Clone, Copy, Drop)]
pub enum Record<'a> {
    Stop(&'a [u8]),
    Walk(u32),
    Connection {
        service: u32,
        connection: Connection,
    },
    Point {
        service: u32,
        point: Point,
    },
    Arc(Arc),
}
