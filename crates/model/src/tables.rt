//! The rows of the tables that service books stand on.
ghost use Rattle.std.specs.Prelude.{◌≡◌, ◌+◌};

/// One run of a service: it leaves at one second and arrives at another.
#[derive(Clone, Copy, Debug, Default, Drop, PartialEq, Eq)]
pub struct Connection {
    pub departure: u32,
    pub arrival: u32,
}

/// The travel time of one who sets out on a road at a second.
#[derive(Clone, Copy, Debug, Default, Drop, PartialEq, Eq)]
pub struct Point {
    pub second: u32,
    pub travel: u32,
}

/// The part of a table that holds one service's list: `len` rows from `start` on.
// no list of lists: tables are lent, by hosts without a heap too, and files have their lists in a row
#[derive(Clone, Copy, Debug, Default, Drop, PartialEq, Eq)]
pub struct Span {
    pub start: usize,
    pub len: usize,
}

impl Connection {
    /// The connection from a departure to an arrival.
    pub const fn new(departure: u32, arrival: u32) -> Connection
        ensures { result ≡ record { departure = departure; arrival = arrival } }
    {
        Connection { departure, arrival }
    }
}

impl Point {
    /// The point of a second and a travel time.
    pub const fn new(second: u32, travel: u32) -> Point
        ensures { result ≡ record { second = second; travel = travel } }
    {
        Point { second, travel }
    }

    /// The second of arrival, which may be above what 32 bits hold.
    pub fn reached(self) -> u64
        ensures { result ≡ self.second + self.travel }
    {
        self.second as u64 + self.travel as u64
    }
}

impl Span {
    /// The span of `len` rows from `start` on.
    pub const fn new(start: usize, len: usize) -> Span
        ensures { result ≡ record { start = start; len = len } }
    {
        Span { start, len }
    }
}
