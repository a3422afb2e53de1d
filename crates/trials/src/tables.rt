//! The network and the books of the run.
use book::Bank;
use books::{BookFault, Timetables, Walks};
use model::{Arc, Connection, Span};
use network::{Network, NetworkFault};

const STOPS: u32 = 4;

/// The tables that the network and the books stand on: services 0 to 2 are walks in both books, service 3 is a bus in the first.
#[derive(Drop)]
pub struct Tables {
    arcs: [Arc; 4],
    walks: [u32; 3],
    connections: [Connection; 2],
    timetables: [Span; 1],
    other_walks: [u32; 4],
}

impl Tables {
    pub fn new() -> Tables {
        Tables {
            arcs: [
                Arc::new(0, 1, 0, 0),
                Arc::new(0, 2, 0, 1),
                Arc::new(1, 3, 1, 3),
                Arc::new(2, 3, 0, 2),
            ],
            walks: [300, 600, 1_200],
            connections: [Connection::new(1_000, 1_400), Connection::new(2_000, 2_400)],
            timetables: [Span::new(0, 2)],
            other_walks: [300, 600, 1_200, 900],
        }
    }

    /// The network of the tables.
    pub fn network<'a>(&'a self) -> Result<Network<'a>, NetworkFault> {
        Network::new(STOPS, &self.arcs)
    }

    /// The book of walks and a timetable.
    pub fn bank<'a>(&'a self) -> Result<Bank<Walks<'a>, Timetables<'a>>, BookFault> {
        Ok(Bank {
            first: Walks::new(&self.walks)?,
            second: Timetables::new(&self.connections, &self.timetables)?,
        })
    }

    /// The book of walks alone.
    pub fn other_walks<'a>(&'a self) -> Result<Walks<'a>, BookFault> {
        Walks::new(&self.other_walks)
    }
}
