//! Tables that hold the contents of a network file.
ghost use Rattle.std.specs.Prelude.{◌≡◌, IfOk};
ghost use Rattle.formats.specs.NetworkFile.{network};
ghost use Rattle.files.specs.Loading.{loads};
ghost use Rattle.contents.specs.Held.{lists, blank};

use files::{Counts, FileTables, Loaded, load};
use model::{Arc, Connection, Point, Span};
use std::alloc::{AllocError, Global};
use wire::Fault;

/// The stops' names as their places in the file; the walks; the timetables as parts of the connections; the roads as parts of the
/// points; and the arcs.
// These tables are owned, those lent to be filled have `&mut`, and those lent to be written out `&`: no type is generic over the three.
#[derive(Drop)]
pub struct FileContents {
    pub names: Vec<Span>,
    pub walks: Vec<u32>,
    pub timetables: Vec<Span>,
    pub connections: Vec<Connection>,
    pub roads: Vec<Span>,
    pub points: Vec<Point>,
    pub arcs: Vec<Arc>,
}

impl FileContents {
    /// Tables of so many rows, all of them zeros.
    pub fn new(heap: Global, rows: Counts) -> Result<FileContents, AllocError>
        ensures { IfOk result (λ c. lists c ≡ blank rows) }
    {
        Ok(FileContents {
            names: vec![in heap; Span::default(); rows.stops]?,
            walks: vec![in heap; 0u32; rows.walks]?,
            timetables: vec![in heap; Span::default(); rows.timetables]?,
            connections: vec![in heap; Connection::default(); rows.connections]?,
            roads: vec![in heap; Span::default(); rows.roads]?,
            points: vec![in heap; Point::default(); rows.points]?,
            arcs: vec![in heap; Arc::default(); rows.arcs]?,
        })
    }

    /// Loads a network file. Each table is filled from the front, and keeps what lies behind. A file that is refused, or that has
    /// more rows than a table, leaves every table as it is.
    pub fn load(&mut self, file: &[u8]) -> Result<Loaded, Fault>
        ensures { (result, lists self.new) ≡ loads (network.read file.now 0) (lists self.old) }
    {
        load_lists(
            file,
            self.names.as_mut_slice(),
            self.walks.as_mut_slice(),
            self.timetables.as_mut_slice(),
            self.connections.as_mut_slice(),
            self.roads.as_mut_slice(),
            self.points.as_mut_slice(),
            self.arcs.as_mut_slice(),
        )
    }
}

/// Loads a network file into the seven tables. Slices lent out of vectors into one struct leave no proof of what the vectors hold
/// afterwards; lent to a call they do.
fn load_lists(
    file: &[u8],
    names: &mut [Span],
    walks: &mut [u32],
    timetables: &mut [Span],
    connections: &mut [Connection],
    roads: &mut [Span],
    points: &mut [Point],
    arcs: &mut [Arc],
) -> Result<Loaded, Fault>
    ensures { (result, record { names = names.new; walks = walks.new; timetables = timetables.new; connections = connections.new; roads = roads.new; points = points.new; arcs = arcs.new }) ≡ loads (network.read file.now 0) (record { names = names.old; walks = walks.old; timetables = timetables.old; connections = connections.old; roads = roads.old; points = points.old; arcs = arcs.old }) }
{
    let mut tables = FileTables {
        names,
        walks,
        timetables,
        connections,
        roads,
        points,
        arcs,
    };
    load(file, &mut tables)
}
