//! The tables that a network file is loaded into.
ghost use Rattle.std.specs.Prelude.{◌≡◌};
ghost use Rattle.files.specs.Lent.{lists};
ghost use Rattle.files.specs.Loading.{room};

use crate::rows::Counts;
use model::{Arc, Connection, Point, Span};

/// The stops' names as their places in the file; the walks; the timetables as parts of the connections; the roads as parts of the
/// points; and the arcs.
// These tables are lent to be filled, with `&mut`; others own theirs, or lend them with `&`: no type is generic over the three.
#[derive(Drop)]
pub struct FileTables<'a> {
    pub names: &'a mut [Span],
    pub walks: &'a mut [u32],
    pub timetables: &'a mut [Span],
    pub connections: &'a mut [Connection],
    pub roads: &'a mut [Span],
    pub points: &'a mut [Point],
    pub arcs: &'a mut [Arc],
}

impl FileTables<'_> {
    /// Whether the tables have so many rows.
    pub(crate) fn have_room(&self, counts: Counts) -> bool
        ensures { result ≡ room counts (lists self.now) }
    {
        counts.stops <= self.names.len()
            && counts.walks <= self.walks.len()
            && counts.timetables <= self.timetables.len()
            && counts.connections <= self.connections.len()
            && counts.roads <= self.roads.len()
            && counts.points <= self.points.len()
            && counts.arcs <= self.arcs.len()
    }
}
