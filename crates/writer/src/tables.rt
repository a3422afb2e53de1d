//! A network as the tables that the writer is lent.
use model::{Arc, Connection, Point, Span};

/// Names, connections and points stand in tables of their own: a row of `stops`, `timetables` or `roads` is a part of `names`,
/// `connections` or `points`.
// These tables are lent to be read, with `&`; others own theirs, or lend them with `&mut`: no type is generic over the three.
#[derive(Clone, Copy, Drop)]
pub struct LentTables<'a> {
    pub names: &'a [u8],
    pub stops: &'a [Span],
    pub walks: &'a [u32],
    pub connections: &'a [Connection],
    pub timetables: &'a [Span],
    pub points: &'a [Point],
    pub roads: &'a [Span],
    pub arcs: &'a [Arc],
}
