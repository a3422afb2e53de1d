//! How the things that a network file lists are written.
ghost use Rattle.std.specs.Prelude.{◌≡◌, ◌+◌, ◌*◌, ◌^◌, ◌≤◌, ◌&&◌, true, false, length, MatchOption, nat_le};
ghost use Rattle.model.specs.Clock.{horizon};
ghost use Rattle.formats.specs.NetworkFile.{departed, passed, left, reached, least_second, least_reached};
ghost use Rattle.meanings.specs.Spans.{rows};
ghost use Rattle.writer.specs.Emission.{answered};
ghost use Rattle.writer.specs.Parts.{lies, part_refusal, part_bytes, name_refusal, name_bytes, walk_refusal, walk_bytes, connection_refusal, connection_bytes, point_refusal, point_bytes, arc_refusal, arc_bytes, onward};

use crate::cursor::{Cursor, Limits};
use crate::list::{Listed, emit_list};
use formats::{least_arrival, least_second, second_before};
use model::{Arc, Connection, HORIZON, LABELS, LONGEST_NAME, LONGEST_WALK, Point, Refusal, Span};

/// A name's bytes.
const NAME: Limits = Limits {
    low: 1,
    high: LONGEST_NAME as usize,
    refusal: Refusal::NameLength,
};
/// A walk's seconds.
const WALK: Limits = Limits {
    low: 0,
    high: LONGEST_WALK as usize,
    refusal: Refusal::ServiceField,
};

/// The part of a table that a row names, if it lies within the table.
fn part<T>(table: &[T], row: Span) -> Option<&[T]>
    ensures { MatchOption result (lies table.now row ≡ false) (λ part. (lies table.now row ≡ true) × (part.now ≡ rows table.now row)) }
{
    if row.start <= table.len() && row.len <= table.len() - row.start {
        Some(&table[row.start..row.start + row.len])
    } else {
        None
    }
}

/// Stops, each a name that is a part of a table, with its length before it.
#[derive(Clone, Copy, Drop)]
pub(crate) struct Names<'a> {
    pub(crate) table: &'a [u8],
}

impl Listed<Span, ()> for Names<'_> {
    ghost refusal = { λ it. name_refusal it.table.now };

    ghost bytes = { λ it. name_bytes it.table.now };

    ghost next = { onward };

    ghost most = { λ _. 45 };

    fn emit(&self, _before: (), row: Span, to: &mut Cursor<'_>) -> Result<(), Refusal> {
        let name = part(self.table, row).ok_or(Refusal::NameLength)?;
        to.number_in(NAME, name.len())?;
        to.bytes(name);
        Ok(())
    }
}

/// Walks, each its seconds.
#[derive(Clone, Copy, Drop)]
pub(crate) struct Walks;

impl Listed<u32, ()> for Walks {
    ghost refusal = { λ _. walk_refusal };

    ghost bytes = { λ _. walk_bytes };

    ghost next = { onward };

    ghost most = { λ _. 5 };

    fn emit(&self, _before: (), seconds: u32, to: &mut Cursor<'_>) -> Result<(), Refusal> {
        to.number_in(WALK, seconds as usize)
    }
}

/// Connections, each after one that departs at the second `last`.
#[derive(Clone, Copy, Drop)]
pub(crate) struct Connections;

impl Listed<Connection, u32> for Connections {
    ghost refusal = { λ _. connection_refusal };

    ghost bytes = { λ _. connection_bytes };

    ghost next = { departed };

    ghost most = { λ _. 10 };

    fn emit(&self, last: u32, c: Connection, to: &mut Cursor<'_>) -> Result<u32, Refusal> {
        if last > c.departure || c.departure > c.arrival || c.arrival > HORIZON {
            return Err(Refusal::ServiceField);
        }
        to.pair(c.departure - last, c.arrival - c.departure);
        Ok(c.departure)
    }
}

/// Points of a road, each after another.
#[derive(Clone, Copy, Drop)]
pub(crate) struct Points;

impl Listed<Point, Option<Point>> for Points {
    ghost refusal = { λ _. point_refusal };

    ghost bytes = { λ _. point_bytes };

    ghost next = { passed };

    ghost most = { λ _. 10 };

    fn emit(
        &self,
        before: Option<Point>,
        p: Point,
        to: &mut Cursor<'_>,
    ) -> Result<Option<Point>, Refusal> {
        if !follows(before, p) {
            return Err(Refusal::ServiceField);
        }
        to.pair(p.second - second_before(before), p.travel);
        Ok(Some(p))
    }
}

/// Whether a point may follow another on a road, if there is one.
fn follows(before: Option<Point>, p: Point) -> bool
    ensures { result ≡ (nat_le (least_second before) p.second && (nat_le (least_reached before) (reached p) && nat_le (reached p) horizon)) }
{
    let arrival = p.reached();
    arrival <= HORIZON as u64
        && least_second(before) <= p.second as u64
        && least_arrival(before) <= arrival
}

/// Arcs, each after one whose tail is `last`.
#[derive(Clone, Copy, Drop)]
pub(crate) struct Arcs {
    pub(crate) stops: u32,
    pub(crate) services: u32,
}

impl Listed<Arc, u32> for Arcs {
    ghost refusal = { λ it. arc_refusal it.stops it.services };

    ghost bytes = { λ _. arc_bytes };

    ghost next = { left };

    ghost most = { λ _. 20 };

    fn emit(&self, last: u32, a: Arc, to: &mut Cursor<'_>) -> Result<u32, Refusal> {
        self.admits(last, a)?;
        to.pair(a.tail, a.head);
        to.pair(a.label, a.service);
        Ok(a.tail)
    }
}

impl Arcs {
    /// The rules that an arc keeps.
    fn admits(&self, last: u32, a: Arc) -> Result<(), Refusal>
        ensures { result ≡ answered (arc_refusal self.now.stops self.now.services last a) tt }
    {
        if a.tail >= self.stops || a.head >= self.stops || a.label >= LABELS {
            return Err(Refusal::ArcField);
        }
        if a.service >= self.services {
            return Err(Refusal::NoSuchService);
        }
        if a.tail < last {
            return Err(Refusal::TailFalls);
        }
        Ok(())
    }
}

/// Lists of one kind, each the part of a table that a row names. `B` is what the items before one say of it.
#[derive(Clone, Copy, Drop)]
pub(crate) struct Parts<'a, T, B, K> {
    pub(crate) table: &'a [T],
    pub(crate) limits: Limits,
    pub(crate) first: B,
    pub(crate) kind: K,
}

impl<T: Copy + Drop, B: Copy + Drop, K: Listed<T, B>> Listed<Span, ()> for Parts<'_, T, B, K> {
    ghost refusal = { λ it _ row. part_refusal it.limits.low it.limits.high it.limits.refusal (K.refusal it.kind) K.next it.first it.table.now row };

    ghost bytes = { λ it _ row. part_bytes (K.bytes it.kind) K.next it.first it.table.now row };

    ghost next = { onward };

    ghost most = { λ it. 5 + K.most it.kind * it.limits.high };

    fn emit(&self, _before: (), row: Span, to: &mut Cursor<'_>) -> Result<(), Refusal> {
        let list = part(self.table, row).ok_or(self.limits.refusal)?;
        emit_list(&self.kind, self.limits, self.first, list, to)
    }
}
