//! A whole network, written.
ghost use Rattle.std.specs.Prelude.{◌≡◌, ◌≤◌};
ghost use Rattle.writer.specs.Emission.{Emits};
ghost use Rattle.writer.specs.Lent.{lists};
ghost use Rattle.writer.specs.Networks.{network_refusal, network_bytes, Writes};

use crate::cursor::{Cursor, Limits};
use crate::item::{Arcs, Connections, Names, Parts, Points, Walks};
use crate::list::emit_list;
use crate::tables::LentTables;
use formats::NETWORK_FORM;
use model::{MOST_ARCS, MOST_CONNECTIONS, MOST_POINTS, MOST_SERVICES, MOST_STOPS, Refusal};

/// How many stops there may be.
const STOPS: Limits = Limits {
    low: 1,
    high: MOST_STOPS as usize,
    refusal: Refusal::StopCount,
};
/// How many services of one kind.
const SERVICES: Limits = Limits {
    low: 0,
    high: MOST_SERVICES as usize,
    refusal: Refusal::ServiceField,
};
/// How many connections of a timetable.
const TIMETABLE: Limits = Limits {
    low: 1,
    high: MOST_CONNECTIONS as usize,
    refusal: Refusal::ServiceField,
};
/// How many points of a road.
const ROAD: Limits = Limits {
    low: 1,
    high: MOST_POINTS as usize,
    refusal: Refusal::ServiceField,
};
/// How many arcs.
const ARCS: Limits = Limits {
    low: 0,
    high: MOST_ARCS as usize,
    refusal: Refusal::ArcCount,
};

/// The network, if there is room for it; the place goes on behind it in any case.
fn emit_network(stop_count: u32, tables: LentTables<'_>, to: &mut Cursor<'_>) -> Result<(), Refusal>
    requires { to.old.at ≡ 0 }
    ensures { Emits 25175070 (network_refusal stop_count (lists tables.entry)) (network_bytes (lists tables.entry)) tt to.old to.new result }
{
    if tables.stops.len() != stop_count as usize {
        return Err(Refusal::StopCount);
    }
    to.number(NETWORK_FORM);
    let names = Names {
        table: tables.names,
    };
    emit_list(&names, STOPS, (), tables.stops, to)?;
    emit_list(&Walks, SERVICES, (), tables.walks, to)?;
    let timetables = Parts {
        table: tables.connections,
        limits: TIMETABLE,
        first: 0,
        kind: Connections,
    };
    emit_list(&timetables, SERVICES, (), tables.timetables, to)?;
    let roads = Parts {
        table: tables.points,
        limits: ROAD,
        first: None,
        kind: Points,
    };
    emit_list(&roads, SERVICES, (), tables.roads, to)?;
    let arcs = Arcs {
        stops: stop_count,
        services: (tables.walks.len() + tables.timetables.len() + tables.roads.len()) as u32,
    };
    emit_list(&arcs, ARCS, 0, tables.arcs, to)
}

/// Writes a network of so many stops as a file at the front of `output`, and answers the file's length. What lies behind the file
/// is kept, and a refusal leaves the output as it is.
pub fn write_network(
    stop_count: u32,
    tables: LentTables<'_>,
    output: &mut [u8],
) -> Result<usize, Refusal>
    ensures { Writes stop_count (lists tables.entry) output.old output.new result }
{
    let mut nothing: [u8; 0] = [];
    let mut measure = Cursor {
        out: &mut nothing,
        at: 0,
    };
    emit_network(stop_count, tables, &mut measure)?;
    let len = measure.at;
    if output.len() < len {
        return Err(Refusal::OutputShort);
    }
    let mut to = Cursor { out: output, at: 0 };
    emit_network(stop_count, tables, &mut to)?;
    Ok(len)
}
