//! Loading a network file into tables.
ghost use Rattle.std.specs.Prelude.{◌≡◌, slice_set};
ghost use Rattle.formats.specs.NetworkFile.{network};
ghost use Rattle.formats.specs.Theorems.{WritesBack};
ghost use Rattle.records.specs.Records.{meant};
ghost use Rattle.files.specs.Filling.{Short, Bounded, stored};
ghost use Rattle.files.specs.Making.{RowsHoldNames, FilesMakeBooksAndNetworks};
ghost use Rattle.files.specs.Progress.{filling, Fills};
ghost use Rattle.files.specs.Lent.{lists, SameReferences};
ghost use Rattle.files.specs.Loading.{Accepted, loads, measured};

use crate::rows::{Counts, Progress};
use crate::tables::FileTables;
use formats::NETWORK_FORM;
use model::{Refusal, Span};
use records::{Record, Records};
use wire::{Fault, encoded_len};

/// What a loaded network file holds: the rows that it fills, and the place after its last record.
#[derive(Clone, Copy, Drop)]
pub struct Loaded {
    pub counts: Counts,
    pub end: usize,
}

/// Loads a network file into tables. Each table is filled from the front, and keeps what lies behind. A file that is refused, or
/// that has more rows than a table, leaves every table as it is.
pub fn load(file: &[u8], tables: &mut FileTables<'_>) -> Result<Loaded, Fault>
    ensures loads { (result, lists tables.new) ≡ loads (network.read file.now 0) (lists tables.old) }
    ensures same { SameReferences tables.old tables.new }
    ensures back { WritesBack network }
    ensures named { RowsHoldNames }
    ensures made { FilesMakeBooksAndNetworks }
{
    let loaded = tally(file)?;
    if !tables.have_room(loaded.counts) {
        return Err(Fault {
            refusal: Refusal::FileTablesShort,
            at: loaded.end,
        });
    }
    fill(file, loaded.counts.stops, tables);
    Ok(loaded)
}

/// The counts of a file's records, or the first fault of the file.
fn tally(file: &[u8]) -> Result<Loaded, Fault>
    ensures { result ≡ measured (network.read file.now 0) }
{
    let mut records = Records::new(file);
    let mut counts = Counts::default();
    // A `for` over `&mut records` leaves no proof of the place after the last record.
    while let Some(item) = records.next() {
        counts = counts.with(item?);
    }
    Ok(Loaded {
        counts,
        end: records.place(),
    })
}

/// Puts the records of a file that is accepted into tables that have room for them.
fn fill(file: &[u8], stops: usize, tables: &mut FileTables<'_>)
    requires { Accepted file.now stops }
    ensures fills { Fills file.now stops (lists tables.old) (lists tables.new) }
    ensures same { SameReferences tables.old tables.new }
{
    let mut at = Progress::start(encoded_len(NETWORK_FORM) + encoded_len(stops as u32));
    for found in Records::new(file) {
        let Ok(item) = found else { return };
        at = store(item, at, tables);
    }
}

/// Puts one record into its table.
fn store(item: Record, at: Progress, tables: &mut FileTables<'_>) -> Progress
    requires bounded { Bounded 4294967295 4294967295 (filling at (lists tables.old)) }
    requires short { Short (meant item) }
    ensures stored { filling result (lists tables.new) ≡ stored (filling at (lists tables.old)) (meant item.entry) }
    ensures same { SameReferences tables.old tables.new }
{
    // The arms of timetables and roads differ in all four fields that they name: a function of both would have seven parameters.
    let counts = at.counts;
    let mut next = at;
    next.counts = counts.with(item);
    match item {
        Record::Stop(name) => {
            let len = name.len();
            let start = at.end + encoded_len(len as u32);
            write(tables.names, counts.stops, Span { start, len });
            next.end = start + len;
        }
        Record::Walk(seconds) => write(tables.walks, counts.walks, seconds),
        Record::Connection {
            service,
            connection,
        } => {
            let new = counts.begins_timetable(service);
            let list = at
                .timetable
                .extended(new, counts.timetables, counts.connections);
            write(tables.timetables, list.row, list.span);
            write(tables.connections, counts.connections, connection);
            next.timetable = list;
        }
        Record::Point { service, point } => {
            let new = counts.begins_road(service);
            let list = at.road.extended(new, counts.roads, counts.points);
            write(tables.roads, list.row, list.span);
            write(tables.points, counts.points, point);
            next.road = list;
        }
        Record::Arc(arc) => write(tables.arcs, counts.arcs, arc),
    }
    next
}

/// Puts a row into a table at a place that it has; a place that it does not have is passed over.
fn write<T: Copy + Drop>(table: &mut [T], at: usize, row: T)
    ensures { table.new ≡ slice_set table.old at row }
{
    // After a write through `get_mut` a proof knows no row of the table.
    if at < table.len() {
        table[at] = row;
    }
}
