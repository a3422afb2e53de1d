//! Handing out the records of a file.
ghost use Rattle.std.specs.Prelude.{◌≡◌, ◌<◌, true, is_some, Ok};
ghost use Rattle.std.specs.Iterator.{at_most};
ghost use Rattle.std.specs.Result.{result_transpose};
ghost use Rattle.wire.specs.Grammar.{and_then};
ghost use Rattle.formats.specs.NetworkFile.{network};
ghost use Rattle.records.specs.declared.records.Section.TheVariants.{Front, Stops, Walks, Timetables, Connections, Roads, Points, Arcs};
ghost use Rattle.records.specs.Stream.{told, collected, records_of};
ghost use Rattle.records.specs.Records.{rest, handed, follows, goes, size, OverAt, Over, HandsOut};

use crate::fields::{arc, connection, point};
use crate::record::Record;
use crate::records::{Records, Section};
use formats::NETWORK_FORM;
use model::{
    LONGEST_NAME, LONGEST_WALK, MOST_ARCS, MOST_CONNECTIONS, MOST_POINTS, MOST_SERVICES,
    MOST_STOPS, Point, Refusal,
};
use wire::{Fault, Reader};

impl<'a> Records<'a> {
    /// The records of a file.
    pub fn new(bytes: &'a [u8]) -> Records<'a>
        ensures all { rest result ≡ told bytes.now }
        ensures reads { collected (rest result) ≡ and_then (network.read bytes.now 0) (λ c q. Ok (records_of c, q)) }
        ensures front { result.section ≡ Front }
    {
        Records {
            reader: Reader::new(bytes),
            section: Section::Front,
            stops: 0,
            walks: 0,
            timetables: 0,
            roads: 0,
        }
    }

    /// The place of the next byte to read.
    pub fn place(&self) -> usize
        ensures { result ≡ self.now.reader.at }
    {
        self.reader.place()
    }

    /// The next record, or none after the last record and after a fault.
    fn step(&mut self) -> Result<Option<Record<'a>>, Fault>
        ensures says { rest self.old ≡ follows (result_transpose result) (rest self.new) self.new.reader.at }
        ensures falls { is_some (result_transpose result) ≡ true → size self.new.section < size self.old.section }
        ensures over { Over (result_transpose result) self.new.section }
    {
        loop {
            match self.section {
                Section::Front => self.front()?,
                Section::Stops { left: 0 } => self.walk_run()?,
                Section::Stops { left } => return self.stop(left).map(Some),
                Section::Walks { left: 0 } => self.timetable_run()?,
                Section::Walks { left } => return self.walk(left).map(Some),
                Section::Timetables { left } => self.timetable(left)?,
                Section::Connections { lists, left: 0, .. } => {
                    self.section = Section::Timetables { left: lists };
                }
                Section::Connections {
                    service,
                    lists,
                    left,
                    last,
                } => return self.connection(service, lists, left, last).map(Some),
                Section::Roads { left } => self.road(left)?,
                Section::Points { lists, left: 0, .. } => {
                    self.section = Section::Roads { left: lists };
                }
                Section::Points {
                    service,
                    lists,
                    left,
                    before,
                } => return self.point(service, lists, left, before).map(Some),
                Section::Arcs { left: 0, .. } => self.section = Section::End,
                Section::Arcs { left, last } => return self.arc(left, last).map(Some),
                Section::End => return Ok(None),
            }
        }
    }

    // The steps below differ in what they ask, and in whether they hand out a record: one record of what each says would take both as
    // parameters, and be no shorter.

    /// From the front of the file to its stops.
    fn front(&mut self) -> Result<(), Fault>
        requires { self.old.section ≡ Front }
        ensures says { rest self.old ≡ goes result (rest self.new) }
        ensures falls { size self.new.section < size self.old.section }
        ensures over { OverAt result self.new.section }
    {
        self.section = Section::End;
        self.reader.exactly(NETWORK_FORM, Refusal::OtherForm)?;
        let count = self.reader.number_in(1, MOST_STOPS, Refusal::StopCount)?;
        self.stops = count;
        self.section = Section::Stops { left: count };
        Ok(())
    }

    /// From the last stop to the walks.
    fn walk_run(&mut self) -> Result<(), Fault>
        requires { self.old.section ≡ Stops 0 }
        ensures says { rest self.old ≡ goes result (rest self.new) }
        ensures falls { size self.new.section < size self.old.section }
        ensures over { OverAt result self.new.section }
    {
        self.section = Section::End;
        let count = self
            .reader
            .number_in(0, MOST_SERVICES, Refusal::ServiceField)?;
        self.walks = count;
        self.section = Section::Walks { left: count };
        Ok(())
    }

    /// From the last walk to the timetables. What it shares with the run of walks is two lines; a shared function would take the field
    /// and the section as closures.
    fn timetable_run(&mut self) -> Result<(), Fault>
        requires { self.old.section ≡ Walks 0 }
        ensures says { rest self.old ≡ goes result (rest self.new) }
        ensures falls { size self.new.section < size self.old.section }
        ensures over { OverAt result self.new.section }
    {
        self.section = Section::End;
        let count = self
            .reader
            .number_in(0, MOST_SERVICES, Refusal::ServiceField)?;
        self.timetables = count;
        self.section = Section::Timetables { left: count };
        Ok(())
    }

    /// To the connections of the next timetable, or from the last timetable to the roads.
    fn timetable(&mut self, left: u32) -> Result<(), Fault>
        requires { self.old.section ≡ Timetables left }
        ensures says { rest self.old ≡ goes result (rest self.new) }
        ensures falls { size self.new.section < size self.old.section }
        ensures over { OverAt result self.new.section }
    {
        self.section = Section::End;
        if left == 0 {
            let count = self
                .reader
                .number_in(0, MOST_SERVICES, Refusal::ServiceField)?;
            self.roads = count;
            self.section = Section::Roads { left: count };
        } else {
            let count = self
                .reader
                .number_in(1, MOST_CONNECTIONS, Refusal::ServiceField)?;
            self.section = Section::Connections {
                service: (self.walks + self.timetables).saturating_sub(left),
                lists: left - 1,
                left: count,
                last: 0,
            };
        }
        Ok(())
    }

    /// To the points of the next road, or from the last road to the arcs.
    fn road(&mut self, left: u32) -> Result<(), Fault>
        requires { self.old.section ≡ Roads left }
        ensures says { rest self.old ≡ goes result (rest self.new) }
        ensures falls { size self.new.section < size self.old.section }
        ensures over { OverAt result self.new.section }
    {
        self.section = Section::End;
        if left == 0 {
            let count = self.reader.number_in(0, MOST_ARCS, Refusal::ArcCount)?;
            self.section = Section::Arcs {
                left: count,
                last: 0,
            };
        } else {
            let count = self
                .reader
                .number_in(1, MOST_POINTS, Refusal::ServiceField)?;
            self.section = Section::Points {
                service: (self.walks + self.timetables + self.roads).saturating_sub(left),
                lists: left - 1,
                left: count,
                before: None,
            };
        }
        Ok(())
    }

    /// One of the stops that are left.
    fn stop(&mut self, left: u32) -> Result<Record<'a>, Fault>
        requires some { 0 < left }
        requires among { self.old.section ≡ Stops left }
        ensures says { rest self.old ≡ handed result (rest self.new) }
        ensures falls { size self.new.section < size self.old.section }
        ensures over { OverAt result self.new.section }
    {
        self.section = Section::End;
        let name = self.reader.name(1, LONGEST_NAME, Refusal::NameLength)?;
        self.section = Section::Stops { left: left - 1 };
        Ok(Record::Stop(name))
    }

    /// One of the walks that are left.
    fn walk(&mut self, left: u32) -> Result<Record<'a>, Fault>
        requires some { 0 < left }
        requires among { self.old.section ≡ Walks left }
        ensures says { rest self.old ≡ handed result (rest self.new) }
        ensures falls { size self.new.section < size self.old.section }
        ensures over { OverAt result self.new.section }
    {
        self.section = Section::End;
        let seconds = self
            .reader
            .number_in(0, LONGEST_WALK, Refusal::ServiceField)?;
        self.section = Section::Walks { left: left - 1 };
        Ok(Record::Walk(seconds))
    }

    /// One of the connections that are left of a service's list.
    fn connection(
        &mut self,
        service: u32,
        lists: u32,
        left: u32,
        last: u32,
    ) -> Result<Record<'a>, Fault>
        requires some { 0 < left }
        requires among { self.old.section ≡ Connections service lists left last }
        ensures says { rest self.old ≡ handed result (rest self.new) }
        ensures falls { size self.new.section < size self.old.section }
        ensures over { OverAt result self.new.section }
    {
        self.section = Section::End;
        let connection = connection(&mut self.reader, last)?;
        self.section = Section::Connections {
            service,
            lists,
            left: left - 1,
            last: connection.departure,
        };
        Ok(Record::Connection {
            service,
            connection,
        })
    }

    /// One of the points that are left of a service's list.
    fn point(
        &mut self,
        service: u32,
        lists: u32,
        left: u32,
        before: Option<Point>,
    ) -> Result<Record<'a>, Fault>
        requires some { 0 < left }
        requires among { self.old.section ≡ Points service lists left before }
        ensures says { rest self.old ≡ handed result (rest self.new) }
        ensures falls { size self.new.section < size self.old.section }
        ensures over { OverAt result self.new.section }
    {
        self.section = Section::End;
        let point = point(&mut self.reader, before)?;
        self.section = Section::Points {
            service,
            lists,
            left: left - 1,
            before: Some(point),
        };
        Ok(Record::Point { service, point })
    }

    /// One of the arcs that are left.
    fn arc(&mut self, left: u32, last: u32) -> Result<Record<'a>, Fault>
        requires some { 0 < left }
        requires among { self.old.section ≡ Arcs left last }
        ensures says { rest self.old ≡ handed result (rest self.new) }
        ensures falls { size self.new.section < size self.old.section }
        ensures over { OverAt result self.new.section }
    {
        let services = self.walks + self.timetables + self.roads;
        self.section = Section::End;
        let arc = arc(&mut self.reader, self.stops, services, last)?;
        self.section = Section::Arcs {
            left: left - 1,
            last: arc.tail,
        };
        Ok(Record::Arc(arc))
    }
}

impl<'a> Iterator for Records<'a> {
    type Item = Result<Record<'a>, Fault>;

    ghost next_gives = { HandsOut };

    ghost remaining = { λ records. at_most (size records.section) };

    /// The next record, or the first fault of the file; none after the last record and after a fault.
    fn next(&mut self) -> Option<Result<Record<'a>, Fault>> {
        self.step().transpose()
    }
}
