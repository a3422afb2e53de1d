//! What a poster is asked for.
use books::Timetables;
use network::Network;

/// The connections of a timetable book that leave a stop of a network at or after a second. The book's services are numbered from
/// `first_service` on.
#[derive(Clone, Copy)]
pub(crate) struct Question<'n, 't, 'c> {
    pub(crate) network: Network<'n>,
    pub(crate) timetables: &'t Timetables<'c>,
    pub(crate) first_service: u32,
    pub(crate) stop: u32,
    pub(crate) second: u32,
}
