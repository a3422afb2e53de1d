//! Refusals: one case for each number that a call can be refused by.
ghost use Rattle.std.specs.Prelude.{◌≡◌};
ghost use Rattle.model.specs.Refusals.{number_of, cause_of, layer_of};

/// Why a call is refused.
#[derive(Clone, Copy, Debug, Drop, PartialEq, Eq)]
pub enum Refusal {
    NoSuchStart = 1,
    NoSuchTarget = 2,
    SecondAboveHorizon = 3,
    NoJourney = 4,
    TooManyStates = 11,
    RuleField = 12,
    StepsNotAscending = 13,
    StopCount = 21,
    ArcCount = 22,
    ArcField = 23,
    TailFalls = 24,
    NoSuchService = 25,
    FileEndsEarly = 26,
    BadNumber = 27,
    ServiceField = 28,
    NameLength = 29,
    OtherForm = 30,
    BulletinOpen = 41,
    NoSuchBulletin = 42,
    NoticeField = 43,
    NoticesFull = 44,
    NothingToLift = 45,
    LabelTableShort = 51,
    QueueShort = 52,
    RowsShort = 53,
    FileTablesShort = 54,
    OutputShort = 55,
}

/// Whose doing a refusal is.
#[derive(Clone, Copy, Debug, Drop, PartialEq, Eq)]
pub enum Cause {
    Passenger,
    RuleWriter,
    TimetableEditor,
    ControlRoom,
    Host,
}

/// The part of a file's format that a refusal belongs to.
#[derive(Clone, Copy, Debug, Drop, PartialEq, Eq)]
pub enum Layer {
    Number,
    Record,
    Network,
}

impl Refusal {
    /// The number under which the refusal is reported.
    pub fn number(self) -> u8
        ensures { result ≡ number_of self }
    {
        self as u8
    }

    /// Whose doing it is.
    pub fn cause(self) -> Cause
        ensures { result ≡ cause_of self }
    {
        match self {
            Refusal::NoSuchStart
            | Refusal::NoSuchTarget
            | Refusal::SecondAboveHorizon
            | Refusal::NoJourney => Cause::Passenger,
            Refusal::TooManyStates | Refusal::RuleField | Refusal::StepsNotAscending => {
                Cause::RuleWriter
            }
            Refusal::BulletinOpen
            | Refusal::NoSuchBulletin
            | Refusal::NoticeField
            | Refusal::NoticesFull
            | Refusal::NothingToLift => Cause::ControlRoom,
            Refusal::LabelTableShort
            | Refusal::QueueShort
            | Refusal::RowsShort
            | Refusal::FileTablesShort
            | Refusal::OutputShort => Cause::Host,
            _ => Cause::TimetableEditor,
        }
    }

    /// The layer that a file fault names.
    pub fn layer(self) -> Layer
        ensures { result ≡ layer_of self }
    {
        match self {
            Refusal::FileEndsEarly | Refusal::BadNumber => Layer::Number,
            Refusal::RuleField
            | Refusal::StepsNotAscending
            | Refusal::ServiceField
            | Refusal::NameLength => Layer::Record,
            _ => Layer::Network,
        }
    }
}
