//! The labels of arcs, and the modes that they name.
ghost use Rattle.std.specs.Prelude.{◌≡◌};
ghost use Rattle.model.specs.Modes.{boards, Names};

/// How many labels there are: 0 foot, 1 bus, 2 ship, 3 rail, 4 car, 5 link.
pub const LABELS: u32 = 6;

/// What one goes by on an arc.
#[derive(Clone, Copy, Debug, Drop, PartialEq, Eq)]
pub enum Mode {
    Foot = 0,
    Bus = 1,
    Ship = 2,
    Rail = 3,
    Car = 4,
    Link = 5,
}

/// A number that is no label.
#[derive(Clone, Copy, Debug, Drop, PartialEq, Eq)]
pub struct NoSuchLabel(pub u32);

impl TryFrom<u32> for Mode {
    type Error = NoSuchLabel;

    ghost try_from_gives = { Names };

    fn try_from(label: u32) -> Result<Mode, NoSuchLabel> {
        match label {
            0 => Ok(Mode::Foot),
            1 => Ok(Mode::Bus),
            2 => Ok(Mode::Ship),
            3 => Ok(Mode::Rail),
            4 => Ok(Mode::Car),
            5 => Ok(Mode::Link),
            _ => Err(NoSuchLabel(label)),
        }
    }
}

impl Mode {
    /// Whether one boards: a bus, a ship or a train.
    pub fn is_boarding(self) -> bool
        ensures { result ≡ boards self }
    {
        matches!(self, Mode::Bus | Mode::Ship | Mode::Rail)
    }
}
