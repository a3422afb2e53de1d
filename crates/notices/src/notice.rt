//! A notice of the day.
ghost use Rattle.std.specs.Prelude.{◌≡◌};
ghost use Rattle.notices.specs.Notices.{in_range, amended, going, delayed};

use model::HORIZON;

/// What is said of a service: it arrives `lateness` seconds late, and takes nobody from the second `shut` until `until`.
#[derive(Clone, Copy, Debug, Default, Drop, PartialEq, Eq)]
pub struct Notice {
    pub service: u32,
    pub lateness: u32,
    pub shut: u32,
    pub until: u32,
}

impl Notice {
    /// Whether lateness and shutting are within the horizon, and the shutting does not end before it begins.
    pub fn in_range(&self) -> bool
        ensures { result ≡ in_range self.now }
    {
        self.lateness <= HORIZON && self.shut <= self.until && self.until <= HORIZON
    }

    /// Takes over what another notice says, and stays with its own service.
    pub fn amend(&mut self, other: &Notice)
        ensures { self.new ≡ amended self.old other.now }
    {
        self.lateness = other.lateness;
        self.shut = other.shut;
        self.until = other.until;
    }

    /// The second at which one who comes at a second goes on.
    pub fn going(&self, coming: u32) -> u32
        ensures { result ≡ going self.now coming }
    {
        if self.shut <= coming && coming < self.until {
            self.until
        } else {
            coming
        }
    }

    /// An arrival with the lateness added; none above the horizon.
    pub fn delay(&self, arrival: Option<u32>) -> Option<u32>
        ensures { result ≡ delayed self.now.lateness arrival }
    {
        let second = arrival?.checked_add(self.lateness)?;
        // the books test their arrivals so too: notices stand beside them and share no code with them
        (second <= HORIZON).then_some(second)
    }
}
