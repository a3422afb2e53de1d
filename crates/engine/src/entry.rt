//! The elements of the search's queue.
ghost use Rattle.std.specs.Prelude.{◌≡◌, ◌+◌, ◌*◌};
ghost use Rattle.engine.specs.Before.{entry_before};
ghost use Rattle.queue.proofs.Triples.{by_three};
ghost use Rattle.engine.specs.declared.entry.Entry.{Entry};

use queue::Ranked;

/// One more than the greatest number of 32 bits.
const WORD: u128 = 4_294_967_296;

/// A place by its number, with the second and the legs of a label that it has or had: by these three in turn it comes out of the queue.
#[derive(Clone, Copy, Default, Drop)]
pub struct Entry {
    pub second: u32,
    pub legs: u32,
    pub place: u32,
}

impl Entry {
    /// The three numbers as one, which compares as they do in turn; one comparison is faster than a derived order of three.
    fn rank(self) -> u128
        ensures { result ≡ (self.second * 4294967296 + self.legs) * 4294967296 + self.place }
    {
        (self.second as u128 * WORD + self.legs as u128) * WORD + self.place as u128
    }
}

impl Ranked for Entry {
    ghost before = { entry_before };

    ghost order = { by_three (λ (x : Entry). x.second) (λ x. x.legs) (λ x. x.place) (λ x y p q r i. record { second = p i; legs = q i; place = r i }) };

    fn precedes(self, other: Entry) -> bool {
        self.rank() < other.rank()
    }
}
