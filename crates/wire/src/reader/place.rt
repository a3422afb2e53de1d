//! Where a reader stands in its file.
ghost use Rattle.std.specs.Prelude.{◌≡◌, ◌<◌, ◌≤◌, min, length, ◌==◌, MatchResult};
ghost use Rattle.model.specs.declared.refusal.Refusal.TheVariants.{FileEndsEarly};
ghost use Rattle.wire.specs.Places.{wrong};
ghost use Rattle.wire.specs.Readers.{file};

use crate::fault::Fault;
use crate::reader::Reader;
use model::Refusal;

impl<'a> Reader<'a> {
    /// A reader at the front of a file.
    pub fn new(bytes: &'a [u8]) -> Self
        ensures file { file result ≡ bytes.now }
        ensures front { result.at ≡ 0 }
    {
        Reader { bytes, at: 0 }
    }

    /// A reader at a place of a file; a place past the end counts as the end.
    pub fn starting(bytes: &'a [u8], at: usize) -> Self
        ensures file { file result ≡ bytes.now }
        ensures place { result.at ≡ min at (length bytes.now) }
    {
        Reader {
            bytes,
            at: at.min(bytes.len()),
        }
    }

    /// A reader at a place of a file; a place past the end is refused.
    pub fn starting_within(bytes: &'a [u8], at: usize) -> Result<Self, Fault>
        ensures { MatchResult result (λ reader. (at ≤ length bytes.now) × (file reader ≡ bytes.now) × (reader.at ≡ at)) (λ fault. (length bytes.now < at) × (fault ≡ wrong FileEndsEarly at)) }
    {
        if at <= bytes.len() {
            Ok(Reader { bytes, at })
        } else {
            Err(Fault {
                refusal: Refusal::FileEndsEarly,
                at,
            })
        }
    }

    /// Whether every byte is read.
    pub fn is_at_end(&self) -> bool
        ensures { result ≡ (length (file self.now) == self.now.at) }
    {
        self.bytes.len() == self.at
    }

    /// The place of the next byte to read.
    pub fn place(&self) -> usize
        ensures { result ≡ self.now.at }
    {
        self.at
    }
}
