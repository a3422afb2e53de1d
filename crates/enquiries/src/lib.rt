//! Enquiries in an input: start, target and second, as file numbers, one enquiry after the other.
#![tactic(auto)]

ghost use Rattle.std.specs.Prelude.{◌≡◌};
ghost use Rattle.enquiries.specs.Enquiries.{enquiry as enquiry_format};

mod enquiries;

pub use enquiries::Enquiries;
use model::Enquiry;
use wire::{Fault, Reader};

/// The enquiry at a place of the input, and the place after it.
pub fn enquiry_at(input: &[u8], at: usize) -> Result<(Enquiry, usize), Fault>
    ensures { result ≡ enquiry_format.read input.now at }
{
    let mut reader = Reader::starting_within(input, at)?;
    let start = reader.number()?;
    let target = reader.number()?;
    let second = reader.number()?;
    let enquiry = Enquiry {
        start,
        target,
        second,
    };
    Ok((enquiry, reader.place()))
}
