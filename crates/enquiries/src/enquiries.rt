//! The enquiries of an input, one after the other.
ghost use Rattle.std.specs.Prelude.{◌≡◌, ◌-◌, length};
ghost use Rattle.std.specs.Iterator.{at_most};
ghost use Rattle.enquiries.specs.Handing.{HandsOut};

use crate::enquiry_at;
use model::Enquiry;
use wire::Fault;

/// The enquiries of an input that are still to be handed out, up to its end or its first fault.
#[derive(Drop)]
pub struct Enquiries<'a> {
    input: &'a [u8],
    at: usize,
}

impl<'a> Enquiries<'a> {
    /// The enquiries of an input from a place on.
    pub fn new(input: &'a [u8], at: usize) -> Enquiries<'a>
        ensures bytes { result.input.now ≡ input.now }
        ensures place { result.at ≡ at }
    {
        Enquiries { input, at }
    }
}

impl<'a> Iterator for Enquiries<'a> {
    type Item = Result<Enquiry, Fault>;

    ghost next_gives = { HandsOut };

    ghost remaining = { λ enquiries. at_most (length enquiries.input.now - enquiries.at) };

    /// The next enquiry, or the first fault; none at the input's end and after a fault.
    fn next(&mut self) -> Option<Result<Enquiry, Fault>> {
        if self.at >= self.input.len() {
            return None;
        }
        match enquiry_at(self.input, self.at) {
            Ok((enquiry, next)) => {
                self.at = next;
                Some(Ok(enquiry))
            }
            Err(fault) => {
                self.at = self.input.len();
                Some(Err(fault))
            }
        }
    }
}
