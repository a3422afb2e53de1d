//! What is wrong with a file, and where.
ghost use Rattle.std.specs.Prelude.{◌≡◌};
ghost use Rattle.model.specs.Refusals.{layer_of};

use model::{Layer, Refusal};

/// Why a file is refused, and the place of the first byte of what is at fault.
#[derive(Clone, Copy, Debug, Drop, PartialEq, Eq)]
pub struct Fault {
    pub refusal: Refusal,
    pub at: usize,
}

impl Fault {
    /// The layer of the file that is at fault.
    pub fn layer(self) -> Layer
        ensures { result ≡ layer_of self.refusal }
    {
        self.refusal.layer()
    }
}
