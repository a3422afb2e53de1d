//! Why a run fails.
ghost use Rattle.std.specs.Prelude.{◌≡◌};
ghost use Rattle.trials.specs.declared.failure.Failure.TheVariants.{Io, Laying};

use books::BookFault;
use network::NetworkFault;
use rules::RuleFault;
use std::alloc::AllocError;
use std::io;

/// Want of memory or of output, or a table or a rule that was refused.
// the other trials have an enum of their own: there a difference is a failure too, and each enum is one program's
#[derive(Debug, Drop)]
pub enum Failure {
    Io(io::Error),
    Laying,
}

impl From<io::Error> for Failure {
    ghost from_gives = { λ error failure. failure ≡ Io error };

    fn from(error: io::Error) -> Failure {
        Failure::Io(error)
    }
}

impl From<AllocError> for Failure {
    fn from(error: AllocError) -> Failure {
        Failure::Io(error.into())
    }
}

impl From<NetworkFault> for Failure {
    ghost from_gives = { λ _ failure. failure ≡ Laying };

    fn from(_fault: NetworkFault) -> Failure {
        Failure::Laying
    }
}

impl From<BookFault> for Failure {
    ghost from_gives = { λ _ failure. failure ≡ Laying };

    fn from(_fault: BookFault) -> Failure {
        Failure::Laying
    }
}

impl From<RuleFault> for Failure {
    ghost from_gives = { λ _ failure. failure ≡ Laying };

    fn from(_fault: RuleFault) -> Failure {
        Failure::Laying
    }
}
