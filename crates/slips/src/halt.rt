//! Why a run ends before its input does.
use std::alloc::AllocError;
use std::io;
use wire::Fault;

/// A fault of the input, or want of memory or of output.
pub enum Halt {
    Fault(Fault),
    Io(io::Error),
}

impl From<Fault> for Halt {
    fn from(fault: Fault) -> Halt {
        Halt::Fault(fault)
    }
}

impl From<io::Error> for Halt {
    fn from(error: io::Error) -> Halt {
        Halt::Io(error)
    }
}

impl From<AllocError> for Halt {
    fn from(error: AllocError) -> Halt {
        Halt::Io(error.into())
    }
}
