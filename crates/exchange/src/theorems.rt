//! The theorem about loading and writing, the contract of a function that does nothing.
ghost use Rattle.exchange.specs.Exchange.{AcceptedFilesWriteBack};

/// The rows that a load fills from a file that is accepted are written to the same bytes.
pub fn accepted_files_write_back()
    ensures { AcceptedFilesWriteBack }
{}
