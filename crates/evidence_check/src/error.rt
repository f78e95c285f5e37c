//! Why a line is refused.

ghost use Rattle.std.specs.Prelude.{◌≡◌};
ghost use Rattle.evidence_check.specs.declared.error.CheckError.TheVariants as causes;

use std::alloc::{AllocError, AllocFailed};

/// Why a line of evidence is refused. Of several causes the first one is reported.
#[derive(Clone, Copy, Debug, PartialEq, Eq)]
pub enum CheckError {
    /// The line is no spelling of evidence.
    Syntax,
    /// It names one timeline more than there may be.
    Timelines,
    /// A row is put in, and the timeline has as many rows as it may have.
    Full,
    /// A row is put in after all rows and further, or taken out where none stands.
    Place,
    /// A row is put in under a number that another one has, or taken out under a number that is not its own.
    Number,
    /// A row is taken out that does something else.
    Row,
    /// The rows after the edit cannot all be performed.
    Replay,
    /// The stated bridge is another one.
    Bridge,
    /// The entry is another one, or is gained where one is lost.
    Entry,
    /// There was no memory for one more row. This says nothing of the line.
    NoMemory,
}

impl<T: Drop> From<AllocFailed<T>> for CheckError {
    ghost from_gives = { λ _ error. error ≡ causes.NoMemory };

    fn from(_failed: AllocFailed<T>) -> CheckError {
        CheckError::NoMemory
    }
}

impl From<AllocError> for CheckError {
    ghost from_gives = { λ _ error. error ≡ causes.NoMemory };

    fn from(_failed: AllocError) -> CheckError {
        CheckError::NoMemory
    }
}
