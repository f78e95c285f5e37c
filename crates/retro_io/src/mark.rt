//! What a reader of lines came to, and why it stops.

use thiserror::Error;

/// What the reader came to.
#[derive(Clone, Copy)]
pub enum Mark {
    /// A line that is not long.
    Whole,
    /// A long line, of which only as much is shown as a line may have.
    Long,
    /// There is no further line.
    End,
}

/// Why there is no next line, although the input may go on.
#[derive(Clone, Copy, Debug, Error)]
pub enum ReadError {
    /// The source failed.
    #[error("the source failed")]
    ReadFault,
    /// The input has more bytes than the reader's limit.
    #[error("the input is too long")]
    TooLong,
}
