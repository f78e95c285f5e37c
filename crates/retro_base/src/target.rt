//! What a row is replaced by.

use crate::Op;

/// What a row is replaced by in one step.
#[derive(Clone, Copy)]
pub enum Target {
    /// Its operation at another time, after all other rows up to that time.
    At { time: u64 },
    /// Another operation at its own time and place.
    Into { op: Op },
}
