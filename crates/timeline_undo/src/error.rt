//! Why an edit does not stand, and why nothing is undone.

ghost use Rattle.std.specs.Prelude.{◌≡◌};
ghost use Rattle.timeline_undo.specs.declared.error.EditError.TheVariants as edits;
ghost use Rattle.timeline_undo.specs.declared.error.UndoError.TheVariants as undos;

use retro_base::NoMemory;
use thiserror::Error;

/// Why an edit does not stand.
#[derive(Clone, Copy, Debug, PartialEq, Eq, Error)]
pub enum EditError {
    /// The edited rows do not replay: this is the first row that could not be performed.
    #[error("row {number} at time {time} could not be performed")]
    Fails { number: u32, time: u64 },
    /// The memory for the edit could not be had.
    #[error("there is not enough memory")]
    NoMemory,
}

/// Why nothing is undone or redone.
#[derive(Clone, Copy, Debug, PartialEq, Eq, Error)]
pub enum UndoError {
    /// There is no step to undo, or none to make again.
    #[error("there is no such step")]
    Nothing,
    /// The memory for the edit could not be had.
    #[error("there is not enough memory")]
    NoMemory,
}

impl From<NoMemory> for EditError {
    ghost from_gives = { λ _ error. error ≡ edits.NoMemory };

    fn from(_error: NoMemory) -> EditError {
        EditError::NoMemory
    }
}

impl From<NoMemory> for UndoError {
    ghost from_gives = { λ _ error. error ≡ undos.NoMemory };

    fn from(_error: NoMemory) -> UndoError {
        UndoError::NoMemory
    }
}
