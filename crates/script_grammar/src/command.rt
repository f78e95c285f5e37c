//! What a line asks for, and why one asks for nothing.

use retro_base::{Kind, Name, Op, Question};
use thiserror::Error;

/// What a line of a script asks for.
#[derive(Clone, Copy)]
pub enum Command {
    /// Asks for nothing, and is answered by nothing: the line has no words, or is a comment.
    Nothing,
    /// Starts a timeline without rows. A priority queue may be held as a product of pieces (`fused`), which answers alike.
    New {
        name: Name,
        kind: Kind,
        fused: bool,
    },
    /// Puts a row into a timeline.
    Insert {
        name: Name,
        spot: Spot,
        op: Op,
    },
    /// Takes the row with this number out of a timeline.
    Delete {
        name: Name,
        number: u32,
    },
    /// Puts the row with this number at another time.
    Move {
        name: Name,
        number: u32,
        time: u64,
    },
    /// Gives the row with this number another operation.
    Change {
        name: Name,
        number: u32,
        op: Op,
    },
    /// Asks which row takes out what the row with this number put in.
    Fate {
        name: Name,
        number: u32,
    },
    /// Asks a timeline for something.
    Ask {
        name: Name,
        moment: Moment,
        query: Query,
    },
    /// Undoes the newest step of a timeline.
    Undo {
        name: Name,
    },
    /// Makes the step of a timeline again that was undone last.
    Redo {
        name: Name,
    },
    /// Asks for the text of a whole timeline.
    Save {
        name: Name,
    },
    /// Asks a follower for its report, and takes no further event to it.
    Mute {
        index: u32,
    },
    /// Opens the block of a timeline, which draws this number next. With `rows` it has so many row lines.
    Header {
        name: Name,
        kind: Kind,
        next: u32,
        rows: Option<u32>,
    },
}

/// A place in a timeline, between its rows.
#[derive(Clone, Copy)]
pub enum Spot {
    /// After the rows up to this time.
    At { time: u64 },
    /// In front of the row with this number.
    Before { number: u32 },
    /// After the row with this number.
    After { number: u32 },
}

/// When a question is asked.
#[derive(Clone, Copy)]
pub enum Moment {
    /// After all rows.
    Now,
    /// At a place in the history.
    Then { spot: Spot },
}

/// What is asked.
#[derive(Clone, Copy)]
pub enum Query {
    /// One question of the content.
    One { question: Question },
    /// The whole content.
    All,
}

/// Why a line has no command.
#[derive(Clone, Copy, Debug, Error)]
pub enum LineError {
    /// It has more bytes than a line may have.
    #[error("the line is too long")]
    Long,
    /// It is in no form of the grammar.
    #[error("the line is in no form of the grammar")]
    Syntax,
}
