//! A timeline that is corrected, and whose corrections can be undone.
//!
//! A [`Session`] holds the rows of a timeline beside the structure that performs them, and its type keeps that both
//! have the same rows. An edit is judged by the structure before anything is changed: `put`, `insert` and `cut` do it
//! whole, or name the first row that could no longer be performed. Each accepted edit is a step of the session's history. `undo`
//! takes the newest step back, with the same row at the same place, and `redo` makes it again, until another edit comes.
//! Of its steps a session keeps the last 1,024; it takes the memory for them when it is made. Each is kept as it was told: `redo`
//! takes back what `undo` told, and tells with new changes what it does.
//!
//! `shift` replaces a row in one step of two list edits: by its operation at another time, or by another operation at its
//! own place. The new row draws a number. A new row that adds is put in before the old one is cut, and one that takes after
//! it, so that the rows between the two edits replay wherever those after both do. Only the rows after both are judged,
//! before anything is edited and without memory. Where the new row adds they replay if those after the cut alone do, and where
//! both rows take if those after the insertion alone do: one search of the structure tells. Else one walk over the rows counts
//! the items, or looks after the two keys of a dictionary, and names the first row that could not be performed.
//!
//! What the layer above may rely on: a session is seen as a kind, rows, the number that the next row draws, and a
//! history (`specs/Session.antt`, over `History.antt` and `Shift.antt` of `retro_base`); `EditError::Fails` comes exactly where the
//! edited rows do not replay, and `UndoError::Nothing` exactly where there is no such step. That an undo always replays is
//! no test but a fact, which the invariant keeps: every step leads to rows that stood before. After every error all is as
//! before, but where `spent` is true afterwards: memory ran out between the two list edits of a step. Such a session has
//! the rows after the first edit, and takes no more calls.
//!
//! | Call | Cost |
//! |---|---|
//! | `put`, `insert`, `cut`, `append` | an edit of the timeline and one of the structure |
//! | `undo`, `redo` | that for each list edit of the step |
//! | `shift` | that twice; a walk over all rows too, where the rows do not replay or one search does not show that they do |
//! | `ask_now`, `ask`, `all` | those of the structure |
//!
//! - `session`: the type and its calls. `turn`, `error`: what they tell and answer. `Target` is handed on from `retro_base`.
//! - `edit`, `history`, `failing`: an edit in both lists and what takes it back, the rings of the history, the row that fails.
//! - `replacement`, `scan`, `walk_count`: a row that is to be replaced, the search and the walk that judge it, what the walk counts.
//! - `laws`: an undo leads back.
#![tactic(auto)]

mod edit;
mod error;
mod failing;
mod history;
pub mod laws;
mod replacement;
mod scan;
mod session;
mod turn;
mod walk_count;

pub use error::{EditError, UndoError};
pub use retro_base::Target;
pub use session::{MAX_STEPS, Session};
pub use turn::{Put, Turn, Turns};
