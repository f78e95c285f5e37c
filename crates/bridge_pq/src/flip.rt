//! The entry that an edit flips, and the place of its row.

use retro_base::{Change, Entry};

/// What an edit changes: the entry whose mark is flipped, and the place of its row after the edit.
#[derive(Clone, Copy)]
pub(crate) struct Flip {
    pub(crate) change: Change,
    pub(crate) entry: Entry,
    pub(crate) place: u32,
    pub(crate) survives: bool,
}
