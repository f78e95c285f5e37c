//! Where a row stands.

/// Where a row stands: at this place, and at this time.
#[derive(Clone, Copy)]
pub struct Position {
    pub place: u32,
    pub time: u64,
}
