//! The five kinds of structures.

/// The five structures whose histories are kept.
#[derive(Clone, Copy, Debug, PartialEq, Eq)]
pub enum Kind {
    /// First in, first out.
    Queue,
    /// Last in, first out.
    Stack,
    /// Open at both ends.
    Deque,
    /// Values under keys.
    Dict,
    /// The least entry first.
    Pq,
}
