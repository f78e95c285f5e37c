//! The rows on a key next to a label, and what they say of an edit.

ghost use Rattle.std.specs.Prelude.{◌≡◌};
ghost use Rattle.key_index.specs.RowsBeside.{is_there, taken_at};

use retro_base::Op;

/// The rows on a key next to a label.
#[derive(Clone, Copy, Debug, PartialEq, Eq)]
pub struct RowsBeside {
    /// The last one below the label.
    pub before: Option<(u64, Op)>,
    /// The first one above it.
    pub after: Option<(u64, Op)>,
}

/// Whether a key is there after the last row on it.
pub(crate) fn is_there(last: Option<(u64, Op)>) -> bool
    ensures { result ≡ is_there last }
{
    match last {
        Some((_, Op::Put { .. })) => true,
        _ => false,
    }
}

/// The label of the next row on a key, where it takes the key out.
pub(crate) fn taken_at(next: Option<(u64, Op)>) -> Option<u64>
    ensures { result ≡ taken_at next }
{
    match next {
        Some((label, Op::Del { .. })) => Some(label),
        _ => None,
    }
}
