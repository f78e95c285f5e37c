//! The rings of a history: accepted steps, as they were told. A step that can be redone is kept as its undo was told, so that either
//! ring is left by taking its newest step back.

ghost use Rattle.std.specs.Prelude.{◌≡◌, ◌<◌, [], ◌∷◌, ◌++◌, ◌-◌, length, take, slice_get};
ghost use Rattle.circular_buffer.specs.Buffer.{buffer, keep_last};

use crate::Turns;
use circular_buffer::HeapCircularBuffer;

/// The newest step of a ring.
pub(crate) fn newest(ring: &HeapCircularBuffer<Turns>) -> Option<Turns>
    ensures { result ≡ slice_get ring.now.items (length ring.now.items - 1) }
{
    ring.back().copied()
}

/// Notes an accepted step: it can be undone, and nothing can be redone.
pub(crate) fn note(
    undo: &mut HeapCircularBuffer<Turns>,
    redo: &mut HeapCircularBuffer<Turns>,
    step: Turns,
)
    ensures undo { undo.new ≡ buffer (keep_last undo.old.capacity (undo.old.items ++ step ∷ [])) undo.old.capacity }
    ensures redo { redo.new ≡ buffer [] redo.old.capacity }
{
    undo.push_back(step);
    redo.clear();
}

/// Takes the newest step out of one ring, and puts what was told of it when it was taken back into the other, which has room for it.
pub(crate) fn pass_on(
    from: &mut HeapCircularBuffer<Turns>,
    to: &mut HeapCircularBuffer<Turns>,
    told: Turns,
)
    requires { length to.old.items < to.old.capacity }
    ensures from { from.new ≡ buffer (take (length from.old.items - 1) from.old.items) from.old.capacity }
    ensures to { to.new ≡ buffer (to.old.items ++ told ∷ []) to.old.capacity }
{
    from.pop_back();
    to.push_back(told);
}

/// Forgets all steps.
pub(crate) fn forget(undo: &mut HeapCircularBuffer<Turns>, redo: &mut HeapCircularBuffer<Turns>)
    ensures undo { undo.new ≡ buffer [] undo.old.capacity }
    ensures redo { redo.new ≡ buffer [] redo.old.capacity }
{
    undo.clear();
    redo.clear();
}
