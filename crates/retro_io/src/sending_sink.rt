//! The trait of a sink at which bytes may wait until they are sent.

ghost use Rattle.std.specs.Prelude.{◌≡◌, ℕ, List, [], ◌≤◌, Result, Ok, is_err, OnErr, OnOk};
ghost use Rattle.retro_io.specs.Faults.{CountsFaults, last_count};
ghost use Rattle.retro_io.specs.declared.source.Failed.{Failed};

use crate::{Failed, Sink};

/// A sink at which bytes may wait, until they are sent. A flush that succeeds has sent them too.
pub trait SendingSink: Sink {
    /// The bytes written that have not gone on yet.
    ghost waiting: { Self → List ℕ };

    /// What a send may do: how the sink stood before it, its answer, and how the sink stands after it.
    ghost sends: { Self → Result (Unit {0}) Failed → Self → Type 0 };

    /// Lets go on what waits. It is neither a write nor a flush, so a sink that was flushed stays so.
    fn send(&mut self) -> Result<(), Failed>
        ensures written { Self.written self.new ≡ Self.written self.old }
        ensures sent { OnOk result (waiting self.new ≡ []) }
        ensures flushed { Self.flushed self.new ≡ Self.flushed self.old }
        ensures does { sends self.old result self.new }
        ensures counts { CountsFaults (is_err result) (Self.faults self.old) (Self.faults self.new) }
        ensures counted { OnErr result (Self.faults self.new ≤ last_count) };

    /// Where a flush succeeded, nothing waits.
    ghost flush_sends: { (before after : Self) (answer : Unit {0}) → Self.flushes before (Ok answer) after → waiting after ≡ [] };
}
