//! The trait of what bytes come from.

ghost use Rattle.std.specs.Prelude.{◌≡◌, ℕ, Bool, List, Option, [], ◌≤◌, ◌<◌, length, take, Result, is_err, IfOk, MatchResult};
ghost use Rattle.retro_io.specs.Faults.{CountsFaults, last_count};
ghost use Rattle.retro_io.specs.Source.{Gives, bytes_given, bytes_left, ended_after, taken_after};
ghost use Rattle.retro_io.specs.declared.source.Failed.{Failed};

/// A read or a write failed.
#[derive(Clone, Copy, Debug, PartialEq, Eq)]
pub struct Failed;

/// Where bytes come from. A source may tell contracts which bytes it has left; one over a file or a pipe tells nothing.
pub trait Source {
    /// The bytes left, where the source tells them.
    ghost left: { Self → Option (List ℕ) };

    /// How many bytes were taken. The count stands still at its last value.
    ghost taken: { Self → ℕ };

    /// Whether the last read into a buffer that is not empty gave nothing.
    ghost ended: { Self → Bool };

    /// A count of faults. It never falls, and stands still at its last value. A read that fails raises it; one that succeeds may
    /// have met faults as well.
    ghost faults: { Self → ℕ };

    /// What a read may do: how the source stood before it, how many bytes the buffer has that it was offered, the bytes that
    /// it gave, and how the source stands after it.
    ghost reads: { Self → ℕ → Result (List ℕ) Failed → Self → Type 0 };

    /// Takes some of the next bytes into the start of the buffer, and says how many. None, where the buffer has room,
    /// is the end. Nothing is taken by a read that fails.
    fn read(&mut self, buffer: &mut [u8]) -> Result<usize, Failed>
        ensures within { IfOk result (λ count. count ≤ length buffer.new) }
        ensures given { MatchResult result
            (λ count. Gives (left self.old) (take count buffer.new) (left self.new))
            (λ _. left self.new ≡ left self.old) }
        ensures at_end { IfOk result (λ count. count ≡ 0 → 0 < length buffer.new → bytes_left (left self.new) ≡ []) }
        ensures taken { taken self.new ≡ taken_after (taken self.old) result }
        ensures ended { ended self.new ≡ ended_after (ended self.old) result buffer.new }
        ensures does { reads self.old (length buffer.new) (bytes_given result buffer.new) self.new }
        ensures counts { CountsFaults (is_err result) (faults self.old) (faults self.new) }
        ensures counted { faults self.new ≤ last_count };
}
