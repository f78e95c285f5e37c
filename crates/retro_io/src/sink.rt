//! The trait of what bytes go to.

ghost use Rattle.std.specs.Prelude.{◌≡◌, ℕ, Bool, false, List, Option, ◌≤◌, ◌<◌, length, take, Result, is_ok, is_err, IfOk, IfErr, MatchResult};
ghost use Rattle.retro_io.specs.Faults.{CountsFaults, last_count};
ghost use Rattle.retro_io.specs.Sink.{Appends, AppendsProperPrefix, HandsAll, HandsAllUntilFault};
ghost use Rattle.retro_io.specs.declared.source.Failed.{Failed};

use crate::Failed;

/// Where bytes go. A sink may tell contracts what was written to it; one over a file or a pipe tells nothing.
pub trait Sink {
    /// The bytes written, where the sink tells them.
    ghost written: { Self → Option (List ℕ) };

    /// Whether the last call was a flush that succeeded.
    ghost flushed: { Self → Bool };

    /// A count of faults. It never falls, and stands still at its last value. A call that fails raises it; one that succeeds may
    /// have met faults as well.
    ghost faults: { Self → ℕ };

    /// What a write may do: how the sink stood before it, the piece that it was handed, its answer, and how the sink stands
    /// after it.
    ghost writes: { Self → List ℕ → Result ℕ Failed → Self → Type 0 };

    /// What a flush may do: how the sink stood before it, its answer, and how the sink stands after it.
    ghost flushes: { Self → Result (Unit {0}) Failed → Self → Type 0 };

    /// Appends a prefix of the piece, and says how many bytes it has: at least one, where the piece is not empty.
    /// Nothing is appended by a write that fails.
    fn write(&mut self, piece: &[u8]) -> Result<usize, Failed>
        ensures within { IfOk result (λ count. count ≤ length piece.now) }
        ensures some { IfOk result (λ count. 0 < length piece.now → 0 < count) }
        ensures appended { MatchResult result
            (λ count. Appends (written self.old) (take count piece.now) (written self.new))
            (λ _. written self.new ≡ written self.old) }
        ensures flushed { flushed self.new ≡ false }
        ensures does { writes self.old piece.now result self.new }
        ensures counts { CountsFaults (is_err result) (faults self.old) (faults self.new) }
        ensures counted { faults self.new ≤ last_count };

    /// Sees to it that what was written arrives.
    fn flush(&mut self) -> Result<(), Failed>
        ensures written { written self.new ≡ written self.old }
        ensures flushed { flushed self.new ≡ is_ok result }
        ensures does { flushes self.old result self.new }
        ensures counts { CountsFaults (is_err result) (faults self.old) (faults self.new) }
        ensures counted { faults self.new ≤ last_count };
}

/// A write failed, and not all of the bytes were appended.
#[derive(Clone, Copy, Debug, PartialEq, Eq)]
pub struct WriteFault;

/// Writes all these bytes. Each write is handed all that is not yet appended; for no bytes there is no write.
pub fn put_all<K: Sink>(sink: &mut K, bytes: &[u8]) -> Result<(), WriteFault>
    ensures appended { MatchResult result
        (λ _. Appends (K.written sink.old) bytes.now (K.written sink.new))
        (λ _. AppendsProperPrefix (K.written sink.old) bytes.now (K.written sink.new)) }
    ensures handed { MatchResult result
        (λ _. HandsAll K.writes bytes.now sink.old (length bytes.now) sink.new)
        (λ _. HandsAllUntilFault K.writes bytes.now sink.old sink.new) }
    ensures flushed { 0 < length bytes.now → K.flushed sink.new ≡ false }
    ensures nothing { length bytes.now ≡ 0 → sink.new ≡ sink.old }
    ensures counts { CountsFaults (is_err result) (K.faults sink.old) (K.faults sink.new) }
{
    match put_until_fault(sink, bytes) {
        Ok(()) => Ok(()),
        Err(_count) => Err(WriteFault),
    }
}

/// The same, and where a write failed it answers how many bytes were appended before.
pub(crate) fn put_until_fault<K: Sink>(sink: &mut K, bytes: &[u8]) -> Result<(), usize>
    ensures appended { MatchResult result
        (λ _. Appends (K.written sink.old) bytes.now (K.written sink.new))
        (λ count. Appends (K.written sink.old) (take count bytes.now) (K.written sink.new)) }
    ensures short { IfErr result (λ count. count < length bytes.now) }
    ensures handed { MatchResult result
        (λ _. HandsAll K.writes bytes.now sink.old (length bytes.now) sink.new)
        (λ _. HandsAllUntilFault K.writes bytes.now sink.old sink.new) }
    ensures flushed { 0 < length bytes.now → K.flushed sink.new ≡ false }
    ensures nothing { length bytes.now ≡ 0 → sink.new ≡ sink.old }
    ensures counts { CountsFaults (is_err result) (K.faults sink.old) (K.faults sink.new) }
{
    let mut appended = 0;
    while appended < bytes.len() {
        match sink.write(&bytes[appended..]) {
            Ok(count) => appended += count,
            Err(Failed) => return Err(appended),
        }
    }
    Ok(())
}
