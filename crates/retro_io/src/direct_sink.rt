//! A sink as one at which nothing waits.

ghost use Rattle.std.specs.Prelude.{◌≡◌, [], IsOk, refl};

use crate::{Failed, SendingSink, Sink};

/// A sink as one at which nothing ever waits: each write and each flush is one of the sink behind it, and a send is no call of it.
/// A contract learns what became of that sink where `into_inner` gives it back.
#[derive(Drop)]
pub struct DirectSink<'a, K> {
    sink: &'a mut K,
}

impl<'a, K: Sink> DirectSink<'a, K> {
    ghost use Rattle.retro_io.specs.DirectSink.{reference_behind, sink_behind};

    /// This sink.
    pub fn new(sink: &'a mut K) -> DirectSink<'a, K>
        ensures reference { reference_behind result ≡ sink.entry.ghost_name }
        ensures sink { sink_behind result ≡ sink.entry.now }
    {
        DirectSink { sink }
    }

    /// Gives the sink back.
    pub fn into_inner(self) -> &'a mut K
        ensures reference { result.ghost_name ≡ reference_behind self.entry }
        ensures sink { result.now ≡ sink_behind self.entry }
    {
        let DirectSink { sink } = self;
        sink
    }
}

impl<K: Sink> Sink for DirectSink<'_, K> {
    ghost use Rattle.retro_io.specs.DirectSink.{reference_behind, sink_behind};

    ghost written = { λ s. K.written (sink_behind s) };

    ghost flushed = { λ s. K.flushed (sink_behind s) };

    ghost faults = { λ s. K.faults (sink_behind s) };

    ghost writes = { λ before piece answer after.
        K.writes (sink_behind before) piece answer (sink_behind after) × (reference_behind after ≡ reference_behind before) };

    ghost flushes = { λ before answer after.
        K.flushes (sink_behind before) answer (sink_behind after) × (reference_behind after ≡ reference_behind before) };

    fn write(&mut self, piece: &[u8]) -> Result<usize, Failed> {
        self.sink.write(piece)
    }

    fn flush(&mut self) -> Result<(), Failed> {
        self.sink.flush()
    }
}

impl<K: Sink> SendingSink for DirectSink<'_, K> {
    ghost waiting = { λ _. [] };

    ghost sends = { λ before answer after. IsOk answer × (after ≡ before) };

    ghost flush_sends = { λ _ _ _ _. refl };

    fn send(&mut self) -> Result<(), Failed> {
        Ok(())
    }
}
