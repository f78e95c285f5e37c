//! A sink over a writer of std.

ghost use Rattle.std.specs.Prelude.{◌≡◌, ◌≤◌, true, false, None};
ghost use Rattle.std.specs.Io.KnownBytes.{Keeps, WriteAppends};
ghost use Rattle.retro_io.specs.Faults.{CountsFaults, count_after, faults_after, last_count};

use crate::{Failed, Sink};
use std::io::Write;

/// A sink over a writer of std. It tells nothing of what was written but what std's own contract knows of the writer
/// (`writes`, `flushes`); each `Err` of the writer is a fault, and so is a write that takes nothing of a piece that is not empty.
#[derive(Drop)]
pub struct StdSink<W> {
    writer: W,
    flushed: bool,
    faults: u64,
    ghost counted: { faults ≤ last_count },
}

impl<W: Write> StdSink<W> {
    ghost use Rattle.retro_io.specs.Known.{writer_of};

    /// A sink over this writer.
    pub fn new(writer: W) -> StdSink<W>
        ensures flushed { ⟦<StdSink<W> as Sink>⟧.flushed result ≡ false }
        ensures faults { ⟦<StdSink<W> as Sink>⟧.faults result ≡ 0 }
        ensures writer { writer_of result ≡ writer }
    {
        StdSink {
            writer,
            flushed: false,
            faults: 0,
        }
    }

    /// Notes a fault.
    fn fail(&mut self) -> Failed
        ensures counts { CountsFaults true self.old.faults self.new.faults }
        ensures count { self.new.faults ≡ count_after self.old.faults 1 }
        ensures writer { writer_of self.new ≡ writer_of self.old }
        ensures flushed { self.new.flushed ≡ self.old.flushed }
    {
        self.faults = self.faults.saturating_add(1);
        Failed
    }
}

impl<W: Write> Sink for StdSink<W> {
    ghost use Rattle.retro_io.specs.Known.{writer_of};

    ghost written = { λ _. None };

    ghost flushed = { λ s. s.flushed };

    ghost faults = { λ s. s.faults };

    ghost writes = { λ before piece answer after.
        WriteAppends (W.contents (writer_of before)) (W.contents (writer_of after)) answer piece
        × (after.faults ≡ faults_after before.faults answer) };

    ghost flushes = { λ before answer after.
        Keeps (W.contents (writer_of before)) (W.contents (writer_of after))
        × (after.faults ≡ faults_after before.faults answer) };

    fn write(&mut self, piece: &[u8]) -> Result<usize, Failed> {
        self.flushed = false;
        match self.writer.write(piece) {
            Ok(0) if !piece.is_empty() => Err(self.fail()),
            Ok(count) => Ok(count),
            Err(_) => Err(self.fail()),
        }
    }

    fn flush(&mut self) -> Result<(), Failed> {
        self.flushed = false;
        match self.writer.flush() {
            Ok(()) => {
                self.flushed = true;
                Ok(())
            }
            Err(_) => Err(self.fail()),
        }
    }
}
