//! A source over a reader of std.

ghost use Rattle.std.specs.Prelude.{◌≡◌, ◌≤◌, false, None};
ghost use Rattle.retro_io.specs.Faults.{faults_after, last_count};

use crate::{Failed, Source};
use std::io::Read;

/// A source over a reader of std. It tells nothing of its bytes but what std's own contract knows of the reader's (`reads`);
/// each `Err` of the reader is a fault.
#[derive(Drop)]
pub struct StdSource<R> {
    reader: R,
    taken: u64,
    ended: bool,
    faults: u64,
    ghost counted: { faults ≤ last_count },
}

impl<R: Read> StdSource<R> {
    ghost use Rattle.retro_io.specs.Known.{reader_of};

    /// A source over this reader.
    pub fn new(reader: R) -> StdSource<R>
        ensures taken { ⟦<StdSource<R> as Source>⟧.taken result ≡ 0 }
        ensures ended { ⟦<StdSource<R> as Source>⟧.ended result ≡ false }
        ensures faults { ⟦<StdSource<R> as Source>⟧.faults result ≡ 0 }
        ensures reader { reader_of result ≡ reader }
    {
        StdSource {
            reader,
            taken: 0,
            ended: false,
            faults: 0,
        }
    }
}

impl<R: Read> Source for StdSource<R> {
    ghost use Rattle.retro_io.specs.Known.{ReadsKnown, reader_of};

    ghost left = { λ _. None };

    ghost taken = { λ s. s.taken };

    ghost ended = { λ s. s.ended };

    ghost faults = { λ s. s.faults };

    ghost reads = { λ before room answer after.
        ReadsKnown (R.remaining (reader_of before)) room answer (R.remaining (reader_of after))
        × (after.faults ≡ faults_after before.faults answer) };

    fn read(&mut self, buffer: &mut [u8]) -> Result<usize, Failed> {
        match self.reader.read(buffer) {
            Ok(count) => {
                self.taken = self.taken.saturating_add(count as u64);
                if !buffer.is_empty() {
                    self.ended = count == 0;
                }
                Ok(count)
            }
            Err(_) => {
                self.faults = self.faults.saturating_add(1);
                if !buffer.is_empty() {
                    self.ended = false;
                }
                Err(Failed)
            }
        }
    }
}
