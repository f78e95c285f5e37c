//! A source in memory that never fails.

ghost use Rattle.std.specs.Prelude.{◌≡◌, ◌≤◌, ◌<◌, [], false, length, take, Some, is_err, IfOk, MatchResult};
ghost use Rattle.retro_io.specs.Faults.{CountsFaults, last_count};
ghost use Rattle.retro_io.specs.Memory.{ReadsWhole};
ghost use Rattle.retro_io.specs.Source.{Gives, bytes_given, bytes_left, ended_after, taken_after};

use crate::stock::Stock;
use crate::{Failed, Source};
use retro_base::NoMemory;
use std::alloc::Global;
use std::marker::Model;

/// A source over bytes in memory that never fails and gives as much as it is asked for. It tells its bytes.
#[derive(Drop)]
pub struct WholeSource {
    stock: Stock,
}

impl Model for WholeSource {
    ghost use Rattle.retro_io.specs.Memory.{Stocked};

    ghost Value = { Stocked };

    ghost view = { λ s. s.stock };
}

impl WholeSource {
    /// A source of these bytes.
    pub fn new(alloc: Global, bytes: &[u8]) -> Result<WholeSource, NoMemory>
        ensures left { IfOk result (λ source. source.left ≡ bytes.now) }
        ensures taken { IfOk result (λ source. source.taken ≡ 0) }
        ensures ended { IfOk result (λ source. source.ended ≡ false) }
    {
        Ok(WholeSource {
            stock: Stock::new(alloc, bytes)?,
        })
    }
}

impl Source for WholeSource {
    ghost left = { λ s. Some s.left };

    ghost taken = { λ s. s.taken };

    ghost ended = { λ s. s.ended };

    ghost faults = { λ _. 0 };

    ghost reads = { ReadsWhole };

    /// Gives as many bytes as the buffer holds and as there are.
    fn read(&mut self, buffer: &mut [u8]) -> Result<usize, Failed>
        ensures within { IfOk result (λ count. count ≤ length buffer.new) }
        ensures given { MatchResult result
            (λ count. Gives (Some self.old.left) (take count buffer.new) (Some self.new.left))
            (λ _. Some self.new.left ≡ Some self.old.left) }
        ensures at_end { IfOk result (λ count. count ≡ 0 → 0 < length buffer.new → bytes_left (Some self.new.left) ≡ []) }
        ensures taken { self.new.taken ≡ taken_after self.old.taken result }
        ensures ended { self.new.ended ≡ ended_after self.old.ended result buffer.new }
        ensures does { ReadsWhole self.old (length buffer.new) (bytes_given result buffer.new) self.new }
        ensures counts { CountsFaults (is_err result) 0 0 }
        ensures counted { 0 ≤ last_count }
    {
        let most = buffer.len().max(1);
        Ok(self.stock.give(buffer, most))
    }
}
