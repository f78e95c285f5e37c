//! A source in memory, of which chosen reads fail.

ghost use Rattle.std.specs.Prelude.{◌≡◌, ◌≤◌, ◌<◌, [], false, length, take, Some, is_err, IfOk, MatchResult};
ghost use Rattle.retro_io.specs.Faults.{CountsFaults, last_count};
ghost use Rattle.retro_io.specs.Memory.{ReadsPieced};
ghost use Rattle.retro_io.specs.Source.{Gives, bytes_given, bytes_left, ended_after, taken_after};

use crate::stock::{Stock, is_among};
use crate::{Failed, Source};
use retro_base::NoMemory;
use std::alloc::Global;
use std::marker::Model;

/// A source over bytes in memory that gives them in small pieces, and of which chosen calls fail. It tells its bytes.
#[derive(Drop)]
pub struct MemorySource {
    stock: Stock,
    piece: u32,
    failing: Vec<u32>,
    calls: u64,
    faults: u64,
}

impl Model for MemorySource {
    ghost use Rattle.std.specs.Prelude.{◌<◌};
    ghost use Rattle.retro_io.specs.Memory.{Pieced};

    ghost Value = { Pieced };

    ghost view = { λ s. record {
      stock = s.stock;
      piece = s.piece;
      failing = s.failing.items;
      calls = s.calls;
      faults = s.faults;
    } };

    ghost invariant = { λ s. 0 < s.piece };
}

impl MemorySource {
    /// A source of these bytes, which gives at most `piece` of them a call, and whose calls of these numbers fail. The
    /// first call has number 0.
    pub fn new(
        alloc: Global,
        bytes: &[u8],
        piece: u32,
        failing: &[u32],
    ) -> Result<MemorySource, NoMemory>
        requires { 0 < piece }
        ensures left { IfOk result (λ source. source.stock.left ≡ bytes.now) }
        ensures taken { IfOk result (λ source. source.stock.taken ≡ 0) }
        ensures ended { IfOk result (λ source. source.stock.ended ≡ false) }
        ensures piece { IfOk result (λ source. source.piece ≡ piece) }
        ensures failing { IfOk result (λ source. source.failing ≡ failing.now) }
        ensures calls { IfOk result (λ source. source.calls ≡ 0) }
        ensures faults { IfOk result (λ source. source.faults ≡ 0) }
    {
        Ok(MemorySource {
            stock: Stock::new(alloc, bytes)?,
            piece,
            failing: Vec::from_slice(alloc, failing)?,
            calls: 0,
            faults: 0,
        })
    }
}

impl Source for MemorySource {
    ghost left = { λ s. Some s.stock.left };

    ghost taken = { λ s. s.stock.taken };

    ghost ended = { λ s. s.stock.ended };

    ghost faults = { λ s. s.faults };

    ghost reads = { ReadsPieced };

    /// Fails exactly where the number of the call is among those chosen, and gives a piece at the most.
    fn read(&mut self, buffer: &mut [u8]) -> Result<usize, Failed>
        ensures within { IfOk result (λ count. count ≤ length buffer.new) }
        ensures given { MatchResult result
            (λ count. Gives (Some self.old.stock.left) (take count buffer.new) (Some self.new.stock.left))
            (λ _. Some self.new.stock.left ≡ Some self.old.stock.left) }
        ensures at_end { IfOk result (λ count. count ≡ 0 → 0 < length buffer.new → bytes_left (Some self.new.stock.left) ≡ []) }
        ensures taken { self.new.stock.taken ≡ taken_after self.old.stock.taken result }
        ensures ended { self.new.stock.ended ≡ ended_after self.old.stock.ended result buffer.new }
        ensures does { ReadsPieced self.old (length buffer.new) (bytes_given result buffer.new) self.new }
        ensures counts { CountsFaults (is_err result) self.old.faults self.new.faults }
        ensures counted { self.new.faults ≤ last_count }
    {
        let fails = is_among(self.calls, &self.failing);
        self.calls = self.calls.saturating_add(1);
        if fails {
            self.faults = self.faults.saturating_add(1);
            self.stock.refuse(buffer);
            return Err(Failed);
        }
        Ok(self.stock.give(buffer, self.piece as usize))
    }
}
