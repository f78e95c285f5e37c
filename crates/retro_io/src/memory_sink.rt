//! A sink in memory, of which chosen writes fail.

ghost use Rattle.std.specs.Prelude.{◌≡◌, ◌≤◌, ◌<◌, ◌==◌, ◌-◌, ◌||◌, [], true, false, length, take, min, Some, is_ok, is_err, IfOk, MatchResult};
ghost use Rattle.retro_io.specs.Faults.{CountsFaults, last_count};
ghost use Rattle.retro_io.specs.Memory.{FlushesRoomed, WritesRoomed};
ghost use Rattle.retro_io.specs.Sink.{Appends};

use crate::stock::is_among;
use crate::{Failed, Sink};
use retro_base::NoMemory;
use std::alloc::Global;
use std::marker::Model;

/// A sink in memory that has room for so many bytes, takes them in small pieces, and of which chosen writes fail. It tells
/// what was written.
#[derive(Drop)]
pub struct MemorySink {
    bytes: Vec<u8>,
    room: u32,
    piece: u32,
    failing: Vec<u32>,
    calls: u64,
    flushed: bool,
    faults: u64,
}

impl Model for MemorySink {
    ghost use Rattle.std.specs.Prelude.{◌≤◌, ◌<◌, vec_len, vec_capacity};
    ghost use Rattle.retro_io.specs.Memory.{Roomed};

    ghost Value = { Roomed };

    ghost view = { λ s. record {
      written = s.bytes.items;
      room = s.room;
      piece = s.piece;
      failing = s.failing.items;
      calls = s.calls;
      flushed = s.flushed;
      faults = s.faults;
    } };

    ghost invariant = { λ s. (0 < s.piece) × (vec_len s.bytes ≤ s.room) × (s.room ≤ vec_capacity s.bytes) };
}

impl MemorySink {
    /// A sink with room for `room` bytes, which takes at most `piece` of them a call, and whose write calls of these numbers
    /// fail. The first has number 0.
    pub fn new(
        alloc: Global,
        room: u32,
        piece: u32,
        failing: &[u32],
    ) -> Result<MemorySink, NoMemory>
        requires { 0 < piece }
        ensures written { IfOk result (λ sink. sink.written ≡ []) }
        ensures room { IfOk result (λ sink. sink.room ≡ room) }
        ensures piece { IfOk result (λ sink. sink.piece ≡ piece) }
        ensures failing { IfOk result (λ sink. sink.failing ≡ failing.now) }
        ensures calls { IfOk result (λ sink. sink.calls ≡ 0) }
        ensures flushed { IfOk result (λ sink. sink.flushed ≡ false) }
        ensures faults { IfOk result (λ sink. sink.faults ≡ 0) }
    {
        Ok(MemorySink {
            bytes: Vec::with_capacity(alloc, room as usize)?,
            room,
            piece,
            failing: Vec::from_slice(alloc, failing)?,
            calls: 0,
            flushed: false,
            faults: 0,
        })
    }

    /// The bytes that were written.
    pub fn written(&self) -> &[u8]
        ensures { result.now ≡ self.now.written }
    {
        &self.bytes
    }
}

impl Sink for MemorySink {
    ghost written = { λ s. Some s.written };

    ghost flushed = { λ s. s.flushed };

    ghost faults = { λ s. s.faults };

    ghost writes = { WritesRoomed };

    ghost flushes = { FlushesRoomed };

    /// Fails exactly where the number of the call is among those chosen or the room is full, and takes a piece at the most,
    /// and no more than there is room for.
    fn write(&mut self, piece: &[u8]) -> Result<usize, Failed>
        ensures within { IfOk result (λ count. count ≤ length piece.now) }
        ensures some { IfOk result (λ count. 0 < length piece.now → 0 < count) }
        ensures appended { MatchResult result
            (λ count. Appends (Some self.old.written) (take count piece.now) (Some self.new.written))
            (λ _. Some self.new.written ≡ Some self.old.written) }
        ensures flushed { self.new.flushed ≡ false }
        ensures does { WritesRoomed self.old piece.now result self.new }
        ensures counts { CountsFaults (is_err result) self.old.faults self.new.faults }
        ensures counted { self.new.faults ≤ last_count }
    {
        let room = self.room as usize - self.bytes.len();
        let fails = is_among(self.calls, &self.failing) || room == 0;
        self.calls = self.calls.saturating_add(1);
        self.flushed = false;
        if fails {
            self.faults = self.faults.saturating_add(1);
            return Err(Failed);
        }
        let count = (self.piece as usize).min(piece.len()).min(room);
        self.bytes.extend_from_slice(&piece[..count]).unwrap();
        Ok(count)
    }

    /// Always succeeds, and changes nothing else.
    fn flush(&mut self) -> Result<(), Failed>
        ensures written { Some self.new.written ≡ Some self.old.written }
        ensures flushed { self.new.flushed ≡ is_ok result }
        ensures does { FlushesRoomed self.old result self.new }
        ensures counts { CountsFaults (is_err result) self.old.faults self.new.faults }
        ensures counted { self.new.faults ≤ last_count }
    {
        self.flushed = true;
        Ok(())
    }
}
