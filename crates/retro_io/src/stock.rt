//! Bytes in memory that are given piece by piece.

ghost use Rattle.std.specs.Prelude.{◌≡◌, ◌≤◌, ◌==◌, false, length, take, drop, min, ◌<◌, ◌++◌, IfOk};
ghost use Rattle.std.specs.List.{list_any};
ghost use Rattle.retro_io.specs.Faults.{count_after};
ghost use Rattle.retro_io.specs.Source.{ended_at};

use retro_base::NoMemory;
use std::alloc::Global;
use std::marker::Model;

/// Bytes in memory, of which a source gives one piece after another.
#[derive(Drop)]
pub struct Stock {
    bytes: Vec<u8>,
    at: usize,
    taken: u64,
    ended: bool,
}

impl Model for Stock {
    ghost use Rattle.std.specs.Prelude.{◌≤◌, drop, vec_len};
    ghost use Rattle.retro_io.specs.Memory.{Stocked};

    ghost Value = { Stocked };

    ghost view = { λ s. record { left = drop s.at s.bytes.items; taken = s.taken; ended = s.ended } };

    ghost invariant = { λ s. s.at ≤ vec_len s.bytes };
}

impl Stock {
    /// A copy of these bytes, of which none is taken.
    pub(crate) fn new(alloc: Global, bytes: &[u8]) -> Result<Stock, NoMemory>
        ensures left { IfOk result (λ stock. stock.left ≡ bytes.now) }
        ensures taken { IfOk result (λ stock. stock.taken ≡ 0) }
        ensures ended { IfOk result (λ stock. stock.ended ≡ false) }
    {
        Ok(Stock {
            bytes: Vec::from_slice(alloc, bytes)?,
            at: 0,
            taken: 0,
            ended: false,
        })
    }

    /// Gives the next bytes: as many as the buffer holds, and `most` at the most.
    pub(crate) fn give(&mut self, buffer: &mut [u8], most: usize) -> usize
        requires { 0 < most }
        ensures count { result ≡ min (min most (length buffer.new)) (length self.old.left) }
        ensures given { self.old.left ≡ take result buffer.new ++ self.new.left }
        ensures taken { self.new.taken ≡ count_after self.old.taken result }
        ensures ended { self.new.ended ≡ ended_at self.old.ended result buffer.new }
    {
        let count = copy_some(&self.bytes[self.at..], buffer, most);
        self.at += count;
        self.taken = self.taken.saturating_add(count as u64);
        if !buffer.is_empty() {
            self.ended = count == 0;
        }
        count
    }

    /// Notes a read that failed.
    pub(crate) fn refuse(&mut self, buffer: &[u8])
        ensures left { self.new.left ≡ self.old.left }
        ensures taken { self.new.taken ≡ self.old.taken }
        ensures ended { self.new.ended ≡ ended_at self.old.ended 1 buffer.now }
    {
        if !buffer.is_empty() {
            self.ended = false;
        }
    }
}

/// Copies as many bytes as both have, and `most` at the most.
fn copy_some(from: &[u8], buffer: &mut [u8], most: usize) -> usize
    ensures count { result ≡ min (min most (length buffer.new)) (length from.now) }
    ensures copied { take result buffer.new ≡ take result from.now }
{
    let count = most.min(buffer.len()).min(from.len());
    buffer[..count].copy_from_slice(&from[..count]);
    count
}

/// Whether the number is one of these.
pub fn is_among(number: u64, numbers: &[u32]) -> bool
    ensures { result ≡ list_any (λ other. other == number) numbers.now }
{
    numbers.iter().any(|other| u64::from(*other) == number)
}
