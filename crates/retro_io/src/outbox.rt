//! A sink that gathers what is written before it goes on to another one.

ghost use Rattle.std.specs.Prelude.{◌≡◌, ◌≤◌, ◌<◌, ◌++◌, [], true, false, length, vec_len, vec_capacity, IfOk};
ghost use Rattle.retro_io.specs.Faults.{CountsFaults, count_after, last_count};

use crate::sink::put_until_fault;
use crate::{Failed, SendingSink, Sink};
use retro_base::NoMemory;
use std::alloc::Global;

/// How many bytes wait at the most.
const CAPACITY: usize = 65536;

/// A sink before another one. What is written waits in a buffer of a fixed size until the buffer is full, or it is flushed
/// or sent; then all of it goes on in one write, where the other sink takes all. Contracts see what was written to it, whether
/// it waits or went on, and what each call hands to the other sink. An outbox fails where the other sink does, and once it
/// has failed, each further call fails and leaves the other sink alone.
#[derive(Drop)]
pub struct Outbox<K> {
    sink: K,
    waiting: Vec<u8>,
    sent: usize,
    failed: bool,
    flushed: bool,
    faults: u64,
    ghost counted: { faults ≤ last_count },
    ghost sent_of: { sent ≤ vec_len waiting },
    ghost within: { vec_len waiting ≤ 65536 },
    ghost reserved: { 65536 ≤ vec_capacity waiting },
}

impl<K: Sink + Drop> Outbox<K> {
    ghost use Rattle.retro_io.specs.Outbox.{HandsOnOnce, sink_of, then_waiting, waiting_of};

    /// An outbox before this sink. It reserves all the memory that it will need.
    pub fn new(alloc: Global, sink: K) -> Result<Outbox<K>, NoMemory>
        ensures sink { IfOk result (λ outbox. sink_of outbox ≡ sink) }
        ensures waiting { IfOk result (λ outbox. waiting_of outbox ≡ []) }
        ensures failed { IfOk result (λ outbox. outbox.failed ≡ false) }
        ensures flushed { IfOk result (λ outbox. outbox.flushed ≡ false) }
        ensures faults { IfOk result (λ outbox. outbox.faults ≡ 0) }
    {
        Ok(Outbox {
            sink,
            waiting: Vec::with_capacity(alloc, CAPACITY)?,
            sent: 0,
            failed: false,
            flushed: false,
            faults: 0,
        })
    }

    /// The sink that it sends to.
    pub fn sink(&self) -> &K
        ensures { result.now ≡ sink_of self.now }
    {
        &self.sink
    }

    /// Hands on all that waits, unless the other sink has failed before. Where it fails now, that is noted, and what it did not
    /// take goes on waiting.
    fn hand_on(&mut self)
        ensures written { then_waiting (K.written (sink_of self.new)) (waiting_of self.new)
            ≡ then_waiting (K.written (sink_of self.old)) (waiting_of self.old) }
        ensures sent { self.new.failed ≡ false → self.new.waiting.items ≡ [] }
        ensures fails { self.new.failed ≡ true → self.old.failed ≡ false → 0 < length (waiting_of self.old) }
        ensures hands_on { HandsOnOnce ⟦<K as Sink>⟧ self.old self.new }
        ensures faults { self.new.faults ≡ self.old.faults }
        ensures flushed { self.new.flushed ≡ self.old.flushed }
    {
        if self.failed {
            return;
        }
        match put_until_fault(&mut self.sink, &self.waiting[self.sent..]) {
            Ok(()) => {
                self.waiting.clear();
                self.sent = 0;
            }
            Err(count) => {
                self.sent += count;
                self.failed = true;
            }
        }
    }

    /// Notes a fault.
    fn fail(&mut self) -> Failed
        ensures counts { CountsFaults true self.old.faults self.new.faults }
        ensures count { self.new.faults ≡ count_after self.old.faults 1 }
        ensures failed { self.new.failed ≡ true }
        ensures sink { sink_of self.new ≡ sink_of self.old }
        ensures waiting { waiting_of self.new ≡ waiting_of self.old }
        ensures flushed { self.new.flushed ≡ self.old.flushed }
    {
        self.failed = true;
        self.faults = self.faults.saturating_add(1);
        Failed
    }
}

impl<K: Sink + Drop> Sink for Outbox<K> {
    ghost use Rattle.retro_io.specs.Outbox.{FlushesOn, Gathers, sink_of, then_waiting, waiting_of};

    ghost written = { λ o. then_waiting (K.written (sink_of o)) (waiting_of o) };

    ghost flushed = { λ o. o.flushed };

    ghost faults = { λ o. o.faults };

    ghost writes = { Gathers ⟦<K as Sink>⟧ };

    ghost flushes = { FlushesOn ⟦<K as Sink>⟧ };

    fn write(&mut self, piece: &[u8]) -> Result<usize, Failed> {
        if self.waiting.len() == CAPACITY {
            self.hand_on();
        }
        self.flushed = false;
        if self.failed {
            return Err(self.fail());
        }
        let count = piece.len().min(CAPACITY - self.waiting.len());
        self.waiting.extend_from_slice(&piece[..count]).unwrap();
        Ok(count)
    }

    fn flush(&mut self) -> Result<(), Failed> {
        self.hand_on();
        self.flushed = false;
        if self.failed || self.sink.flush().is_err() {
            return Err(self.fail());
        }
        self.flushed = true;
        Ok(())
    }
}

impl<K: Sink + Drop> SendingSink for Outbox<K> {
    ghost use Rattle.retro_io.specs.Outbox.{SendsOn, waiting_of};

    ghost waiting = { λ o. waiting_of o };

    ghost sends = { SendsOn ⟦<K as Sink>⟧ };

    ghost flush_sends = { λ _ _ _ flushes. flushes.2.1 };

    fn send(&mut self) -> Result<(), Failed> {
        self.hand_on();
        if self.failed {
            return Err(self.fail());
        }
        Ok(())
    }
}
