//! The lines of a source, up to a limit.

ghost use Rattle.std.specs.Prelude.{◌≡◌, ◌+◌, ◌-◌, ◌^◌, ◌≤◌, ◌<◌, ◌↔◌, [], true, false, length, take, drop, Result, Ok, IfOk, IfErr, IsErrOf, is_err};
ghost use Rattle.retro_io.specs.DueReads.{ReadOnce, WereDue};
ghost use Rattle.retro_io.specs.Faults.{CountsFaults};
ghost use Rattle.retro_io.specs.Lines.{has_line_feed, longest_line};
ghost use Rattle.retro_io.specs.Marks.{is_fault};
ghost use Rattle.retro_io.specs.Reads.{GivesFirst, MakesOf, Took};
ghost use Rattle.retro_io.specs.Source.{Gives, bytes_left};

use crate::line_buffer::{LONGEST, LineBuffer};
use crate::{Failed, Mark, ReadError, Source};
use retro_base::NoMemory;
use std::alloc::Global;

/// Reads the lines of a source, up to a limit of bytes. A contract learns what became of the source where `into_inner`
/// gives it back, and not where a reader is dropped.
#[derive(Drop)]
pub struct LineReader<'a, S: Source> {
    source: &'a mut S,
    buffer: LineBuffer,
    taken: u64,
    limit: u64,
    ended: bool,
    failed: bool,
    ghost limited: { limit < 2 ^ 62 },
    ghost within: { taken ≤ limit + 1 },
    ghost in_limit: { failed ≡ false → taken ≤ limit },
    ghost counted: { length buffer.held ≤ taken },
    ghost all_given: { ended ≡ true → buffer.held ≡ [] },
    ghost none_left: { ended ≡ true → bytes_left (S.left source.now) ≡ [] },
    ghost at_end: { ended ≡ true → S.ended source.now ≡ true },
}

impl<'a, S: Source> LineReader<'a, S> {
    ghost use Rattle.retro_io.specs.LineReader.{GivesLine, IsUnread, KeepsSource, MovesOn, ShowsErrors, StopsAt, TookForLine, held, line_of, taken, limit_of, has_ended, has_failed, source_of, reference_of};

    /// A reader of the lines of the source. It reserves all the memory that it will need.
    pub fn new(alloc: Global, source: &'a mut S, limit: u64) -> Result<LineReader<'a, S>, NoMemory>
        requires { limit < 2 ^ 62 }
        ensures reference { IfOk result (λ r. reference_of r ≡ source.entry.ghost_name) }
        ensures source { IfOk result (λ r. source_of r ≡ source.entry.now) }
        ensures limit { IfOk result (λ r. limit_of r ≡ limit) }
        ensures unread { IfOk result IsUnread }
    {
        let buffer = LineBuffer::new(alloc)?;
        Ok(LineReader::with_buffer(buffer, source, limit))
    }

    /// The same with a buffer that is there already. It takes no memory.
    pub fn with_buffer(buffer: LineBuffer, source: &'a mut S, limit: u64) -> LineReader<'a, S>
        requires limit { limit < 2 ^ 62 }
        requires empty { buffer.held ≡ [] }
        ensures reference { reference_of result ≡ source.entry.ghost_name }
        ensures source { source_of result ≡ source.entry.now }
        ensures limit { limit_of result ≡ limit }
        ensures unread { IsUnread result }
    {
        LineReader {
            source,
            buffer,
            taken: 0,
            limit,
            ended: false,
            failed: false,
        }
    }

    /// Gives the source back. Bytes that the reader holds are lost.
    pub fn into_inner(self) -> &'a mut S
        ensures reference { result.ghost_name ≡ reference_of self.entry }
        ensures source { result.now ≡ source_of self.entry }
    {
        let LineReader {
            source,
            buffer: _buffer,
            taken: _taken,
            limit: _limit,
            ended: _ended,
            failed: _failed,
        } = self;
        source
    }

    /// What the reader shows of the line that it gave in the last call: of a long one as much as a line may have. Where the last
    /// call gave no line, what it shows means nothing.
    pub fn line(&self) -> &[u8]
        ensures { result.now ≡ line_of self.now }
    {
        self.buffer.line()
    }

    /// Whether a whole line is held, so that the next one is given without a read. It looks at no byte.
    pub fn holds_line(&self) -> bool
        ensures { result ≡ has_line_feed (held self.now) }
    {
        self.buffer.line_feed().is_some()
    }

    /// Moves to the next line. It takes no memory, and reads from the source only where no whole line is held and no
    /// read of its own has answered the end. A read offers all of its buffer but what is kept of a line, or as much as is left
    /// up to the limit where that is less, or room for the one byte that shows that there are more.
    pub fn next(&mut self) -> Result<Mark, ReadError>
        requires { has_failed self.old ≡ false }
        ensures moves { MovesOn self.old self.new }
        ensures shows { ShowsErrors result self.new }
        ensures source_faults { CountsFaults (is_fault result) (S.faults (source_of self.old)) (S.faults (source_of self.new)) }
        // The lines given are those of the bytes, whatever the pieces.
        ensures gives { IfOk result (λ mark. GivesLine mark self.old self.new) }
        ensures stops { IfErr result (λ error. StopsAt error self.old self.new) }
        // Over every source the line is the first of the bytes held and of those that the reads gave. It reads only where no whole
        // line is held and no read of its own has answered the end or failed, and offers a buffer of the stated size.
        ensures kept { KeepsSource result self.old self.new }
        ensures took { TookForLine result self.old self.new }
    {
        if self.ended {
            return Ok(Mark::End);
        }
        match self.buffer.line_feed() {
            Some(at) => Ok(self.buffer.give(at, at + 1)),
            None => self.read_line(),
        }
    }

    /// Reads until a line feed comes, or the end, or an error.
    fn read_line(&mut self) -> Result<Mark, ReadError>
        requires failed { has_failed self.old ≡ false }
        requires ended { has_ended self.old ≡ false }
        requires unbroken { has_line_feed (held self.old) ≡ false }
        ensures moves { MovesOn self.old self.new }
        ensures shows { ShowsErrors result self.new }
        ensures source_faults { CountsFaults (is_fault result) (S.faults (source_of self.old)) (S.faults (source_of self.new)) }
        ensures took { Took (S.left (source_of self.old)) (S.left (source_of self.new)) (taken self.new - taken self.old)
            (λ got. MakesOf result (line_of self.new) (has_ended self.new) (held self.old) (held self.new) got
            × WereDue S.reads (limit_of self.old - taken self.old) (held self.old) false (source_of self.old) got (source_of self.new)) }
    {
        while self.buffer.len() <= LONGEST + 1 {
            if self.fill()? == 0 {
                return Ok(self.give_last());
            }
            if let Some(at) = self.buffer.line_feed() {
                return Ok(self.buffer.give(at, at + 1));
            }
        }
        self.read_long()
    }

    /// Reads on, past a line that is long already, until a line feed comes, or the end, or an error.
    fn read_long(&mut self) -> Result<Mark, ReadError>
        requires failed { has_failed self.old ≡ false }
        requires ended { has_ended self.old ≡ false }
        requires unbroken { has_line_feed (held self.old) ≡ false }
        requires long { longest_line + 1 < length (held self.old) }
        ensures moves { MovesOn self.old self.new }
        ensures shows { ShowsErrors result self.new }
        ensures source_faults { CountsFaults (is_fault result) (S.faults (source_of self.old)) (S.faults (source_of self.new)) }
        ensures took { Took (S.left (source_of self.old)) (S.left (source_of self.new)) (taken self.new - taken self.old)
            (λ got. MakesOf result (line_of self.new) (has_ended self.new) (held self.old) (held self.new) got
            × WereDue S.reads (limit_of self.old - taken self.old) (held self.old) false (source_of self.old) got (source_of self.new)) }
    {
        loop {
            self.buffer.keep_prefix();
            if self.fill()? == 0 {
                self.buffer.give_long(LONGEST);
                self.ended = true;
                return Ok(Mark::Long);
            }
            if let Some(at) = self.buffer.line_feed() {
                self.buffer.give_long(at + 1);
                return Ok(Mark::Long);
            }
        }
    }

    /// Gives what is held at the end of the input, if there is anything.
    fn give_last(&mut self) -> Mark
        requires failed { has_failed self.old ≡ false }
        requires unbroken { has_line_feed (held self.old) ≡ false }
        requires at_end { S.ended (source_of self.old) ≡ true }
        requires none_left { bytes_left (S.left (source_of self.old)) ≡ [] }
        ensures reference { reference_of self.new ≡ reference_of self.old }
        ensures source { source_of self.new ≡ source_of self.old }
        ensures limit { limit_of self.new ≡ limit_of self.old }
        ensures failed { has_failed self.new ≡ false }
        ensures ended { has_ended self.new ≡ true }
        ensures taken { taken self.new ≡ taken self.old }
        ensures gives { GivesFirst result (line_of self.new) true (held self.old) (held self.new) }
    {
        let held = self.buffer.len();
        self.ended = true;
        if held == 0 {
            Mark::End
        } else {
            self.buffer.give(held, held)
        }
    }

    /// Reads after the bytes held: up to the limit, or the one byte that shows that there are more. The buffer offers
    /// all of its room but what it keeps of a line.
    fn fill(&mut self) -> Result<usize, ReadError>
        requires failed { has_failed self.old ≡ false }
        requires ended { has_ended self.old ≡ false }
        requires room { length (held self.old) ≤ longest_line + 1 }
        requires unbroken { has_line_feed (held self.old) ≡ false }
        ensures moves { MovesOn self.old self.new }
        ensures failed { has_failed self.new ≡ is_err result }
        ensures ended { has_ended self.new ≡ false }
        ensures count { IfOk result (λ count. taken self.new ≡ taken self.old + count) }
        ensures source_faults { CountsFaults (is_fault result) (S.faults (source_of self.old)) (S.faults (source_of self.new)) }
        ensures reads { ReadOnce S.reads (limit_of self.old - taken self.old)
            (source_of self.old) (drop (length (held self.old)) (held self.new)) (source_of self.new) }
        ensures kept { take (length (held self.old)) (held self.new) ≡ held self.old }
        ensures length { length (held self.new) ≡ length (held self.old) + (taken self.new - taken self.old) }
        ensures gives { Gives (S.left (source_of self.old)) (drop (length (held self.old)) (held self.new)) (S.left (source_of self.new)) }
        ensures at_end { IfOk result (λ count. count ≡ 0 →
            (bytes_left (S.left (source_of self.new)) ≡ []) × (S.ended (source_of self.new) ≡ true)) }
        ensures fault { IsErrOf result ReadError.ReadFault → taken self.new ≡ taken self.old }
        ensures too_long { IsErrOf result ReadError.TooLong ↔ (taken self.new ≡ limit_of self.new + 1) }
        ensures last { IsErrOf result ReadError.TooLong → taken self.old ≡ limit_of self.old }
    {
        let most = (self.limit - self.taken).max(1);
        match self.buffer.fill_from(self.source, most) {
            Ok(count) => {
                self.taken += count as u64;
                if self.taken > self.limit {
                    self.failed = true;
                    return Err(ReadError::TooLong);
                }
                Ok(count)
            }
            Err(Failed) => {
                self.failed = true;
                Err(ReadError::ReadFault)
            }
        }
    }
}
