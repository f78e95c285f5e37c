//! The bytes that were read and not given yet, and the line that is cut from them.

ghost use Rattle.std.specs.Prelude.{◌≡◌, ◌+◌, ◌-◌, ◌≢◌, ◌≤◌, ◌<◌, ℕ, [], ◌∷◌, ◌++◌, true, false, length, take, drop, slice_index, Result, is_err, IfOk, MatchResult, MatchOption};
ghost use Rattle.std.specs.List.{slice_range};
ghost use Rattle.retro_io.specs.DueReads.{ReadOnce};
ghost use Rattle.retro_io.specs.Faults.{CountsFaults};
ghost use Rattle.retro_io.specs.Lines.{MarksLineFeed, has_line_feed, longest_line, line_feed, without_return};
ghost use Rattle.retro_io.specs.Marks.{Shows};
ghost use Rattle.retro_io.specs.Source.{Gives, bytes_given, bytes_left, taken_after};

use crate::{Failed, Mark, Source};
use retro_base::NoMemory;
use std::alloc::Global;
use std::marker::Model;

/// The most bytes of a line that is not long.
pub(crate) const LONGEST: usize = 4096;

/// How many bytes the buffer has: room for what is kept of a line, and for a large read.
const CAPACITY: usize = 65536;

/// The bytes that were read and not given yet, in a range of a buffer of a fixed size, and the line
/// that was given last, in front of them. Where the first line feed of the bytes held stands is looked up once.
#[derive(Drop)]
pub struct LineBuffer {
    bytes: Vec<u8>,
    start: usize,
    end: usize,
    line_start: usize,
    line_end: usize,
    line_feed: Option<usize>,
}

impl Model for LineBuffer {
    ghost use Rattle.std.specs.Prelude.{◌≡◌, ◌≤◌, vec_len};
    ghost use Rattle.std.specs.List.{slice_range};
    ghost use Rattle.retro_io.specs.LineBuffer.{Buffered, buffer_size};
    ghost use Rattle.retro_io.specs.Lines.{MarksLineFeed};

    ghost Value = { Buffered };

    ghost view = { λ b. record {
      held = slice_range b.bytes.items b.start b.end;
      shown = slice_range b.bytes.items b.line_start b.line_end;
    } };

    ghost invariant = { λ b. (b.start ≤ b.end) × (b.end ≤ buffer_size) × (vec_len b.bytes ≡ buffer_size)
        × (b.line_start ≤ b.line_end) × (b.line_end ≤ buffer_size)
        × MarksLineFeed b.line_feed (slice_range b.bytes.items b.start b.end) };
}

impl LineBuffer {
    /// An empty buffer, with all the memory that it will need.
    pub fn new(alloc: Global) -> Result<LineBuffer, NoMemory>
        ensures held { IfOk result (λ buffer. buffer.held ≡ []) }
        ensures shown { IfOk result (λ buffer. buffer.shown ≡ []) }
    {
        Ok(LineBuffer {
            bytes: vec![in alloc; 0; CAPACITY]?,
            start: 0,
            end: 0,
            line_start: 0,
            line_end: 0,
            line_feed: None,
        })
    }

    /// How many bytes are held.
    pub(crate) fn len(&self) -> usize
        ensures { result ≡ length self.now.held }
    {
        self.end - self.start
    }

    /// What is shown of the line that was given last.
    pub(crate) fn line(&self) -> &[u8]
        ensures { result.now ≡ self.now.shown }
    {
        &self.bytes[self.line_start..self.line_end]
    }

    /// Where the first line feed stands among the bytes held.
    pub(crate) fn line_feed(&self) -> Option<usize>
        ensures { MarksLineFeed result self.now.held }
    {
        self.line_feed
    }

    /// Gives the line of the first `piece` bytes held, and drops the first `given`.
    pub(crate) fn give(&mut self, piece: usize, given: usize) -> Mark
        requires piece { piece ≤ given }
        requires given { given ≤ length self.old.held }
        ensures shown { Shows result self.new.shown (without_return (take piece self.old.held)) }
        ensures held { self.new.held ≡ drop given self.old.held }
    {
        let end = self.start + piece;
        let line = line_end(&self.bytes, self.start, end);
        self.line_start = self.start;
        self.start += given;
        self.line_feed = line_feed_from(&self.bytes[self.start..self.end], 0);
        if line - self.line_start > LONGEST {
            self.line_end = self.line_start + LONGEST;
            return Mark::Long;
        }
        self.line_end = line;
        Mark::Whole
    }

    /// Gives a long line of which the first bytes are held, and drops the first `given` bytes held.
    pub(crate) fn give_long(&mut self, given: usize)
        requires long { longest_line ≤ given }
        requires given { given ≤ length self.old.held }
        ensures shown { self.new.shown ≡ take longest_line self.old.held }
        ensures held { self.new.held ≡ drop given self.old.held }
    {
        self.line_start = self.start;
        self.line_end = self.start + LONGEST;
        self.start += given;
        self.line_feed = line_feed_from(&self.bytes[self.start..self.end], 0);
    }

    /// Keeps what is shown of a long line, and drops the other bytes held.
    pub(crate) fn keep_prefix(&mut self)
        requires long { longest_line ≤ length self.old.held }
        requires unbroken { has_line_feed self.old.held ≡ false }
        ensures held { self.new.held ≡ take longest_line self.old.held }
        ensures length { length self.new.held ≡ longest_line }
    {
        self.end = self.start + LONGEST;
    }

    /// Reads at most `most` bytes after those held, and looks for a line feed among them.
    pub(crate) fn fill_from<S: Source>(
        &mut self,
        source: &mut S,
        most: u64,
    ) -> Result<usize, Failed>
        requires some { 0 < most }
        requires room { length self.old.held ≤ longest_line + 1 }
        requires unbroken { has_line_feed self.old.held ≡ false }
        ensures kept { take (length self.old.held) self.new.held ≡ self.old.held }
        ensures count { MatchResult result
            (λ count. length self.new.held ≡ length self.old.held + count)
            (λ _. self.new.held ≡ self.old.held) }
        ensures within { IfOk result (λ count. count ≤ most) }
        ensures given { MatchResult result
            (λ count. Gives (S.left source.old) (drop (length self.old.held) self.new.held) (S.left source.new))
            (λ _. S.left source.new ≡ S.left source.old) }
        ensures at_end { IfOk result (λ count. count ≡ 0 → (bytes_left (S.left source.new) ≡ []) × (S.ended source.new ≡ true)) }
        ensures taken { S.taken source.new ≡ taken_after (S.taken source.old) result }
        ensures reads { ReadOnce S.reads most source.old (drop (length self.old.held) self.new.held) source.new }
        ensures counts { CountsFaults (is_err result) (S.faults source.old) (S.faults source.new) }
    {
        move_to_front(&mut self.bytes, self.start, self.end);
        self.end -= self.start;
        self.start = 0;
        self.line_start = 0;
        self.line_end = 0;
        let room = (CAPACITY - self.end) as u64;
        let upto = self.end + room.min(most) as usize;
        let count = read_into(source, &mut self.bytes, self.end, upto)?;
        self.line_feed = line_feed_from(&self.bytes[..self.end + count], self.end);
        self.end += count;
        Ok(count)
    }
}

/// Where the first line feed stands. The first `from` bytes have none.
fn line_feed_from(bytes: &[u8], from: usize) -> Option<usize>
    requires within { from ≤ length bytes.now }
    requires clear { has_line_feed (take from bytes.now) ≡ false }
    ensures { MarksLineFeed result bytes.now }
{
    match first_line_feed(&bytes[from..]) {
        Some(at) => Some(from + at),
        None => None,
    }
}

/// Where the first line feed stands.
fn first_line_feed(bytes: &[u8]) -> Option<usize>
    ensures { MatchOption result
        ((k : ℕ) → k < length bytes.now → slice_index bytes.now k ≢ line_feed)
        (λ at. (at < length bytes.now) × (slice_index bytes.now at ≡ line_feed)
        × ((k : ℕ) → k < at → slice_index bytes.now k ≢ line_feed)) }
{
    bytes.iter().position(|byte| *byte == b'\n')
}

/// Moves the bytes from `start` to `end` to the front.
fn move_to_front(bytes: &mut [u8], start: usize, end: usize)
    requires order { start ≤ end }
    requires within { end ≤ length bytes.old }
    ensures len { length bytes.new ≡ length bytes.old }
    ensures moved { take (end - start) bytes.new ≡ slice_range bytes.old start end }
{
    if start > 0 {
        bytes.copy_within(start..end, 0);
    }
}

/// Where the line of the bytes from `start` to `end` ends: before the one carriage return at their very end.
fn line_end(bytes: &[u8], start: usize, end: usize) -> usize
    requires order { start ≤ end }
    requires within { end ≤ length bytes.now }
    ensures low { start ≤ result }
    ensures high { result ≤ end }
    ensures line { slice_range bytes.now start result ≡ without_return (slice_range bytes.now start end) }
{
    if start < end && bytes[end - 1] == b'\r' {
        end - 1
    } else {
        end
    }
}

/// Reads into the bytes from `from` to `upto`.
fn read_into<S: Source>(
    source: &mut S,
    bytes: &mut [u8],
    from: usize,
    upto: usize,
) -> Result<usize, Failed>
    requires some { from < upto }
    requires within { upto ≤ length bytes.old }
    ensures len { length bytes.new ≡ length bytes.old }
    ensures kept { take from bytes.new ≡ take from bytes.old }
    ensures count { IfOk result (λ count. from + count ≤ upto) }
    ensures given { MatchResult result
        (λ count. Gives (S.left source.old) (take count (drop from bytes.new)) (S.left source.new))
        (λ _. S.left source.new ≡ S.left source.old) }
    ensures at_end { IfOk result (λ count. count ≡ 0 → (bytes_left (S.left source.new) ≡ []) × (S.ended source.new ≡ true)) }
    ensures taken { S.taken source.new ≡ taken_after (S.taken source.old) result }
    ensures reads { S.reads source.old (upto - from) (bytes_given result (drop from bytes.new)) source.new }
    ensures counts { CountsFaults (is_err result) (S.faults source.old) (S.faults source.new) }
{
    source.read(&mut bytes[from..upto])
}
