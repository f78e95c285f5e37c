//! A reader that reads only where no answer waits.

ghost use Rattle.std.specs.Prelude.{◌≡◌, [], false, IfErr, IfOk};
ghost use Rattle.retro_io.specs.Faults.{CountsFaults};
ghost use Rattle.retro_io.specs.LineReader.{GivesLine, KeepsSource, MovesOn, ShowsErrors, StopsAt, TookForLine, has_failed, held, line_of, reference_of, source_of};
ghost use Rattle.retro_io.specs.Lines.{has_line_feed};
ghost use Rattle.retro_io.specs.Marks.{is_fault};

use retro_io::{LineReader, Mark, ReadError, SendingSink, Source};

/// A reader of lines that reads only where nothing waits at the sink that the answers go to: whoever waits for an answer has it before
/// more is asked for. The reader inside moves on by no other call.
#[derive(Drop)]
pub(crate) struct SentReader<'a, S: Source> {
    reader: LineReader<'a, S>,
}

impl<'a, S: Source> SentReader<'a, S> {
    /// This reader.
    pub(crate) fn new(reader: LineReader<'a, S>) -> SentReader<'a, S>
        ensures { result.reader ≡ reader.entry }
    {
        SentReader { reader }
    }

    /// Gives the source back.
    pub(crate) fn into_inner(self) -> &'a mut S
        ensures reference { result.ghost_name ≡ reference_of self.entry.reader }
        ensures source { result.now ≡ source_of self.entry.reader }
    {
        let SentReader { reader } = self;
        reader.into_inner()
    }

    /// What the reader shows of the line that it gave in the last call.
    pub(crate) fn line(&self) -> &[u8]
        ensures { result.now ≡ line_of self.now.reader }
    {
        self.reader.line()
    }

    /// Whether a whole line is held, so that the next one is given without a read.
    pub(crate) fn holds_line(&self) -> bool
        ensures { result ≡ has_line_feed (held self.now.reader) }
    {
        self.reader.holds_line()
    }

    /// Moves to the next line, as the reader does. Where it holds no whole line, and so may read, nothing may wait at the sink, which
    /// is there for this condition alone.
    pub(crate) fn next_line<K: SendingSink>(&mut self, _sink: &K) -> Result<Mark, ReadError>
        requires open { has_failed self.old.reader ≡ false }
        requires sent { has_line_feed (held self.old.reader) ≡ false → K.waiting _sink.now ≡ [] }
        ensures moves { MovesOn self.old.reader self.new.reader }
        ensures shows { ShowsErrors result self.new.reader }
        ensures source_faults { CountsFaults (is_fault result) (S.faults (source_of self.old.reader)) (S.faults (source_of self.new.reader)) }
        ensures gives { IfOk result (λ mark. GivesLine mark self.old.reader self.new.reader) }
        ensures stops { IfErr result (λ error. StopsAt error self.old.reader self.new.reader) }
        ensures kept { KeepsSource result self.old.reader self.new.reader }
        ensures took { TookForLine result self.old.reader self.new.reader }
    {
        self.reader.next()
    }
}
