//! A script is answered, line by line.

ghost use Rattle.std.specs.Prelude.{◌≡◌, [], ◌+◌, ◌↔◌, ◌≤◌, Err, false, IsTrue, IfOk, IfErr, IfSome, OnErr, OnOk, IsErrOf, length};
ghost use Rattle.retro_base.specs.Limits.{longest_line, most_bytes};
ghost use Rattle.retro_io.specs.Faults.{CountsFaults};
ghost use Rattle.retro_io.specs.Flushes.{EndsWithFailedSend, StaysUnflushed};
ghost use Rattle.retro_io.specs.LineReader.{IsUnread, MovesOn, held, limit_of, source_of, taken};
ghost use Rattle.retro_io.specs.Lines.{has_line_feed, lines};
ghost use Rattle.reactions.specs.Bench.{empty_bench};
ghost use Rattle.reactions.specs.Reaction.{closing};
ghost use Rattle.retro_run.specs.Audience.{audience_after, audience_by, followed, follows_to};
ghost use Rattle.retro_run.specs.Cause.{HasCause};
ghost use Rattle.retro_run.specs.Delivery.{Writes};
ghost use Rattle.retro_run.specs.Ends.{EndsUnflushed, ScriptStands};
ghost use Rattle.retro_run.specs.Run.{AppendsOutput};
ghost use Rattle.retro_run.specs.Stop.{StopsReading, status_after, stops_at_read, stops_at_write};

use crate::MAX_BYTES;
use crate::deliver::{append, send};
use crate::follow::hand_on;
use crate::mute::{answer_by_follower, muted};
use crate::sent_reader::SentReader;
use crate::stop::Stop;
use followers::Follower;
use reactions::AnyBench;
use retro_base::Text;
use retro_io::{LineBuffer, LineReader, Mark, SendingSink, Sink, Source};
use std::alloc::Global;

/// Answers one line: by the follower that it mutes, or by the bench, whose events the followers are handed before the answer is written.
/// The answer takes the place of what `answer` holds.
fn answer_line<B: AnyBench, K: SendingSink>(
    line: &[u8],
    long: bool,
    bench: &mut B,
    followers: &mut [Option<Box<dyn Follower>>],
    answer: &mut Text,
    sink: &mut K,
) -> Result<bool, Stop>
    requires within { length line.now ≤ longest_line }
    requires full { IsTrue long → length line.now ≡ longest_line }
    requires unspent { (B.state bench.old).spent ≡ false }
    ensures answered { IfOk result (λ refused. let turn = follows_to (B.state bench.old).bench (audience_by report_after followers.old) line.now long in
        (B.state bench.new ≡ record { bench = turn.reaction.bench; spent = false }) × (refused ≡ turn.reaction.refused)
        × (audience_by report_after followers.new ≡ turn.audience)) }
    ensures writes { Writes ⟦<K as Sink>⟧ K.sends (follows_to (B.state bench.old).bench (audience_by report_after followers.old) line.now long).reaction.answer (sink.new ≡ sink.old)
        sink.old sink.new result }
    ensures sink_faults { CountsFaults (stops_at_write result) (K.faults sink.old) (K.faults sink.new) }
{
    if let Some(number) = muted(line, long, bench, followers) {
        return answer_by_follower(number, followers, answer, sink);
    }
    let refused = bench.line_into(line, long, answer)?;
    hand_on(answer.as_bytes(), followers)?;
    append(answer.as_bytes(), sink)?;
    Ok(refused)
}

/// Closes the block that is being read, if there is one, and writes the answer, which takes the place of what `answer` holds.
fn answer_end<B: AnyBench, K: SendingSink>(
    bench: &mut B,
    answer: &mut Text,
    sink: &mut K,
) -> Result<bool, Stop>
    requires { (B.state bench.old).spent ≡ false }
    ensures refused { IfOk result (λ refused. refused ≡ (closing (B.state bench.old).bench).refused) }
    ensures writes { Writes ⟦<K as Sink>⟧ K.sends (closing (B.state bench.old).bench).answer (sink.new ≡ sink.old) sink.old sink.new result }
    ensures sink_faults { CountsFaults (stops_at_write result) (K.faults sink.old) (K.faults sink.new) }
{
    let refused = bench.end_into(answer)?;
    append(answer.as_bytes(), sink)?;
    Ok(refused)
}

/// Lets go on what waits at the sink, unless the reader holds a whole line and so makes no read for the next one.
fn send_before_read<S: Source, K: SendingSink>(
    reader: &SentReader<'_, S>,
    sink: &mut K,
) -> Result<(), Stop>
    ensures written { K.written sink.new ≡ K.written sink.old }
    ensures sent { OnOk result (has_line_feed (held reader.now.reader) ≡ false → K.waiting sink.new ≡ []) }
    ensures unflushed { OnOk result (StaysUnflushed ⟦<K as Sink>⟧ K.sends sink.old sink.new) }
    ensures failed { IfErr result (λ stop. stop ≡ Stop.WriteFault) }
    ensures last { OnErr result (EndsWithFailedSend ⟦<K as Sink>⟧ K.sends sink.old sink.new) }
    ensures sink_faults { CountsFaults (stops_at_write result) (K.faults sink.old) (K.faults sink.new) }
{
    if reader.holds_line() {
        Ok(())
    } else {
        send(sink)
    }
}

/// Answers the lines that a reader gives, up to the end of the input, by a new bench. The answer to each is written before the next one
/// is read, and where the source is read for that, it is sent before. One text holds each answer in its turn.
fn answer_lines<B: AnyBench, S: Source, K: SendingSink>(
    reader: &mut SentReader<'_, S>,
    bench: &mut B,
    followers: &mut [Option<Box<dyn Follower>>],
    answer: &mut Text,
    sink: &mut K,
) -> Result<bool, Stop>
    requires new { B.state bench.old ≡ record { bench = empty_bench; spent = false } }
    requires unread { IsUnread reader.old.reader }
    requires limit { limit_of reader.old.reader ≡ most_bytes }
    ensures moves { MovesOn reader.old.reader reader.new.reader }
    ensures answered { IfOk result (EndsUnflushed ⟦<S as Source>⟧ ⟦<K as Sink>⟧ K.sends (followed (audience_by report_after followers.old))
        (source_of reader.old.reader) (source_of reader.new.reader) sink.old sink.new (AppendsOutput (followed (audience_by report_after followers.old)))) }
    ensures handed { OnOk result (IfSome (S.left (source_of reader.old.reader)) (λ bytes. audience_by report_after followers.new
        ≡ audience_after empty_bench (audience_by report_after followers.old) (lines bytes))) }
    ensures stands { IfErr result (λ stop. ScriptStands ⟦<S as Source>⟧ ⟦<K as Sink>⟧ K.sends (followed (audience_by report_after followers.old))
        (source_of reader.old.reader) (source_of reader.new.reader) sink.old sink.new (status_after (Err stop))) }
    ensures source_faults { CountsFaults (stops_at_read result) (S.faults (source_of reader.old.reader)) (S.faults (source_of reader.new.reader)) }
    ensures sink_faults { CountsFaults (stops_at_write result) (K.faults sink.old) (K.faults sink.new) }
    ensures too_long { IsErrOf result Stop.TooLong ↔ (taken reader.new.reader ≡ limit_of reader.new.reader + 1) }
    ensures sent { IfErr result (λ stop. StopsReading stop → K.waiting sink.new ≡ []) }
{
    let mut refused = false;
    loop {
        send_before_read(reader, sink)?;
        let long = match reader.next_line(sink)? {
            Mark::Whole => false,
            Mark::Long => true,
            Mark::End => {
                refused |= answer_end(bench, answer, sink)?;
                return Ok(refused);
            }
        };
        refused |= answer_line(reader.line(), long, bench, followers, answer, sink)?;
    }
}

/// Reads a script and answers its lines, whose events the followers are handed.
pub(crate) fn answer_source<B: AnyBench, S: Source, K: SendingSink>(
    alloc: Global,
    source: &mut S,
    followers: &mut [Option<Box<dyn Follower>>],
    sink: &mut K,
) -> Result<bool, Stop>
    ensures answered { IfOk result (EndsUnflushed ⟦<S as Source>⟧ ⟦<K as Sink>⟧ K.sends (followed (audience_by report_after followers.old))
        source.old source.new sink.old sink.new (AppendsOutput (followed (audience_by report_after followers.old)))) }
    ensures handed { OnOk result (IfSome (S.left source.old) (λ bytes. audience_by report_after followers.new
        ≡ audience_after empty_bench (audience_by report_after followers.old) (lines bytes))) }
    ensures stands { IfErr result (λ stop. ScriptStands ⟦<S as Source>⟧ ⟦<K as Sink>⟧ K.sends (followed (audience_by report_after followers.old))
        source.old source.new sink.old sink.new (status_after (Err stop))) }
    ensures cause { HasCause ⟦<S as Source>⟧ ⟦<K as Sink>⟧ source.old source.new sink.old sink.new result }
    ensures sent { IfErr result (λ stop. StopsReading stop → K.waiting sink.new ≡ []) }
{
    let buffer = LineBuffer::new(alloc)?;
    let mut reader = SentReader::new(LineReader::with_buffer(buffer, source, MAX_BYTES));
    let mut bench = B::empty(alloc);
    let mut text = Text::new(alloc);
    let answered = answer_lines(&mut reader, &mut bench, followers, &mut text, sink);
    // Its clause says what became of the source.
    let _source = reader.into_inner();
    drop(bench);
    answered
}
