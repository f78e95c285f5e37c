//! Evidence is judged, up to the end of the input.

ghost use Rattle.std.specs.Prelude.{◌≡◌, ◌≤◌, ◌+◌, ◌↔◌, [], false, true, IfOk, IfSome, IsErrOf, OnOk, option_map};
ghost use Rattle.retro_base.specs.Limits.{most_bytes};
ghost use Rattle.retro_io.specs.Faults.{CountsFaults};
ghost use Rattle.retro_io.specs.LineReader.{MovesOn, has_failed, limit_of, rest_of, source_of, taken};
ghost use Rattle.retro_run.specs.Cause.{HasCause};
ghost use Rattle.retro_run.specs.Delivery.{StandsAt};
ghost use Rattle.retro_run.specs.Judging.{is_refusal, judged_output, judgement_after, judgement_of};
ghost use Rattle.retro_run.specs.Stop.{stops_at_read, stops_at_write};

use crate::MAX_BYTES;
use crate::deliver::deliver;
use crate::judging::Judging;
use crate::stop::Stop;
use retro_base::Text;
use retro_io::{LineBuffer, LineReader, Mark, SendingSink, Sink, Source};
use std::alloc::Global;

/// Judges the evidence among the lines that a reader gives, up to the end of the input.
fn judge_lines<S: Source>(alloc: Global, reader: &mut LineReader<'_, S>) -> Result<Judging, Stop>
    requires open { has_failed reader.old ≡ false }
    requires few { limit_of reader.old ≤ most_bytes }
    ensures moves { MovesOn reader.old reader.new }
    ensures ended { OnOk result (S.ended (source_of reader.new) ≡ true) }
    ensures judged { IfOk result (λ judging. IfSome (rest_of reader.old) (λ bytes. judgement_after judging [] ≡ judgement_of bytes)) }
    ensures source_faults { CountsFaults (stops_at_read result) (S.faults (source_of reader.old)) (S.faults (source_of reader.new)) }
    ensures too_long { IsErrOf result Stop.TooLong ↔ (taken reader.new ≡ limit_of reader.new + 1) }
    ensures writes_nothing { stops_at_write result ≡ false }
{
    let mut judging = Judging::new(alloc);
    loop {
        let long = match reader.next()? {
            Mark::Whole => false,
            Mark::Long => true,
            Mark::End => return Ok(judging),
        };
        judging.take(reader.line(), long)?;
    }
}

/// Judges the evidence of a source, and writes the judgement: the answer tells whether a line was refused.
pub fn run_check<S: Source, K: SendingSink>(
    alloc: Global,
    source: &mut S,
    sink: &mut K,
) -> Result<bool, Stop>
    ensures ended { OnOk result (S.ended source.new ≡ true) }
    ensures stands { StandsAt ⟦<K as Sink>⟧ K.sends (option_map judged_output (S.left source.old)) sink.old sink.new result }
    ensures refusal { IfOk result (λ refused. IfSome (S.left source.old) (λ bytes. refused ≡ is_refusal (judgement_of bytes))) }
    ensures cause { HasCause ⟦<S as Source>⟧ ⟦<K as Sink>⟧ source.old source.new sink.old sink.new result }
    ensures sent { K.waiting sink.old ≡ [] → stops_at_write result ≡ false → K.waiting sink.new ≡ [] }
{
    let buffer = LineBuffer::new(alloc)?;
    let mut reader = LineReader::with_buffer(buffer, source, MAX_BYTES);
    let judged = judge_lines(alloc, &mut reader);
    // Its clause says what became of the source.
    let _source = reader.into_inner();
    let judging = judged?;
    let mut text = Text::new(alloc);
    judging.print(&mut text)?;
    deliver(text.as_bytes(), sink)?;
    Ok(judging.is_refused())
}
