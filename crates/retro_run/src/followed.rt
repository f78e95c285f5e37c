//! A whole run of a script, with followers or without.

ghost use Rattle.std.specs.Prelude.{◌≡◌, [], Err, false, map, IfErr, IfOk};
ghost use Rattle.retro_run.specs.Audience.{audience_by, audience_of, followed};
ghost use Rattle.retro_run.specs.Cause.{HasCause};
ghost use Rattle.retro_run.specs.Ends.{EndsUnflushed, ScriptStands};
ghost use Rattle.retro_run.specs.Output.{alone};
ghost use Rattle.retro_run.specs.Run.{AppendsWhole, AppendsWholePrefix};
ghost use Rattle.retro_run.specs.Stop.{StopsReading, status_after, stops_at_write};

use crate::deliver::send;
use crate::follow::write_reports;
use crate::script::answer_source;
use crate::stop::Stop;
use followers::Follower;
use reactions::AnyBench;
use retro_base::NoMemory;
use retro_io::{Failed, SendingSink, Sink, Source};
use std::alloc::Global;

/// Reads a script and answers its lines, whose events the followers are handed, and then writes what each of them reports.
fn answer_and_report<B: AnyBench, S: Source, K: SendingSink>(
    alloc: Global,
    source: &mut S,
    followers: &mut [Option<Box<dyn Follower>>],
    sink: &mut K,
) -> Result<bool, Stop>
    ensures answered { IfOk result (EndsUnflushed ⟦<S as Source>⟧ ⟦<K as Sink>⟧ K.sends (followed (audience_by report_after followers.old))
        source.old source.new sink.old sink.new (AppendsWhole (followed (audience_by report_after followers.old)))) }
    ensures stands { IfErr result (λ stop. ScriptStands ⟦<S as Source>⟧ ⟦<K as Sink>⟧ K.sends (followed (audience_by report_after followers.old))
        source.old source.new sink.old sink.new (status_after (Err stop))) }
    ensures cause { HasCause ⟦<S as Source>⟧ ⟦<K as Sink>⟧ source.old source.new sink.old sink.new result }
    ensures sent { IfErr result (λ stop. StopsReading stop → K.waiting sink.new ≡ []) }
{
    let refused = answer_source::<B, _, _>(alloc, source, followers, sink)?;
    write_reports(alloc, followers, sink)?;
    Ok(refused)
}

/// Reads a script, answers its lines, reports, and sees to it that all arrives. Where it ends early, what was written whole before has
/// gone on, unless the sink fails.
fn follow_script<B: AnyBench, S: Source, K: SendingSink>(
    alloc: Global,
    source: &mut S,
    followers: &mut [Option<Box<dyn Follower>>],
    sink: &mut K,
) -> Result<bool, Stop>
    ensures stands { ScriptStands ⟦<S as Source>⟧ ⟦<K as Sink>⟧ K.sends (followed (audience_by report_after followers.old))
        source.old source.new sink.old sink.new (status_after result) }
    ensures cause { HasCause ⟦<S as Source>⟧ ⟦<K as Sink>⟧ source.old source.new sink.old sink.new result }
    ensures sent { K.waiting sink.old ≡ [] → stops_at_write result ≡ false → K.waiting sink.new ≡ [] }
{
    let answered = answer_and_report::<B, _, _>(alloc, source, followers, sink);
    let refused = match answered {
        Ok(refused) => refused,
        Err(Stop::NoMemory) => {
            send(sink)?;
            return Err(Stop::NoMemory);
        }
        Err(stop) => return Err(stop),
    };
    match sink.flush() {
        Ok(()) => Ok(refused),
        Err(Failed) => Err(Stop::WriteFault),
    }
}

/// Reads a script that nobody follows, and answers its lines by the bench alone. The result tells whether a line was refused.
pub fn run_script<B: AnyBench, S: Source, K: SendingSink>(
    alloc: Global,
    source: &mut S,
    sink: &mut K,
) -> Result<bool, Stop>
    ensures stands { ScriptStands ⟦<S as Source>⟧ ⟦<K as Sink>⟧ K.sends alone source.old source.new sink.old sink.new (status_after result) }
    // Whatever stands is a prefix of the whole.
    ensures prefix { AppendsWholePrefix alone (S.left source.old) (K.written sink.old) (K.written sink.new) }
    ensures cause { HasCause ⟦<S as Source>⟧ ⟦<K as Sink>⟧ source.old source.new sink.old sink.new result }
    ensures sent { K.waiting sink.old ≡ [] → stops_at_write result ≡ false → K.waiting sink.new ≡ [] }
{
    follow_script::<B, _, _>(alloc, source, &mut [], sink)
}

/// Gives the followers their numbers, reads a script, answers its lines and reports. The result tells whether a line was refused.
pub fn follow_from_start<B: AnyBench, S: Source, K: SendingSink>(
    alloc: Global,
    source: &mut S,
    followers: Vec<Box<dyn Follower>>,
    sink: &mut K,
) -> Result<bool, Stop>
    ensures stands { ScriptStands ⟦<S as Source>⟧ ⟦<K as Sink>⟧ K.sends (followed (audience_of (map (λ f. report_after f) followers.items)))
        source.old source.new sink.old sink.new (status_after result) }
    ensures prefix { AppendsWholePrefix (followed (audience_of (map (λ f. report_after f) followers.items))) (S.left source.old) (K.written sink.old) (K.written sink.new) }
    ensures cause { HasCause ⟦<S as Source>⟧ ⟦<K as Sink>⟧ source.old source.new sink.old sink.new result }
    ensures sent { K.waiting sink.old ≡ [] → stops_at_write result ≡ false → K.waiting sink.new ≡ [] }
{
    let mut numbered = all_left(alloc, followers)?;
    follow_script::<B, _, _>(alloc, source, &mut numbered, sink)
}

/// The followers as they are handed in: each of them is left.
fn all_left(
    alloc: Global,
    followers: Vec<Box<dyn Follower>>,
) -> Result<Vec<Option<Box<dyn Follower>>>, NoMemory>
    ensures { IfOk result (λ numbered. audience_by report_after numbered.items ≡ audience_of (map (λ f. report_after f) followers.items)) }
{
    let mut numbered = Vec::new(alloc);
    for follower in followers {
        numbered.push(Some(follower))?;
    }
    Ok(numbered)
}
