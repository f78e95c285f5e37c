//! The program, over any streams.

ghost use Rattle.std.specs.Prelude.{◌≡◌, ◌≤◌, [], false, length, map};
ghost use Rattle.retro_io.specs.Flushes.{no_sends};
ghost use Rattle.retro_run.specs.Audience.{audience_of};
ghost use Rattle.retro_run.specs.Run.{is_write_fault};
ghost use Rattle.retro_run.specs.Stop.{status_after};
ghost use Rattle.retro_cli.specs.FollowedProgram.{EndsUnsentBy, RunsFollowed, most_followers};
ghost use Rattle.retro_cli.specs.Forms.{form_of, is_follow};
ghost use Rattle.retro_cli.specs.Program.{EndsUnsent, RunsAlone};

use crate::Words;
use crate::form::{Form, form_of, is_follow};
use followers::Follower;
use retro_io::{DirectSink, SendingSink, Sink, Source};
use retro_run::{Status, Stop, follow_from_start, run_check, run_generated, run_script};
use std::alloc::Global;
use workbench::Bench;

/// Runs the program. With the word `run` it reads a script from the source and writes the answer to each line to the
/// sink, before it reads the next one. With `check` it reads lines of evidence and writes their judgement; with
/// `gen KIND N START` it reads nothing, answers a generated script and writes what it comes to. With other words it reads
/// and writes nothing.
pub fn run<S: Source, K: Sink>(alloc: Global, words: &Words, source: &mut S, sink: &mut K) -> Status
    // What stands at each status, when each comes, completeness, and the counts of faults: the parts of `KeepsPromise`.
    ensures promise { RunsAlone ⟦<S as Source>⟧ ⟦<K as Sink>⟧ no_sends source.old source.new sink.old sink.new result words.now }
    // At a fault of the sink, less than all of it at a write that failed, and all of it only at a flush that failed.
    ensures fault { result ≡ Status.WriteFault
        → EndsUnsent ⟦<S as Source>⟧ ⟦<K as Sink>⟧ source.old source.new sink.old sink.new (form_of words.now) }
{
    let mut direct = DirectSink::new(sink);
    let status = run_by_form(alloc, words, source, &mut direct);
    // Its clause says what became of the sink.
    let _sink = direct.into_inner();
    status
}

/// Runs the program as `run` does, and with the words `follow` and `follow NAME` as with the word `run`, but that the followers are
/// handed the changes of priority queues. A line `mute I` is then answered by what follower I reports, `report I TEXT`, and lets it
/// go; what each of those who are left reports stands after the answers. With the other words no follower is asked.
pub fn run_followed<S: Source, K: Sink>(
    alloc: Global,
    words: &Words,
    source: &mut S,
    sink: &mut K,
    followers: Vec<Box<dyn Follower>>,
) -> Status
    requires { length followers.items ≤ most_followers }
    // As of a run, but that a followed run leaves its output and the reports.
    ensures promise { RunsFollowed ⟦<S as Source>⟧ ⟦<K as Sink>⟧ no_sends (audience_of (map (λ f. report_after f) followers.items))
        source.old source.new sink.old sink.new result words.now }
    ensures fault { result ≡ Status.WriteFault
        → EndsUnsentBy ⟦<S as Source>⟧ ⟦<K as Sink>⟧ source.old source.new sink.old sink.new (audience_of (map (λ f. report_after f) followers.items))
        (is_follow words.now) (form_of words.now) }
{
    let mut direct = DirectSink::new(sink);
    let status = run_sending(alloc, words, source, &mut direct, followers);
    // Its clause says what became of the sink.
    let _sink = direct.into_inner();
    status
}

/// Runs the program as `run_followed` does over a sink at which bytes may wait. What waits there is sent before each read of the
/// source for a line, and where the run ends. A send that fails ends the run as a write that fails does.
pub fn run_sending<S: Source, K: SendingSink>(
    alloc: Global,
    words: &Words,
    source: &mut S,
    sink: &mut K,
    followers: Vec<Box<dyn Follower>>,
) -> Status
    requires { length followers.items ≤ most_followers }
    ensures promise { RunsFollowed ⟦<S as Source>⟧ ⟦<K as Sink>⟧ K.sends (audience_of (map (λ f. report_after f) followers.items))
        source.old source.new sink.old sink.new result words.now }
    // Where nothing waits at the sink before, nothing waits where the run ends, unless the sink failed.
    ensures sent { K.waiting sink.old ≡ [] → is_write_fault result ≡ false → K.waiting sink.new ≡ [] }
{
    if is_follow(words) {
        status_after(follow_from_start::<Bench, _, _>(alloc, source, followers, sink))
    } else {
        run_by_form(alloc, words, source, sink)
    }
}

/// Runs the program as `run` does, and sends what waits.
fn run_by_form<S: Source, K: SendingSink>(
    alloc: Global,
    words: &Words,
    source: &mut S,
    sink: &mut K,
) -> Status
    ensures promise { RunsAlone ⟦<S as Source>⟧ ⟦<K as Sink>⟧ K.sends source.old source.new sink.old sink.new result words.now }
    ensures sent { K.waiting sink.old ≡ [] → is_write_fault result ≡ false → K.waiting sink.new ≡ [] }
{
    match form_of(words) {
        Some(Form::Run) => status_after(run_script::<Bench, _, _>(alloc, source, sink)),
        Some(Form::Check) => status_after(run_check(alloc, source, sink)),
        Some(Form::Gen { kind, lines, start }) => {
            status_after(run_generated::<Bench, _>(alloc, kind, lines, start, sink))
        }
        None => Status::Words,
    }
}

/// The status of a run that ended so: the answer tells whether a line was refused.
fn status_after(ended: Result<bool, Stop>) -> Status
    ensures { result ≡ status_after ended }
{
    match ended {
        Ok(false) => Status::Done,
        Ok(true) => Status::Refused,
        Err(Stop::ReadFault) => Status::ReadFault,
        Err(Stop::WriteFault) => Status::WriteFault,
        Err(Stop::NoMemory) => Status::NoMemory,
        Err(Stop::TooLong) => Status::TooLong,
    }
}
