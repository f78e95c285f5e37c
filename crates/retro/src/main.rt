//! The program `retro`: it reads a script from standard input and writes the answers to standard
//! output. All that it does is the call of `retro_cli::run_sending` on the words of its command line; this is
//! the one place where the real streams are handed in. It writes to an outbox before standard output, so that answers
//! go out together, and sends what waits there before each read and where it ends: whoever waits for an answer gets it before
//! the next line is asked for.
#![tactic(auto)]

ghost use Rattle.std.specs.Prelude.{◌≡◌, ◌≢◌, ◌<◌, ◌≤◌, ◌-◌, ◌^◌, ◌⊎◌, ◌∷◌, [], length, map, IfOk, IfErr, OnErr};
ghost use Rattle.std.specs.IoError.{error_kind};
ghost use Rattle.std.specs.Process.{exit_status};
ghost use Rattle.followers.specs.Totals.{tally};
ghost use Rattle.retro_run.specs.Status.{code_of};
ghost use Rattle.retro.specs.Followers.{followers_of, mirror, name_followed};
ghost use Rattle.retro.specs.Gathered.{EndsARun, RunsGathered};
ghost use Rattle.retro.specs.Words.{words_after_name, words_refused};
ghost use Rattle.retro_cli.specs.FollowedProgram.{HasNoForm, most_followers};

use followers::{Follower, Mirror, Tally};
use retro_base::{Name, NoMemory};
use retro_cli::{Status, Words, run_sending};
use retro_io::{Outbox, Sink, Source, StdSink, StdSource};
use std::alloc::Global;
use std::env::{self, Args};
use std::io::{self, ErrorKind, Stdin, Stdout};
use std::process::ExitCode;

/// The exit status where the system refuses the words of the command line. No run gives it.
const WORDS_REFUSED: u8 = 7;

fn main(rt: HostRuntime) -> ExitCode {
    match env::args(&rt) {
        Ok(args) => exit_code(status_of(&rt, args)),
        Err(error) => ExitCode::from(code_of_refusal(&error)),
    }
}

/// Runs the program over the streams of the process, with the words after its name.
fn status_of(rt: &HostRuntime, args: Args) -> Status
    ensures runs { (result ≡ Status.NoMemory) ⊎ ((result ≡ Status.Words) ⊎ EndsARun ⟦<StdSource<Stdin> as Source>⟧ ⟦<StdSink<Stdout> as Sink>⟧
        ⟦<Outbox<StdSink<Stdout>> as Sink>⟧ result (words_after_name args)) }
    ensures words { result ≡ Status.Words → HasNoForm (words_after_name args) }
    ensures no_form { HasNoForm (words_after_name args) → (result ≡ Status.Words) ⊎ (result ≡ Status.NoMemory) }
{
    let words = match words_of(rt.alloc(), args) {
        Ok(words) => words,
        Err(status) => return status,
    };
    let mut source = StdSource::new(rt.stdin());
    let sink = StdSink::new(rt.stdout());
    match run_gathered(rt.alloc(), &words, &mut source, sink) {
        Ok((status, _outbox)) => status,
        Err(NoMemory) => Status::NoMemory,
    }
}

/// Runs the program over an outbox before this sink, with a tally as follower, and after it a mirror where the words have a name, and
/// gives the outbox back. All that `run_sending` promises holds of the outbox, and where the sink did not fail, all that was written to it
/// has gone on to the sink. After `NoMemory` nothing was read.
fn run_gathered<S: Source, K: Sink + Drop>(
    alloc: Global,
    words: &Words,
    source: &mut S,
    sink: K,
) -> Result<(Status, Outbox<K>), NoMemory>
    ensures runs { IfOk result (λ ended. RunsGathered ⟦<S as Source>⟧ ⟦<K as Sink>⟧ ⟦<Outbox<K> as Sink>⟧ (followers_of words.now)
        source.old source.new sink ended.1 ended.0 words.now) }
    ensures err { OnErr result (source.new ≡ source.old) }
{
    let mut followers: Vec<Box<dyn Follower>> = Vec::new(alloc);
    followers.push(Box::new(alloc, Tally::new())?)?;
    if let Some(name) = name_followed(words) {
        followers.push(Box::new(alloc, Mirror::new(alloc, name))?)?;
    }
    let mut outbox = Outbox::new(alloc, sink)?;
    let status = run_sending(alloc, words, source, &mut outbox, followers);
    Ok((status, outbox))
}

/// The second of two words, if it is a name.
fn name_followed(words: &Words) -> Option<Name>
    ensures { result ≡ name_followed words.now }
{
    if words.len() == 2 {
        Name::read(words.word(1))
    } else {
        None
    }
}

/// The words after the program's name, each of them, or the status where they cannot be had.
fn words_of(alloc: Global, args: Args) -> Result<Words, Status>
    ensures words { IfOk result (λ words. words ≡ words_after_name args) }
    ensures refused { IfErr result (λ status. (status ≡ Status.NoMemory)
        ⊎ ((status ≡ Status.Words) × (2 ^ 32 - 1 < length (words_after_name args)))) }
{
    let mut args = args;
    let _name = args.next();
    let mut words = Words::new(alloc);
    for word in args {
        if words.len() == u32::MAX {
            return Err(Status::Words);
        }
        if words.push(word.as_bytes()).is_err() {
            return Err(Status::NoMemory);
        }
    }
    Ok(words)
}

/// The exit status of the process where a run ended with this status.
fn exit_code(status: Status) -> ExitCode
    ensures { exit_status result ≡ code_of status }
{
    ExitCode::from(status.code())
}

/// The exit status at an error of reading the words: those that are not text are none of the forms.
fn code_of_refusal(error: &io::Error) -> u8
    ensures no_text { error_kind error.now ≡ ErrorKind.InvalidData → result ≡ code_of Status.Words }
    ensures no_memory { error_kind error.now ≡ ErrorKind.OutOfMemory → result ≡ code_of Status.NoMemory }
    ensures refused { error_kind error.now ≢ ErrorKind.InvalidData → error_kind error.now ≢ ErrorKind.OutOfMemory → result ≡ words_refused }
{
    match error.kind() {
        ErrorKind::InvalidData => Status::Words.code(),
        ErrorKind::OutOfMemory => Status::NoMemory.code(),
        _ => WORDS_REFUSED,
    }
}
