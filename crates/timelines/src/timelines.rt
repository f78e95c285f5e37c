//! The timelines of a bench, by their names.

ghost use Rattle.std.specs.Prelude.{◌≡◌, ◌<◌, [], ◌∷◌, ◌++◌, length, true, false, nat_le, option_map, position, slice_get, Some, None, IfOk, IfSome, OnErr, OnOk, MatchOption};
ghost use Rattle.std.specs.List.{list_any, remove, AllByRecursion};
ghost use Rattle.retro_base.specs.Limits.{most_timelines};
ghost use Rattle.retro_base.specs.Replay.{present};
ghost use Rattle.script_grammar.specs.Command.{IsProper};
ghost use Rattle.timeline_file.specs.Block.{finished};
ghost use Rattle.reactions.specs.Bench.{has_timeline, is_named, size_of, timeline_of};
ghost use Rattle.timelines.specs.Kept.{IsUnspent, is_kept_as, named};
ghost use Rattle.reactions.specs.Outcome.{is_refusal};
ghost use Rattle.reactions.specs.Reaction.{closes, loads, obeys, of_block, on_named, starts};
ghost use Rattle.timelines.specs.AnsweredLine.{performs, told};

use crate::named_timeline::NamedTimeline;
use crate::open_block::OpenBlock;
use reactions::{MAX_TIMELINES, Outcome, Refusal, tell_refusal};
use retro_base::{Answer, AnyStructure, Kind, Name, NoMemory, Question, Retro, Text};
use script_grammar::{Command, LineError};
use std::alloc::Global;
use std::marker::Model;
use timeline_undo::Session;

/// The timelines that a script has made, in the order in which it made them.
#[derive(Drop)]
pub(crate) struct Timelines<R: AnyStructure> {
    alloc: Global,
    timelines: Vec<NamedTimeline<R>>,
}

impl<R: AnyStructure> Model for Timelines<R> {
    ghost use Rattle.std.specs.Prelude.{List};
    ghost use Rattle.std.specs.List.{AllByRecursion};
    ghost use Rattle.reactions.specs.Bench.{NamedTimeline};
    ghost use Rattle.timelines.specs.Kept.{IsUnspent, shown};

    ghost Value = { List NamedTimeline };

    ghost view = { λ t. shown t.timelines.items };

    ghost invariant = { λ t. AllByRecursion IsUnspent t.timelines.items };
}

impl<R: AnyStructure> Timelines<R> {
    ghost use Rattle.reactions.specs.Bench.{present_size, row_count};

    /// No timelines.
    pub(crate) fn new(alloc: Global) -> Timelines<R>
        ensures { result ≡ [] }
    {
        Timelines {
            alloc,
            timelines: Vec::new(alloc),
        }
    }

    /// Does what a command asks for, or refuses a line that has none: itself what is about no timeline, and else by the timeline of the
    /// name. Writes the answer, and gives whether it is a refusal. After a refusal all is as before.
    pub(crate) fn obey(
        &mut self,
        line: &Result<Command, LineError>,
        answer: &mut Text,
    ) -> Result<bool, NoMemory>
        requires proper { IfOk line.now IsProper }
        requires empty { answer.old ≡ [] }
        ensures { IfOk result (λ refused. told (obeys self.old line.now) ≡ record { timelines = self.new; answer = answer.new; refused = refused }) }
    {
        match line {
            Ok(command) => match command {
                Command::Insert { name, .. }
                | Command::Delete { name, .. }
                | Command::Move { name, .. }
                | Command::Change { name, .. }
                | Command::Fate { name, .. }
                | Command::Ask { name, .. }
                | Command::Undo { name }
                | Command::Redo { name }
                | Command::Save { name } => self.perform(name, command, answer),
                Command::New { name, kind, fused } => self.start_into(*name, *kind, *fused, answer),
                Command::Mute { index } => tell_refusal(
                    Refusal::NoFollower { number: *index },
                    answer,
                ),
                Command::Nothing | Command::Header { .. } => Ok(false),
            },
            Err(LineError::Long) => tell_refusal(Refusal::Long, answer),
            Err(LineError::Syntax) => tell_refusal(Refusal::Syntax, answer),
        }
    }

    /// Does what a command asks of the timeline of this name, and writes the answer.
    fn perform(
        &mut self,
        name: &Name,
        command: &Command,
        answer: &mut Text,
    ) -> Result<bool, NoMemory>
        requires empty { answer.old ≡ [] }
        ensures { IfOk result (λ refused. told (on_named name.now (λ timeline. performs timeline command.now) self.old) ≡ record { timelines = self.new; answer = answer.new; refused = refused }) }
    {
        match self.index_of(name) {
            Some(index) => {
                let refused = self.timelines[index].perform(command, answer);
                let_go_if_spent(&mut self.timelines, index);
                refused
            }
            None => tell_refusal(Refusal::NoTimeline { name: *name }, answer),
        }
    }

    /// Starts a timeline, and writes the answer. It is not inlined: other lines need none of the room that it clears.
    #[inline(never)]
    fn start_into(
        &mut self,
        name: Name,
        kind: Kind,
        fused: bool,
        answer: &mut Text,
    ) -> Result<bool, NoMemory>
        requires kind { fused ≡ true → kind ≡ Kind.Pq }
        requires empty { answer.old ≡ [] }
        ensures { IfOk result (λ refused. told (starts self.old name kind) ≡ record { timelines = self.new; answer = answer.new; refused = refused }) }
    {
        self.start(name, kind, fused)?.tell(answer)
    }

    /// Starts a timeline without rows, where the name is free and there is room for one more.
    fn start(&mut self, name: Name, kind: Kind, fused: bool) -> Result<Outcome, NoMemory>
        requires { fused ≡ true → kind ≡ Kind.Pq }
        ensures ok { IfOk result (λ outcome. starts self.old name kind ≡ record { timelines = self.new; outcome = outcome }) }
        ensures err { OnErr result (self.new ≡ self.old) }
        ensures memory { OnErr result (is_refusal (starts self.old name kind).outcome ≡ false) }
    {
        if self.has(&name) {
            return Ok(Outcome::refused(Refusal::NameTaken));
        }
        if self.is_full() {
            return Ok(Outcome::refused(Refusal::Timelines));
        }
        let timeline = NamedTimeline::new(self.alloc, name, kind, fused)?;
        self.add(timeline)?;
        Ok(Outcome::Accepted)
    }

    /// Puts a timeline behind the others. After `NoMemory` all is as before.
    fn add(&mut self, timeline: NamedTimeline<R>) -> Result<(), NoMemory>
        requires unspent { IsUnspent timeline }
        ensures ok { OnOk result (self.new ≡ self.old ++ timeline.timeline ∷ []) }
        ensures err { OnErr result (self.new ≡ self.old) }
    {
        self.timelines.push(timeline)?;
        Ok(())
    }

    /// Closes a block: its rows become a timeline, where its name is free, there is room for one more, and nothing is
    /// wrong with it. After a refusal and after `NoMemory` all is as before.
    pub(crate) fn close(&mut self, unclosed: OpenBlock, ended: bool) -> Result<Outcome, NoMemory>
        ensures ok { IfOk result (λ outcome. closes self.old unclosed ended ≡ record { timelines = self.new; outcome = outcome }) }
        ensures err { OnErr result (self.new ≡ self.old) }
        ensures memory { OnErr result (is_refusal (closes self.old unclosed ended).outcome ≡ false) }
    {
        if self.has(&unclosed.name()) {
            return Ok(Outcome::refused(Refusal::NameTaken));
        }
        if self.is_full() {
            return Ok(Outcome::refused(Refusal::Timelines));
        }
        self.load(unclosed, ended)
    }

    /// Makes a timeline of what a block comes to.
    fn load(&mut self, unclosed: OpenBlock, ended: bool) -> Result<Outcome, NoMemory>
        ensures ok { IfOk result (λ outcome. loads self.old unclosed (finished unclosed.block ended) ≡ record { timelines = self.new; outcome = outcome }) }
        ensures err { OnErr result (self.new ≡ self.old) }
        ensures memory { OnErr result (is_refusal (loads self.old unclosed (finished unclosed.block ended)).outcome ≡ false) }
    {
        match unclosed.into_timeline(self.alloc, ended)? {
            Ok(loaded) => {
                self.add(loaded.timeline)?;
                Ok(Outcome::Loaded {
                    evidence: loaded.evidence,
                })
            }
            Err(error) => Ok(Outcome::refused(Refusal::of_block(error))),
        }
    }

    /// The session of the timeline of this name.
    pub(crate) fn session(&self, name: &Name) -> Option<&Session<R>>
        ensures { MatchOption result (timeline_of name.now self.now ≡ None)
            (λ session. (timeline_of name.now self.now ≡ Some (named name.now session.now)) × (session.now.spent ≡ false)) }
    {
        match self.index_of(name) {
            Some(index) => Some(self.timelines[index].session()),
            None => None,
        }
    }

    /// How many rows the timeline of this name has.
    pub(crate) fn rows_of(&self, name: &Name) -> Option<u32>
        ensures { result ≡ option_map row_count (timeline_of name.now self.now) }
    {
        match self.session(name) {
            Some(session) => Some(session.timeline().len()),
            None => None,
        }
    }

    /// How many items, pairs or entries it holds at present.
    pub(crate) fn size_of(&self, name: &Name) -> Option<u32>
        ensures { result ≡ option_map present_size (timeline_of name.now self.now) }
    {
        match self.session(name) {
            Some(session) => Some(size_of(session)),
            None => None,
        }
    }

    /// Whether a timeline has the name.
    fn has(&self, name: &Name) -> bool
        ensures { result ≡ has_timeline name.now self.now }
    {
        has_name(self.timelines.as_slice(), name)
    }

    /// Whether there are as many timelines as there may be.
    fn is_full(&self) -> bool
        ensures { result ≡ nat_le most_timelines (length self.now) }
    {
        self.timelines.as_slice().len() >= MAX_TIMELINES
    }

    /// The index of the timeline that has the name.
    fn index_of(&self, name: &Name) -> Option<usize>
        ensures { result ≡ position (is_named name.now) self.now }
    {
        index_named(self.timelines.as_slice(), name)
    }
}

/// Whether one of the timelines has the name.
fn has_name<R: AnyStructure>(timelines: &[NamedTimeline<R>], name: &Name) -> bool
    ensures { result ≡ list_any (is_kept_as name.now) timelines.now }
{
    timelines.iter().any(|timeline| timeline.is_named(name))
}

/// The index of the first one that has it.
fn index_named<R: AnyStructure>(timelines: &[NamedTimeline<R>], name: &Name) -> Option<usize>
    ensures { result ≡ position (is_kept_as name.now) timelines.now }
{
    timelines
        .iter()
        .position(|timeline| timeline.is_named(name))
}

/// Lets a timeline go whose session met out of memory within a step: the bench is spent then, and nobody asks for it again.
fn let_go_if_spent<R: AnyStructure>(timelines: &mut Vec<NamedTimeline<R>>, index: usize)
    requires there { index < length timelines.old.items }
    requires others { AllByRecursion IsUnspent (remove timelines.old.items index) }
    ensures unspent { AllByRecursion IsUnspent timelines.new.items }
    ensures same { IfSome (slice_get timelines.old.items index) IsUnspent → timelines.new.items ≡ timelines.old.items }
{
    if timelines[index].spent() {
        drop(timelines.remove(index));
    }
}

/// How many items, pairs or entries a session holds at present.
fn size_of<R: Retro + Drop>(session: &Session<R>) -> u32
    requires { session.now.spent ≡ false }
    ensures { result ≡ size_of (present session.now.kind session.now.rows) }
{
    // Its clause says that the rows are few.
    let _rows = session.timeline().len();
    match session.ask_now(Question::Size) {
        Answer::Number { value } => value as u32,
        _ => 0,
    }
}
