//! The bench: lines are done and answered.

ghost use Rattle.std.specs.Prelude.{◌≡◌, ◌≤◌, ◌⊎◌, [], length, is_err, is_some, true, false, None, Some, IsTrue, IfOk, OnOk, OnErr, MatchOption, option_map};
ghost use Rattle.retro_base.specs.Limits.{longest_line};
ghost use Rattle.script_grammar.specs.Command.{IsProper};
ghost use Rattle.reactions.specs.Bench.{NamedTimeline, empty_bench, present_size, timeline_of};
ghost use Rattle.timelines.specs.Kept.{named};
ghost use Rattle.reactions.specs.Reaction.{closing, ends, opened, reaction_of, reacts_to, with_line, without_block};

use crate::open_block::OpenBlock;
use crate::timelines::Timelines;
use reactions::AnyBench;
use retro_base::{AnyStructure, Name, NoMemory, Text};
use script_grammar::{Command, LineError, is_end, read_line};
use std::alloc::Global;
use std::marker::Model;
use timeline_undo::Session;

/// What a line is answered.
#[derive(Drop)]
pub struct Reply {
    /// The lines that answer it, each with its line feed.
    pub text: Text,
    /// Whether the line was refused.
    pub refused: bool,
}

/// The timelines that a script has made, and the block that is being read. A bench that met out of memory is
/// spent, and takes no more lines.
#[derive(Drop)]
pub struct Bench<R: AnyStructure> {
    alloc: Global,
    timelines: Timelines<R>,
    block: Option<OpenBlock>,
    spent: bool,
}

impl<R: AnyStructure> Model for Bench<R> {
    ghost use Rattle.reactions.specs.Bench.{BenchState};

    ghost Value = { BenchState };

    ghost view = { λ b. record { bench = record { timelines = b.timelines; block = b.block }; spent = b.spent } };
}

impl<R: AnyStructure> Bench<R> {
    /// A bench without a timeline.
    pub fn new(alloc: Global) -> Bench<R>
        ensures { result ≡ record { bench = empty_bench; spent = false } }
    {
        Bench {
            alloc,
            timelines: Timelines::new(alloc),
            block: None,
            spent: false,
        }
    }

    /// Whether an earlier call met out of memory.
    pub fn spent(&self) -> bool
        ensures { result ≡ self.now.spent }
    {
        self.spent
    }

    /// Does what a line asks for. Of a line that is too long its first bytes are given, as many as a line may
    /// have, and `long` says that it has more. After `NoMemory` nothing is known of the timelines, the answer is lost,
    /// and the bench is spent.
    pub fn line(&mut self, line: &[u8], long: bool) -> Result<Reply, NoMemory>
        requires within { length line.now ≤ longest_line }
        requires full { IsTrue long → length line.now ≡ longest_line }
        requires unspent { self.old.spent ≡ false }
        ensures reacts { IfOk result (λ reply. reacts_to self.old.bench line.now long
            ≡ record { bench = self.new.bench; answer = reply.text; refused = reply.refused }) }
        ensures keeps { IfOk result (λ reply. reply.refused ≡ true → self.new.bench ≡ without_block self.old.bench) }
        ensures spent { self.new.spent ≡ is_err result }
    {
        let mut text = Text::new(self.alloc);
        let refused = self.line_into(line, long, &mut text)?;
        Ok(Reply { text, refused })
    }

    /// Closes the block that is being read, as the end of the input does. Without one nothing is answered.
    pub fn end(&mut self) -> Result<Reply, NoMemory>
        requires { self.old.spent ≡ false }
        ensures reacts { IfOk result (λ reply. closing self.old.bench
            ≡ record { bench = self.new.bench; answer = reply.text; refused = reply.refused }) }
        ensures keeps { IfOk result (λ reply. reply.refused ≡ true → self.new.bench ≡ without_block self.old.bench) }
        ensures spent { self.new.spent ≡ is_err result }
        ensures err { OnErr result ((self.new.bench.timelines ≡ self.old.bench.timelines)
            ⊎ (self.new.bench.timelines ≡ (closing self.old.bench).bench.timelines)) }
    {
        let mut text = Text::new(self.alloc);
        let refused = self.end_into(&mut text)?;
        Ok(Reply { text, refused })
    }

    /// Whether a block is being read.
    pub fn in_block(&self) -> bool
        requires { self.now.spent ≡ false }
        ensures { result ≡ is_some self.now.bench.block }
    {
        self.block.is_some()
    }

    /// The session of the timeline of this name; none where no timeline has it.
    pub fn session(&self, name: &Name) -> Option<&Session<R>>
        requires { self.now.spent ≡ false }
        ensures { MatchOption result (timeline_of name.now self.now.bench.timelines ≡ None)
            (λ session. (timeline_of name.now self.now.bench.timelines ≡ Some (named name.now session.now)) × (session.now.spent ≡ false)) }
    {
        self.timelines.session(name)
    }

    /// How many rows the timeline of this name has; none where no timeline has it.
    pub fn rows_of(&self, name: &Name) -> Option<u32>
        requires { self.now.spent ≡ false }
        ensures { result ≡ option_map (λ (timeline : NamedTimeline). length timeline.rows) (timeline_of name.now self.now.bench.timelines) }
    {
        self.timelines.rows_of(name)
    }

    /// How many items, pairs or entries the timeline of this name holds at present; none where no timeline has it.
    pub fn size_of(&self, name: &Name) -> Option<u32>
        requires { self.now.spent ≡ false }
        ensures { result ≡ option_map present_size (timeline_of name.now self.now.bench.timelines) }
    {
        self.timelines.size_of(name)
    }

    /// Begins the block that a line opens, if it is a header.
    fn begin_block(&mut self, line: &Result<Command, LineError>)
        requires proper { IfOk line.now IsProper }
        requires no_block { self.old.bench.block ≡ None }
        ensures timelines { self.new.bench.timelines ≡ self.old.bench.timelines }
        ensures block { self.new.bench.block ≡ opened line.now }
    {
        if let Ok(
            Command::Header {
                name,
                kind,
                next,
                rows,
            },
        ) = line
        {
            self.block = Some(OpenBlock::new(self.alloc, *name, *kind, *next, *rows));
        }
    }

    /// Closes the block that is being read, if there is one, and writes the answer: `ended` says that its `end` line came. It is
    /// not inlined, nor is `take`: other lines need none of the room that they clear.
    #[inline(never)]
    fn close(&mut self, ended: bool, answer: &mut Text) -> Result<bool, NoMemory>
        requires empty { answer.old ≡ [] }
        ensures ok { IfOk result (λ refused. reaction_of (ends self.old.bench.timelines self.old.bench.block ended)
            ≡ record { bench = self.new.bench; answer = answer.new; refused = refused }) }
        ensures err { OnErr result ((self.new.bench.timelines ≡ self.old.bench.timelines)
            ⊎ (self.new.bench.timelines ≡ (ends self.old.bench.timelines self.old.bench.block ended).bench.timelines)) }
    {
        match self.block.take() {
            Some(unclosed) => self.timelines.close(unclosed, ended)?.tell(answer),
            None => Ok(false),
        }
    }

    /// Gives a line to the block that is being read. It is not refused and not answered: what is wrong with it is told at the
    /// close. After `NoMemory` all is as before.
    #[inline(never)]
    fn take(&mut self, line: &[u8], long: bool) -> Result<bool, NoMemory>
        requires within { length line.now ≤ longest_line }
        requires full { IsTrue long → length line.now ≡ longest_line }
        ensures timelines { self.new.bench.timelines ≡ self.old.bench.timelines }
        ensures ok { OnOk result (self.new.bench.block ≡ option_map (λ unclosed. with_line unclosed line.now long) self.old.bench.block) }
        ensures refused { IfOk result (λ refused. refused ≡ false) }
    {
        if let Some(unclosed) = &mut self.block {
            unclosed.take(line, long)?;
        }
        Ok(false)
    }
}

impl<R: AnyStructure> AnyBench for Bench<R> {
    // The bench as contracts see it.
    ghost state = { λ state. state };

    fn empty(alloc: Global) -> Bench<R> {
        Bench::new(alloc)
    }

    fn line_into(&mut self, line: &[u8], long: bool, answer: &mut Text) -> Result<bool, NoMemory> {
        answer.clear();
        let refused = if self.block.is_none() {
            let command = read_line(line, long);
            self.begin_block(&command);
            self.timelines.obey(&command, answer)
        } else if !long && is_end(line) {
            self.close(true, answer)
        } else {
            self.take(line, long)
        };
        self.spent = refused.is_err();
        refused
    }

    fn end_into(&mut self, answer: &mut Text) -> Result<bool, NoMemory> {
        answer.clear();
        let refused = self.close(false, answer);
        self.spent = refused.is_err();
        refused
    }

    fn in_block(&self) -> bool {
        Bench::in_block(self)
    }

    fn rows_of(&self, name: &Name) -> Option<u32> {
        Bench::rows_of(self, name)
    }

    fn size_of(&self, name: &Name) -> Option<u32> {
        Bench::size_of(self, name)
    }
}
