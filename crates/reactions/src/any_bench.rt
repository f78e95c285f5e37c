//! The trait of a bench, whatever holds its timelines.

ghost use Rattle.std.specs.Prelude.{◌≡◌, ◌≤◌, ◌⊎◌, false, is_err, is_some, length, option_map, true, IfOk, IsTrue, OnErr};
ghost use Rattle.retro_base.specs.Limits.{longest_line};
ghost use Rattle.reactions.specs.Bench.{BenchState, NamedTimeline, empty_bench, present_size, timeline_of};
ghost use Rattle.reactions.specs.Reaction.{closing, reacts_to, without_block};

use retro_base::{Name, NoMemory, Text};
use std::alloc::Global;

/// What answers the lines of a script: the timelines that it has made, and the block that is being read. Who runs a script by this
/// trait need not know which structures hold the timelines. A bench that met out of memory is spent, and takes no more lines.
pub trait AnyBench: Drop {
    /// The timelines and the block, and whether an earlier call met out of memory.
    ghost state: { Self → BenchState };

    /// A bench without a timeline.
    fn empty(alloc: Global) -> Self
        ensures { state result ≡ record { bench = empty_bench; spent = false } };

    /// Does what a line asks for. Of a line that is too long its first bytes are given, as many as a line may have, and `long` says
    /// that it has more. The lines that answer take the place of what `answer` holds, and the result is whether the line was refused.
    /// After `NoMemory` nothing is known of the timelines nor of what `answer` holds, and the bench is spent.
    fn line_into(&mut self, line: &[u8], long: bool, answer: &mut Text) -> Result<bool, NoMemory>
        requires within { length line.now ≤ longest_line }
        requires full { IsTrue long → length line.now ≡ longest_line }
        requires unspent { (state self.old).spent ≡ false }
        ensures reacts { IfOk result (λ refused. reacts_to (state self.old).bench line.now long
            ≡ record { bench = (state self.new).bench; answer = answer.new; refused = refused }) }
        ensures keeps { IfOk result (λ refused. refused ≡ true → (state self.new).bench ≡ without_block (state self.old).bench) }
        ensures spent { (state self.new).spent ≡ is_err result };

    /// Closes the block that is being read, as the end of the input does; without one nothing is answered. The lines that answer take
    /// the place of what `answer` holds, and the result is whether the block was refused. After `NoMemory` nothing is known of what
    /// `answer` holds.
    fn end_into(&mut self, answer: &mut Text) -> Result<bool, NoMemory>
        requires { (state self.old).spent ≡ false }
        ensures reacts { IfOk result (λ refused. closing (state self.old).bench
            ≡ record { bench = (state self.new).bench; answer = answer.new; refused = refused }) }
        ensures keeps { IfOk result (λ refused. refused ≡ true → (state self.new).bench ≡ without_block (state self.old).bench) }
        ensures spent { (state self.new).spent ≡ is_err result }
        ensures err { OnErr result (((state self.new).bench.timelines ≡ (state self.old).bench.timelines)
            ⊎ ((state self.new).bench.timelines ≡ (closing (state self.old).bench).bench.timelines)) };

    /// Whether a block is being read.
    fn in_block(&self) -> bool
        requires { (state self.now).spent ≡ false }
        ensures { result ≡ is_some (state self.now).bench.block };

    /// How many rows the timeline of this name has; none where no timeline has it.
    fn rows_of(&self, name: &Name) -> Option<u32>
        requires { (state self.now).spent ≡ false }
        ensures { result ≡ option_map (λ (timeline : NamedTimeline). length timeline.rows) (timeline_of name.now (state self.now).bench.timelines) };

    /// How many items, pairs or entries the timeline of this name holds at present; none where no timeline has it.
    fn size_of(&self, name: &Name) -> Option<u32>
        requires { (state self.now).spent ≡ false }
        ensures { result ≡ option_map present_size (timeline_of name.now (state self.now).bench.timelines) };
}
