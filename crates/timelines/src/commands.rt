//! What a timeline makes of a command.

ghost use Rattle.std.specs.Prelude.{IfOk, OnOk};

use crate::named_timeline::NamedTimeline;
use retro_base::{AnyStructure, NoMemory, Text};
use script_grammar::Command;
use timeline_undo::Target;

impl<R: AnyStructure> NamedTimeline<R> {
    ghost use Rattle.timelines.specs.AnsweredLine.{IsTold, performs, performs_other};
    ghost use Rattle.timelines.specs.Kept.{IsUnspent};

    /// Does what a command asks of the timeline; one that is about none leaves it as it is. Appends the answer, and gives whether it is
    /// a refusal. Questions and the edits of one row are most lines, so they come first, and each stands in a function that is not inlined:
    /// a function clears room for all that is inlined into it before it begins.
    pub(crate) fn perform(&mut self, command: &Command, answer: &mut Text) -> Result<bool, NoMemory>
        requires unspent { IsUnspent self.old }
        ensures told { IfOk result (IsTold (performs self.old.timeline command.now) self.new.timeline answer.old answer.new) }
        ensures unspent { OnOk result (IsUnspent self.new) }
    {
        match command {
            Command::Ask { moment, query, .. } => self.ask(*moment, *query, answer),
            Command::Insert { spot, op, .. } => self.insert(*spot, *op)?.tell(answer),
            Command::Delete { number, .. } => self.delete(*number)?.tell(answer),
            _ => self.perform_other(command, answer),
        }
    }

    /// Does what a command asks that is neither a question nor the edit of one row, and appends the answer.
    #[inline(never)]
    fn perform_other(&mut self, command: &Command, answer: &mut Text) -> Result<bool, NoMemory>
        requires unspent { IsUnspent self.old }
        ensures told { IfOk result (IsTold (performs_other self.old.timeline command.now) self.new.timeline answer.old answer.new) }
        ensures unspent { OnOk result (IsUnspent self.new) }
    {
        match command {
            Command::Move { number, time, .. } => self
                .shift(*number, Target::At { time: *time })?
                .tell(answer),
            Command::Change { number, op, .. } => self.change(*number, *op)?.tell(answer),
            Command::Fate { number, .. } => self.fate(*number).tell(answer),
            Command::Undo { .. } => self.undo()?.tell(answer),
            Command::Redo { .. } => self.redo()?.tell(answer),
            Command::Save { .. } => self.save()?.tell(answer),
            _ => Ok(false),
        }
    }
}
