//! A row that is to be replaced.

ghost use Rattle.std.specs.Prelude.{◌≡◌, ◌+◌, ◌^◌, ◌<◌, IfOk, IfErr};
ghost use Rattle.retro_base.specs.Edits.{edited_by};
ghost use Rattle.retro_base.specs.Timeline.{IsReplayable};
ghost use Rattle.timeline_undo.specs.KeptSteps.{AreReady, IsLeftMidway};
ghost use Rattle.timeline_undo.specs.Replaced.{before_without, replacement_of, step_of_replacement};
ghost use Rattle.timeline_undo.specs.Session.{AreMade, step_reported};
ghost use Rattle.retro_base.specs.Shift.{cut_then_put, index_after, put_then_cut};

use crate::edit::{Interrupted, put_in_both, take_from_both};
use crate::{Target, Turns};
use order_timeline::Timeline;
use retro_base::{NoMemory, Retro, Row};

/// A row that is to be replaced.
#[derive(Clone, Copy)]
pub(crate) struct Replacement {
    /// Where the old row stands.
    pub(crate) index: u32,
    pub(crate) old: Row,
    /// How many of the present rows, the old one among them, stand before the new one.
    pub(crate) before: u32,
    pub(crate) new: Row,
}

impl Replacement {
    /// The replacement of the row at an index by a row with this number.
    pub(crate) fn of(
        timeline: &Timeline,
        index: u32,
        old: Row,
        target: Target,
        number: u32,
    ) -> Replacement
        ensures { result ≡ replacement_of timeline.now target number index old }
    {
        match target {
            Target::At { time } => Replacement {
                index,
                old,
                before: timeline.place_at(time),
                new: Row {
                    number,
                    time,
                    op: old.op,
                },
            },
            Target::Into { op } => Replacement {
                index,
                old,
                before: index,
                new: Row {
                    number,
                    time: old.time,
                    op,
                },
            },
        }
    }

    /// Makes its two edits, in order, in the timeline and in the structure.
    pub(crate) fn make<R: Retro>(
        self,
        timeline: &mut Timeline,
        structure: &mut R,
    ) -> Result<Turns, Interrupted>
        requires index { self.index + 1 < 2 ^ 32 }
        requires same { R.rows structure.old ≡ timeline.old }
        requires before { IsReplayable (R.kind structure.old) timeline.old }
        requires ready { AreReady (R.kind structure.old) timeline.old (step_of_replacement self) }
        ensures kind { R.kind structure.new ≡ R.kind structure.old }
        ensures same { R.rows structure.new ≡ timeline.new }
        ensures rows { IfOk result (λ _. timeline.new ≡ edited_by timeline.old (step_of_replacement self)) }
        ensures reported { IfOk result (λ turns. step_reported turns ≡ step_of_replacement self) }
        ensures made { IfOk result (AreMade (R.kind structure.old) timeline.old) }
        ensures err { IfErr result (IsLeftMidway timeline.old (step_of_replacement self) timeline.new) }
    {
        if self.new.op.adds() {
            self.put_then_cut(timeline, structure)
        } else {
            self.cut_then_put(timeline, structure)
        }
    }

    /// Puts the new row in, and takes the old one out then.
    fn put_then_cut<R: Retro>(
        self,
        timeline: &mut Timeline,
        structure: &mut R,
    ) -> Result<Turns, Interrupted>
        requires index { self.index + 1 < 2 ^ 32 }
        requires same { R.rows structure.old ≡ timeline.old }
        requires before { IsReplayable (R.kind structure.old) timeline.old }
        requires ready { AreReady (R.kind structure.old) timeline.old (put_then_cut self.before self.new self.index self.old) }
        ensures kind { R.kind structure.new ≡ R.kind structure.old }
        ensures same { R.rows structure.new ≡ timeline.new }
        ensures rows { IfOk result (λ _. timeline.new ≡ edited_by timeline.old (put_then_cut self.before self.new self.index self.old)) }
        ensures reported { IfOk result (λ turns. step_reported turns ≡ put_then_cut self.before self.new self.index self.old) }
        ensures made { IfOk result (AreMade (R.kind structure.old) timeline.old) }
        ensures err { IfErr result (IsLeftMidway timeline.old (put_then_cut self.before self.new self.index self.old) timeline.new) }
    {
        let Ok(first) = put_in_both(timeline, structure, self.before, self.new) else {
            return Err(Interrupted::AtOnce);
        };
        match take_from_both(timeline, structure, self.index_after()) {
            Ok(second) => Ok(Turns::Double { first, second }),
            Err(NoMemory) => Err(Interrupted::Midway),
        }
    }

    /// Takes the old row out, and puts the new one in then.
    fn cut_then_put<R: Retro>(
        self,
        timeline: &mut Timeline,
        structure: &mut R,
    ) -> Result<Turns, Interrupted>
        requires same { R.rows structure.old ≡ timeline.old }
        requires before { IsReplayable (R.kind structure.old) timeline.old }
        requires ready { AreReady (R.kind structure.old) timeline.old (cut_then_put self.index self.old (before_without self.index self.before) self.new) }
        ensures kind { R.kind structure.new ≡ R.kind structure.old }
        ensures same { R.rows structure.new ≡ timeline.new }
        ensures rows { IfOk result (λ _. timeline.new ≡ edited_by timeline.old (cut_then_put self.index self.old (before_without self.index self.before) self.new)) }
        ensures reported { IfOk result (λ turns. step_reported turns ≡ cut_then_put self.index self.old (before_without self.index self.before) self.new) }
        ensures made { IfOk result (AreMade (R.kind structure.old) timeline.old) }
        ensures err { IfErr result (IsLeftMidway timeline.old (cut_then_put self.index self.old (before_without self.index self.before) self.new) timeline.new) }
    {
        let Ok(first) = take_from_both(timeline, structure, self.index) else {
            return Err(Interrupted::AtOnce);
        };
        match put_in_both(timeline, structure, self.before_without(), self.new) {
            Ok(second) => Ok(Turns::Double { first, second }),
            Err(NoMemory) => Err(Interrupted::Midway),
        }
    }

    /// Where the old row stands once the new one was put in.
    fn index_after(self) -> u32
        requires { self.index + 1 < 2 ^ 32 }
        ensures { result ≡ index_after self.before self.index }
    {
        if self.before <= self.index {
            self.index + 1
        } else {
            self.index
        }
    }

    /// How many of the rows without the old one stand before the new one.
    fn before_without(self) -> u32
        ensures { result ≡ before_without self.index self.before }
    {
        if self.before <= self.index {
            self.before
        } else {
            self.before - 1
        }
    }
}
