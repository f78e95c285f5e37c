//! Edits of a timeline: a row put in, taken out or replaced, and steps undone and redone.

ghost use Rattle.std.specs.Prelude.{◌≡◌, ◌<◌, false, length, List, Some, [], ◌∷◌, IfOk, OnErr, OnOk, MatchOption};
ghost use Rattle.retro_base.specs.Kind.{kind_of, same_kind};
ghost use Rattle.retro_base.specs.declared.row.Row.{Row};
ghost use Rattle.retro_base.specs.Edits.{Step};
ghost use Rattle.retro_base.specs.MadeEdits.{IsMade};
ghost use Rattle.timeline_undo.specs.Session.{AreMade, HasRoom, edit_reported, step_reported};
ghost use Rattle.retro_base.specs.Shift.{IsTargetOf, shift_at};
ghost use Rattle.reactions.specs.Reported.{reported};
ghost use Rattle.timelines.specs.EditErrors.{IsRefusedBy};

use crate::named_timeline::{NamedTimeline, no_row};
use crate::position::{position_of, row_named};
use crate::reported::{reported, reported_both};
use reactions::{Outcome, Refusal};
use retro_base::{AnyStructure, MAX_NEXT, MAX_ROWS, NoMemory, Op};
use script_grammar::Spot;
use timeline_undo::{EditError, Target, Turn, Turns, UndoError};

impl<R: AnyStructure> NamedTimeline<R> {
    ghost use Rattle.timelines.specs.Kept.{IsUnspent};
    ghost use Rattle.reactions.specs.Outcome.{is_refusal};
    ghost use Rattle.reactions.specs.TimelineEffects.{TimelineEffect, changes, deletes, inserts, refuses, shifts, shifts_there, undoes, redoes, where_one_fits};

    /// Puts a row in at a spot, where the edited rows replay whole. After a refusal and after `NoMemory`
    /// all is as before.
    #[inline(never)]
    pub(crate) fn insert(&mut self, spot: Spot, op: Op) -> Result<Outcome, NoMemory>
        requires unspent { IsUnspent self.old }
        ensures ok { IfOk result (λ outcome. inserts self.old.timeline spot op ≡ record { timeline = self.new.timeline; outcome = outcome }) }
        ensures unspent { IsUnspent self.new }
        ensures err { OnErr result (self.new ≡ self.old) }
        ensures memory { OnErr result (is_refusal (inserts self.old.timeline spot op).outcome ≡ false) }
    {
        if !self.takes(op) {
            return Ok(Outcome::refused(Refusal::Kind));
        }
        let Some(position) = position_of(self.session.timeline(), spot) else {
            return Ok(no_row(row_named(spot)));
        };
        if let Some(refusal) = self.refusal_of_one_more() {
            return Ok(Outcome::refused(refusal));
        }
        match self.session.insert(position.place, position.time, op) {
            Ok(turn) => {
                let number = turn.row.number;
                Ok(self.tell(turn, Outcome::Inserted { number }))
            }
            Err(error) => refused_by(error),
        }
    }

    /// Whether the operation is of the timeline's kind.
    fn takes(&self, op: Op) -> bool
        requires unspent { IsUnspent self.now }
        ensures { result ≡ same_kind (kind_of op) self.now.timeline.kind }
    {
        op.kind() == self.session.kind()
    }

    /// Why no row can come in, where there is no room for one more or no number is left.
    fn refusal_of_one_more(&self) -> Option<Refusal>
        requires unspent { IsUnspent self.now }
        ensures { MatchOption result (HasRoom self.now.timeline.rows self.now.timeline.next × ((made : TimelineEffect) → where_one_fits self.now.timeline made ≡ made))
            (λ refusal. (made : TimelineEffect) → where_one_fits self.now.timeline made ≡ refuses self.now.timeline refusal) }
    {
        if self.session.timeline().len() >= MAX_ROWS {
            Some(Refusal::Full)
        } else if self.session.next() >= MAX_NEXT {
            Some(Refusal::Numbers)
        } else {
            None
        }
    }

    /// Takes the row with this number out, where the edited rows replay whole. After a refusal and after
    /// `NoMemory` all is as before.
    #[inline(never)]
    pub(crate) fn delete(&mut self, number: u32) -> Result<Outcome, NoMemory>
        requires unspent { IsUnspent self.old }
        ensures ok { IfOk result (λ outcome. deletes self.old.timeline number ≡ record { timeline = self.new.timeline; outcome = outcome }) }
        ensures unspent { IsUnspent self.new }
        ensures err { OnErr result (self.new ≡ self.old) }
        ensures memory { OnErr result (is_refusal (deletes self.old.timeline number).outcome ≡ false) }
    {
        let Some(place) = self.session.timeline().place_of(number) else {
            return Ok(no_row(number));
        };
        match self.session.cut(place) {
            Ok(turn) => Ok(self.tell(turn, Outcome::Accepted)),
            Err(error) => refused_by(error),
        }
    }

    /// Gives the row with this number another operation, as a row that draws the next number, where the rows replay whole
    /// after that. After a refusal all is as before.
    pub(crate) fn change(&mut self, number: u32, op: Op) -> Result<Outcome, NoMemory>
        requires unspent { IsUnspent self.old }
        ensures ok { IfOk result (λ outcome. changes self.old.timeline number op ≡ record { timeline = self.new.timeline; outcome = outcome }) }
        ensures unspent { OnOk result (IsUnspent self.new) }
        ensures memory { OnErr result (is_refusal (changes self.old.timeline number op).outcome ≡ false) }
    {
        if !self.takes(op) {
            return Ok(Outcome::refused(Refusal::Kind));
        }
        self.shift(number, Target::Into { op })
    }

    /// Replaces the row with this number, by its operation at another time or by another operation, as a row that draws the next number,
    /// where the rows replay whole after that. After a refusal all is as before.
    pub(crate) fn shift(&mut self, number: u32, target: Target) -> Result<Outcome, NoMemory>
        requires unspent { IsUnspent self.old }
        requires of_kind { IsTargetOf self.old.timeline.kind target }
        ensures ok { IfOk result (λ outcome. shifts self.old.timeline number target ≡ record { timeline = self.new.timeline; outcome = outcome }) }
        ensures unspent { OnOk result (IsUnspent self.new) }
        ensures memory { OnErr result (is_refusal (shifts self.old.timeline number target).outcome ≡ false) }
    {
        match self.session.timeline().place_of(number) {
            Some(place) => self.shift_at(place, target),
            None => Ok(no_row(number)),
        }
    }

    /// Replaces the row at a place, where there is room and a number.
    fn shift_at(&mut self, place: u32, target: Target) -> Result<Outcome, NoMemory>
        requires unspent { IsUnspent self.old }
        requires within { place < length self.old.timeline.rows }
        requires of_kind { IsTargetOf self.old.timeline.kind target }
        ensures ok { IfOk result (λ outcome. (step : Step) → shift_at self.old.timeline.rows target self.old.timeline.next place ≡ Some step
            → shifts_there self.old.timeline step ≡ record { timeline = self.new.timeline; outcome = outcome }) }
        ensures unspent { OnOk result (IsUnspent self.new) }
        ensures memory { OnErr result ((step : Step) → shift_at self.old.timeline.rows target self.old.timeline.next place ≡ Some step
            → is_refusal (shifts_there self.old.timeline step).outcome ≡ false) }
    {
        if let Some(refusal) = self.refusal_of_one_more() {
            return Ok(Outcome::refused(refusal));
        }
        let number = self.session.next();
        match self.session.shift(place, target) {
            Ok(turns) => self.tell_all(turns, Outcome::Inserted { number }),
            Err(error) => refused_by(error),
        }
    }

    /// Undoes the newest step. After a refusal all is as before.
    pub(crate) fn undo(&mut self) -> Result<Outcome, NoMemory>
        requires unspent { IsUnspent self.old }
        ensures ok { IfOk result (λ outcome. undoes self.old.timeline ≡ record { timeline = self.new.timeline; outcome = outcome }) }
        ensures unspent { OnOk result (IsUnspent self.new) }
        ensures memory { OnErr result (is_refusal (undoes self.old.timeline).outcome ≡ false) }
    {
        match self.session.undo() {
            Ok(turns) => self.tell_all(turns, Outcome::Accepted),
            Err(UndoError::Nothing) => Ok(Outcome::refused(Refusal::NothingToUndo)),
            Err(UndoError::NoMemory) => Err(NoMemory),
        }
    }

    /// Makes the step again that was undone last. After a refusal all is as before.
    pub(crate) fn redo(&mut self) -> Result<Outcome, NoMemory>
        requires unspent { IsUnspent self.old }
        ensures ok { IfOk result (λ outcome. redoes self.old.timeline ≡ record { timeline = self.new.timeline; outcome = outcome }) }
        ensures unspent { OnOk result (IsUnspent self.new) }
        ensures memory { OnErr result (is_refusal (redoes self.old.timeline).outcome ≡ false) }
    {
        match self.session.redo() {
            Ok(turns) => self.tell_all(turns, Outcome::Accepted),
            Err(UndoError::Nothing) => Ok(Outcome::refused(Refusal::NothingToRedo)),
            Err(UndoError::NoMemory) => Err(NoMemory),
        }
    }

    /// The outcome of an accepted list edit.
    fn tell(&self, turn: Turn, plain: Outcome) -> Outcome
        requires unspent { IsUnspent self.now }
        ensures { (rows : List Row) → IsMade self.now.timeline.kind rows (edit_reported turn) turn.change
            → result ≡ reported self.now.timeline.name self.now.timeline.kind rows (edit_reported turn ∷ []) plain }
    {
        reported(self.alloc, self.name, self.session.kind(), turn, plain)
    }

    /// The outcome of the list edits of an accepted step.
    fn tell_all(&self, turns: Turns, plain: Outcome) -> Result<Outcome, NoMemory>
        requires unspent { IsUnspent self.now }
        ensures { (rows : List Row) → AreMade self.now.timeline.kind rows turns
            → IfOk result (λ outcome. outcome ≡ reported self.now.timeline.name self.now.timeline.kind rows (step_reported turns) plain) }
    {
        match turns {
            Turns::Single { turn } => Ok(self.tell(turn, plain)),
            Turns::Double { first, second } => reported_both(
                self.alloc,
                self.name,
                self.session.kind(),
                first,
                second,
                plain,
            ),
        }
    }
}

/// The outcome of an edit that does not stand.
fn refused_by(error: EditError) -> Result<Outcome, NoMemory>
    ensures { IsRefusedBy error result }
{
    match error {
        EditError::Fails { number, time } => Ok(Outcome::refused(Refusal::At { number, time })),
        EditError::NoMemory => Err(NoMemory),
    }
}
