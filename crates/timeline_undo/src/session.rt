//! The type and its calls.

ghost use Rattle.std.specs.Prelude.{◌≡◌, ◌↔◌, ◌+◌, ◌≤◌, ◌<◌, [], length, slice_get, Some, true, false, IfOk, IfErr, IfSome, OnErr, OnOk, IsErrOf, ◌∷◌, ◌++◌, option_map};
ghost use Rattle.retro_base.specs.Answers.{answer_of, content};
ghost use Rattle.retro_base.specs.Edits.{add, cut, Step, inverse_step, IsAccepted};
ghost use Rattle.retro_base.specs.Kind.{kind_of};
ghost use Rattle.retro_base.specs.Limits.{next_limit};
ghost use Rattle.retro_base.specs.MadeEdits.{IsMade};
ghost use Rattle.retro_base.specs.Questions.{suits};
ghost use Rattle.retro_base.specs.Replay.{present, state_at};
ghost use Rattle.retro_base.specs.Timeline.{IsTimeline};
ghost use Rattle.retro_base.specs.History.{newest_step, no_history};
ghost use Rattle.timeline_undo.specs.Session.{AreMade, CanStand, drawn, edit_reported, HasRoom, IsCause, IsLeftByUndo, IsShiftUnmade, step_reported, with_edit, with_insert, with_redo, with_shift, with_undo};
ghost use Rattle.retro_base.specs.Shift.{IsTargetOf, shift_at};
ghost use Rattle.timeline_undo.specs.declared.turn.Turn.{Turn};
ghost use Rattle.timeline_undo.specs.declared.turn.Turns.TheVariants.{Double};

use crate::edit::{Interrupted, put_in_both, take_back, take_from_both};
use crate::failing::{fails_at, row_after_insert, row_after_remove};
use crate::history::{forget, newest, note, pass_on};
use crate::replacement::Replacement;
use crate::scan::failing_after;
use crate::{EditError, Put, Target, Turn, Turns, UndoError};
use circular_buffer::HeapCircularBuffer;
use order_timeline::Timeline;
use retro_base::{Answer, Change, Kind, Listing, NoMemory, Op, Question, Retro, Row};
use std::alloc::Global;
use std::marker::Model;

/// How many steps of a timeline can be undone.
pub const MAX_STEPS: usize = 1024;

/// A timeline with the structure that performs it, and with what can be undone of it. A session that met out of memory
/// between the two list edits of a step is spent: it has the rows after the first one and no history, and takes no more calls.
#[derive(Drop)]
pub struct Session<R: Retro + Drop> {
    timeline: Timeline,
    structure: R,
    next: u32,
    undo: HeapCircularBuffer<Turns>,
    redo: HeapCircularBuffer<Turns>,
    spent: bool,
}

impl<R: Retro + Drop> Model for Session<R> {
    ghost use Rattle.timeline_undo.specs.KeptSteps.{IsSession, steps_of, undone_steps_of};
    ghost use Rattle.timeline_undo.specs.Session.{SessionState};

    ghost Value = { SessionState };

    ghost view = { λ s. record {
      kind = R.kind s.structure;
      rows = s.timeline;
      next = s.next;
      history = record { undo = steps_of s.undo.items; redo = undone_steps_of s.redo.items };
      spent = s.spent;
    } };

    ghost invariant = { λ s. IsSession (R.kind s.structure) (R.rows s.structure) s.timeline s.next s.undo s.redo };
}

impl<R: Retro + Drop> Session<R> {
    /// A session over a structure without rows; the rows that it gets have numbers below `next`. It takes all the
    /// memory that its history will need.
    pub fn new(alloc: Global, structure: R, next: u32) -> Result<Session<R>, NoMemory>
        requires empty { R.rows structure ≡ [] }
        requires least { 1 ≤ next }
        requires most { next ≤ next_limit }
        ensures { IfOk result (λ session. session ≡ record { kind = R.kind structure; rows = []; next = next; history = no_history; spent = false }) }
    {
        // Its clause says that the rows replay.
        let _kind = structure.kind();
        let undo = HeapCircularBuffer::with_capacity(alloc, MAX_STEPS)?;
        let redo = HeapCircularBuffer::with_capacity(alloc, MAX_STEPS)?;
        Ok(Session {
            timeline: Timeline::new(alloc),
            structure,
            next,
            undo,
            redo,
            spent: false,
        })
    }

    /// Whether an earlier shift, undo or redo met out of memory after its first list edit and before its end.
    pub fn spent(&self) -> bool
        ensures { result ≡ self.now.spent }
    {
        self.spent
    }

    /// The rows.
    pub fn timeline(&self) -> &Timeline
        requires unspent { self.now.spent ≡ false }
        ensures rows { result.now ≡ self.now.rows }
        ensures timeline { IsTimeline self.now.kind self.now.rows self.now.next }
    {
        &self.timeline
    }

    /// The structure that performs them.
    pub fn structure(&self) -> &R
        requires unspent { self.now.spent ≡ false }
        ensures kind { R.kind result.now ≡ self.now.kind }
        ensures rows { R.rows result.now ≡ self.now.rows }
    {
        &self.structure
    }

    /// The number that the next row draws.
    pub fn next(&self) -> u32
        requires unspent { self.now.spent ≡ false }
        ensures next { result ≡ self.now.next }
        ensures within { (1 ≤ result) × (result ≤ next_limit) }
    {
        self.next
    }

    /// The kind.
    pub fn kind(&self) -> Kind
        requires unspent { self.now.spent ≡ false }
        ensures { result ≡ self.now.kind }
    {
        self.structure.kind()
    }

    /// `insert`, which tells the number of the row and the change alone.
    pub fn put(&mut self, place: u32, time: u64, op: Op) -> Result<Put, EditError>
        requires unspent { self.old.spent ≡ false }
        requires stands { CanStand self.old.rows place time }
        requires room { HasRoom self.old.rows self.old.next }
        requires of_kind { kind_of op ≡ self.old.kind }
        ensures session { OnOk result (self.new ≡ with_insert self.old place (drawn self.old time op)) }
        ensures number { IfOk result (λ put. put.number ≡ self.old.next) }
        ensures made { IfOk result (λ put. IsMade self.old.kind self.old.rows (add place (drawn self.old time op)) put.change) }
        ensures cause { IfErr result (IsCause self.old.kind self.old.rows (add place (drawn self.old time op))) }
        ensures err { OnErr result (self.new ≡ self.old) }
    {
        let turn = self.insert(place, time, op)?;
        Ok(Put {
            number: turn.row.number,
            change: turn.change,
        })
    }

    /// Puts in a row that draws the next number. After every error all is as before.
    pub fn insert(&mut self, place: u32, time: u64, op: Op) -> Result<Turn, EditError>
        requires unspent { self.old.spent ≡ false }
        requires stands { CanStand self.old.rows place time }
        requires room { HasRoom self.old.rows self.old.next }
        requires of_kind { kind_of op ≡ self.old.kind }
        ensures session { OnOk result (self.new ≡ with_insert self.old place (drawn self.old time op)) }
        ensures row { IfOk result (λ turn. turn.row ≡ drawn self.old time op) }
        ensures reported { IfOk result (λ turn. edit_reported turn ≡ add place (drawn self.old time op)) }
        ensures made { IfOk result (λ turn. IsMade self.old.kind self.old.rows (edit_reported turn) turn.change) }
        ensures cause { IfErr result (IsCause self.old.kind self.old.rows (add place (drawn self.old time op))) }
        ensures err { OnErr result (self.new ≡ self.old) }
    {
        let row = Row {
            number: self.next,
            time,
            op,
        };
        if let Some(index) = self.structure.failure_after_insert(place, op) {
            return Err(fails_at(row_after_insert(&self.timeline, place, row, index)));
        }
        let turn = put_in_both(&mut self.timeline, &mut self.structure, place, row)?;
        note(&mut self.undo, &mut self.redo, Turns::Single { turn });
        self.next += 1;
        Ok(turn)
    }

    /// Appends a row that has a number already, as one of a block that is read has. It is no step of the history,
    /// which has none. After `NoMemory` all is as before.
    pub fn append(&mut self, row: Row) -> Result<Change, NoMemory>
        requires unspent { self.old.spent ≡ false }
        requires timeline { IsTimeline self.old.kind (self.old.rows ++ row ∷ []) self.old.next }
        requires history { self.old.history ≡ no_history }
        ensures session { OnOk result (self.new ≡ record self.old { rows = self.old.rows ++ row ∷ [] }) }
        ensures made { IfOk result (IsMade self.old.kind self.old.rows (add (length self.old.rows) row)) }
        ensures err { OnErr result (self.new ≡ self.old) }
    {
        let place = self.timeline.len();
        let turn = put_in_both(&mut self.timeline, &mut self.structure, place, row)?;
        Ok(turn.change)
    }

    /// Takes the row at a place out. After every error all is as before.
    pub fn cut(&mut self, place: u32) -> Result<Turn, EditError>
        requires unspent { self.old.spent ≡ false }
        requires within { place < length self.old.rows }
        ensures row { IfOk result (λ turn. slice_get self.old.rows place ≡ Some turn.row) }
        ensures reported { IfOk result (λ turn. edit_reported turn ≡ cut place turn.row) }
        ensures accepted { IfOk result (λ turn. IsAccepted self.old.kind self.old.rows (cut place turn.row)) }
        ensures session { IfOk result (λ turn. self.new ≡ with_edit self.old (cut place turn.row)) }
        ensures made { IfOk result (λ turn. IsMade self.old.kind self.old.rows (edit_reported turn) turn.change) }
        ensures cause { IfErr result (λ error. IfSome (slice_get self.old.rows place) (λ row. IsCause self.old.kind self.old.rows (cut place row) error)) }
        ensures err { OnErr result (self.new ≡ self.old) }
    {
        if let Some(index) = self.structure.failure_after_remove(place) {
            return Err(fails_at(row_after_remove(&self.timeline, place, index)));
        }
        let turn = take_from_both(&mut self.timeline, &mut self.structure, place)?;
        note(&mut self.undo, &mut self.redo, Turns::Single { turn });
        Ok(turn)
    }

    /// Replaces the row at a place in one step, by a row that draws the next number. Whether the rows after both list edits replay
    /// is found before anything is edited, which takes no memory: by one search of the structure, where that shows that they do, and
    /// else by a walk over the rows. After `Fails` all is as before; after `NoMemory` it is so too, or the session is spent.
    pub fn shift(&mut self, place: u32, target: Target) -> Result<Turns, EditError>
        requires unspent { self.old.spent ≡ false }
        requires within { place < length self.old.rows }
        requires room { HasRoom self.old.rows self.old.next }
        requires of_kind { IsTargetOf self.old.kind target }
        ensures double { IfOk result (λ turns. (first : Turn) × (second : Turn) × (turns ≡ Double first second)) }
        ensures step { IfOk result (λ turns. shift_at self.old.rows target self.old.next place ≡ Some (step_reported turns)) }
        ensures session { IfOk result (λ turns. self.new ≡ with_shift self.old (step_reported turns)) }
        ensures made { IfOk result (AreMade self.old.kind self.old.rows) }
        ensures err { IfErr result (IsShiftUnmade self.old place target self.new) }
    {
        let old = self.timeline.row_at(place);
        let replacement = Replacement::of(&self.timeline, place, old, target, self.next);
        if let Some(failing) = failing_after(&self.timeline, &self.structure, replacement) {
            return Err(fails_at(failing));
        }
        match replacement.make(&mut self.timeline, &mut self.structure) {
            Ok(turns) => {
                note(&mut self.undo, &mut self.redo, turns);
                self.next += 1;
                Ok(turns)
            }
            Err(Interrupted::AtOnce) => Err(EditError::NoMemory),
            Err(Interrupted::Midway) => {
                forget(&mut self.undo, &mut self.redo);
                self.next += 1;
                self.spent = true;
                Err(EditError::NoMemory)
            }
        }
    }

    /// Takes the newest step back, all its list edits. After `Nothing` all is as before; after `NoMemory` it is so too, or the session
    /// is spent.
    pub fn undo(&mut self) -> Result<Turns, UndoError>
        requires unspent { self.old.spent ≡ false }
        ensures step { IfOk result (λ turns. (step : Step) × (newest_step self.old.history.undo ≡ Some step) × (inverse_step step ≡ step_reported turns) × (self.new ≡ with_undo self.old step)) }
        ensures made { IfOk result (AreMade self.old.kind self.old.rows) }
        ensures nothing { IsErrOf result UndoError.Nothing ↔ (self.old.history.undo ≡ []) }
        ensures err { IfErr result (IsLeftByUndo self.old (option_map inverse_step (newest_step self.old.history.undo)) self.new) }
    {
        let Some(step) = newest(&self.undo) else {
            return Err(UndoError::Nothing);
        };
        match take_back(&mut self.timeline, &mut self.structure, step) {
            Ok(turns) => {
                pass_on(&mut self.undo, &mut self.redo, turns);
                Ok(turns)
            }
            Err(Interrupted::AtOnce) => Err(UndoError::NoMemory),
            Err(Interrupted::Midway) => {
                forget(&mut self.undo, &mut self.redo);
                self.spent = true;
                Err(UndoError::NoMemory)
            }
        }
    }

    /// Makes the step again that was taken back last, all its list edits. After `Nothing` all is as before; after `NoMemory` it is so
    /// too, or the session is spent.
    pub fn redo(&mut self) -> Result<Turns, UndoError>
        requires unspent { self.old.spent ≡ false }
        ensures step { IfOk result (λ turns. (newest_step self.old.history.redo ≡ Some (step_reported turns)) × (self.new ≡ with_redo self.old (step_reported turns))) }
        ensures made { IfOk result (AreMade self.old.kind self.old.rows) }
        ensures nothing { IsErrOf result UndoError.Nothing ↔ (self.old.history.redo ≡ []) }
        ensures err { IfErr result (IsLeftByUndo self.old (newest_step self.old.history.redo) self.new) }
    {
        let Some(step) = newest(&self.redo) else {
            return Err(UndoError::Nothing);
        };
        match take_back(&mut self.timeline, &mut self.structure, step) {
            Ok(turns) => {
                pass_on(&mut self.redo, &mut self.undo, turns);
                Ok(turns)
            }
            Err(Interrupted::AtOnce) => Err(UndoError::NoMemory),
            Err(Interrupted::Midway) => {
                forget(&mut self.undo, &mut self.redo);
                self.spent = true;
                Err(UndoError::NoMemory)
            }
        }
    }

    /// The answer to a question about the present.
    pub fn ask_now(&self, question: Question) -> Answer
        requires unspent { self.now.spent ≡ false }
        requires suited { suits question self.now.kind ≡ true }
        ensures { result ≡ answer_of (present self.now.kind self.now.rows) question }
    {
        self.structure.ask_now(question)
    }

    /// The answer to a question about a place. The session is unchanged, whatever the answer. Behind the last row it is a question
    /// about the present.
    pub fn ask(&mut self, place: u32, question: Question) -> Result<Answer, NoMemory>
        requires unspent { self.old.spent ≡ false }
        requires within { place ≤ length self.old.rows }
        requires suited { suits question self.old.kind ≡ true }
        ensures unchanged { self.new ≡ self.old }
        ensures answer { IfOk result (λ answer. answer ≡ answer_of (state_at self.old.kind self.old.rows place) question) }
    {
        if place == self.timeline.len() {
            return Ok(self.structure.ask_now(question));
        }
        self.structure.ask(place, question)
    }

    /// The whole content at a place. The session is unchanged, whatever the answer. Behind the last row it is that of the present.
    pub fn all(&mut self, place: u32) -> Result<Listing, NoMemory>
        requires unspent { self.old.spent ≡ false }
        requires within { place ≤ length self.old.rows }
        ensures unchanged { self.new ≡ self.old }
        ensures content { IfOk result (λ listing. listing ≡ content (state_at self.old.kind self.old.rows place)) }
    {
        if place == self.timeline.len() {
            return self.structure.list_now();
        }
        self.structure.all(place)
    }
}
