//! A queue, a stack or a deque whose past can be edited.

ghost use Rattle.std.specs.Prelude.{◌≡◌, ◌<◌, ◌≤◌, [], length, slice_get, true, Some, IsOk, IfOk, OnOk, OnErr};
ghost use Rattle.std.specs.List.{insert, remove};
ghost use Rattle.retro_base.specs.Answers.{answer_of};
ghost use Rattle.retro_base.specs.Changes.{IsChange};
ghost use Rattle.retro_base.specs.Edits.{add, cut};
ghost use Rattle.retro_base.specs.Replay.{IsValid, state_at};
ghost use Rattle.retro_base.specs.Timeline.{IsReplayable};
ghost use Rattle.retro_base.specs.Questions.{suits};
ghost use Rattle.costs.specs.Visits.{OpensCounter, VisitsWithin};

use crate::line_rows::LineRows;
use crate::sequence::{Sequence, ask_sequence, ask_uncounted, list_sequence};
use retro_base::{
    Answer, Change, Kind, Listing, NoMemory, Op, Partial, Question, Retro, Row, Steps, uncounted,
};
use std::alloc::Global;
use std::marker::{Brand, Model, PhantomData};
use std::sync::ledger::{Blank, Ledger};

/// A queue, a stack or a deque whose past can be edited, which contracts see as its rows.
#[derive(Drop)]
pub struct RetroLine<S: Sequence> {
    rows: LineRows,
    sequence: PhantomData<S>,
}

impl<S: Sequence> Model for RetroLine<S> {
    ghost use Rattle.std.specs.Prelude.{List};
    ghost use Rattle.retro_base.specs.declared.row.Row.{Row};
    ghost use Rattle.retro_base.specs.Timeline.{IsReplayable};

    ghost Value = { List Row };

    ghost view = { λ line. line.rows };

    ghost invariant = { λ line. IsReplayable S.kind line.rows };
}

impl<S: Sequence> RetroLine<S> {
    /// A structure with no rows; their memory will be that of `alloc`.
    pub fn new(alloc: Global) -> RetroLine<S>
        ensures { result ≡ [] }
    {
        RetroLine {
            rows: LineRows::new(alloc),
            sequence: PhantomData,
        }
    }

    /// The answer to a question about the state at a place, after so many rows.
    pub fn ask_past<L: Ledger>(
        &self,
        place: u32,
        question: Question,
        steps: &mut Steps<L>,
    ) -> Answer
        requires within { place ≤ length self.now }
        requires suited { suits question S.kind ≡ true }
        ensures answer { result ≡ answer_of (state_at S.kind self.now place) question }
        ensures visits { VisitsWithin 36 (length self.now) steps.old steps.new }
    {
        ask_sequence::<S, L>(&self.rows, place, question, steps)
    }

    /// `insert` of `Partial` with a counter of its own.
    fn insert_uncounted<L: Ledger>(
        &mut self,
        place: u32,
        row: Row,
        blank: Blank,
    ) -> Result<Change, NoMemory>
        requires within { place ≤ length self.old }
        requires replayable { IsReplayable S.kind (insert self.old place row) }
        requires counter { OpensCounter blank.name L.name blank.parts L.parts }
        ensures rows { OnOk result (self.new ≡ insert self.old place row) }
        ensures replayable { OnOk result (IsReplayable S.kind self.new) }
        ensures change { IfOk result (IsChange S.kind self.old (add place row)) }
        ensures err { OnErr result (self.new ≡ self.old) }
    {
        let mut steps = Steps::<L>::new(blank);
        Partial::insert(self, place, row, &mut steps)
    }

    /// `remove` of `Partial` with a counter of its own.
    fn remove_uncounted<L: Ledger>(&mut self, place: u32, blank: Blank) -> (Row, Change)
        requires within { place < length self.old }
        requires replays { IsValid S.kind (remove self.old place) }
        requires counter { OpensCounter blank.name L.name blank.parts L.parts }
        ensures row { slice_get self.old place ≡ Some result.0 }
        ensures rows { self.new ≡ remove self.old place }
        ensures replayable { IsReplayable S.kind self.new }
        ensures change { IsChange S.kind self.old (cut place result.0) result.1 }
    {
        let mut steps = Steps::<L>::new(blank);
        Partial::remove(self, place, &mut steps)
    }

    /// The same structure once more, with a counter of its own.
    fn copied<L: Ledger>(&self, blank: Blank) -> Result<RetroLine<S>, NoMemory>
        requires counter { OpensCounter blank.name L.name blank.parts L.parts }
        ensures { IfOk result (λ copy. copy ≡ self.now) }
    {
        let mut steps = Steps::<L>::new(blank);
        let rows = self.rows.copy(&mut steps)?;
        Ok(RetroLine {
            rows,
            sequence: PhantomData,
        })
    }
}

impl<S: Sequence> Partial for RetroLine<S> {
    ghost kind = { λ line. S.kind };

    ghost rows = { λ line. line };

    fn kind(&self) -> Kind {
        // Reading a field gives the invariant: the rows replay.
        let _replayable = &self.rows;
        S::kind()
    }

    fn len(&self) -> u32 {
        self.rows.len()
    }

    fn row_at<L: Ledger>(&self, place: u32, steps: &mut Steps<L>) -> Row {
        self.rows.row_at(place, steps)
    }

    fn failure_after_insert<L: Ledger>(
        &self,
        place: u32,
        op: Op,
        steps: &mut Steps<L>,
    ) -> Option<u32> {
        self.rows.failure_after_insert(place, op, steps)
    }

    fn failure_after_remove<L: Ledger>(&self, place: u32, steps: &mut Steps<L>) -> Option<u32> {
        self.rows.failure_after_remove(place, steps)
    }

    fn insert<L: Ledger>(
        &mut self,
        place: u32,
        row: Row,
        steps: &mut Steps<L>,
    ) -> Result<Change, NoMemory> {
        self.rows.insert(place, row, steps)?;
        Ok(Change::Plain)
    }

    fn remove<L: Ledger>(&mut self, place: u32, steps: &mut Steps<L>) -> (Row, Change) {
        (self.rows.remove(place, steps), Change::Plain)
    }

    fn ask_now<L: Ledger>(&self, question: Question, steps: &mut Steps<L>) -> Answer {
        ask_sequence::<S, L>(&self.rows, self.rows.len(), question, steps)
    }

    fn all_now(&self) -> Result<Listing, NoMemory> {
        list_sequence::<S>(&self.rows, self.rows.len())
    }

    /// The later line answers of its own past, and always does.
    fn ask_after<L: Ledger>(
        &self,
        later: &RetroLine<S>,
        place: u32,
        question: Question,
        steps: &mut Steps<L>,
    ) -> Result<Answer, NoMemory> {
        Ok(ask_sequence::<S, L>(&later.rows, place, question, steps))
    }

    fn list_after<L: Ledger>(
        &self,
        later: &RetroLine<S>,
        place: u32,
        _: &mut Steps<L>,
    ) -> Result<Listing, NoMemory> {
        list_sequence::<S>(&later.rows, place)
    }

    fn copy(&self) -> Result<RetroLine<S>, NoMemory> {
        self.copied::<Brand>(Blank::new(1))
    }
}

impl<S: Sequence> Retro for RetroLine<S> {
    ghost kind = { λ line. S.kind };

    ghost rows = { λ line. line };

    fn kind(&self) -> Kind {
        Partial::kind(self)
    }

    fn len(&self) -> u32 {
        Partial::len(self)
    }

    fn failure_after_insert(&self, place: u32, op: Op) -> Option<u32> {
        uncounted::failure_after_insert(self, place, op)
    }

    fn failure_after_remove(&self, place: u32) -> Option<u32> {
        uncounted::failure_after_remove(self, place)
    }

    fn insert(&mut self, place: u32, row: Row) -> Result<Change, NoMemory> {
        self.insert_uncounted::<Brand>(place, row, Blank::new(1))
    }

    /// It takes no memory, so it never answers `NoMemory`.
    fn remove(&mut self, place: u32) -> Result<(Row, Change), NoMemory>
        requires within { place < length self.old }
        requires replays { IsValid S.kind (remove self.old place) }
        ensures succeeds { IsOk result }
        ensures row { IfOk result (λ taken. slice_get self.old place ≡ Some taken.0) }
        ensures rows { OnOk result (self.new ≡ remove self.old place) }
        ensures replayable { OnOk result (IsReplayable S.kind self.new) }
        ensures change { IfOk result (λ taken. IsChange S.kind self.old (cut place taken.0) taken.1) }
        ensures err { OnErr result (self.new ≡ self.old) }
    {
        Ok(self.remove_uncounted::<Brand>(place, Blank::new(1)))
    }

    fn ask_now(&self, question: Question) -> Answer {
        uncounted::ask_now(self, question)
    }

    fn ask(&mut self, place: u32, question: Question) -> Result<Answer, NoMemory> {
        Ok(ask_uncounted::<S>(&self.rows, place, question))
    }

    fn all(&mut self, place: u32) -> Result<Listing, NoMemory> {
        list_sequence::<S>(&self.rows, place)
    }
}
