//! A structure with some first rows of a timeline: the present with all of them, a checkpoint with fewer.
ghost use Rattle.std.specs.Prelude.{◌≡◌, ◌+◌, ◌-◌, ◌*◌, ◌<◌, ◌≤◌, nat_lt, slice_get, true, Some, IfSome, IfOk, OnOk, OnErr};
ghost use Rattle.std.specs.List.{insert, remove};
ghost use Rattle.retro_base.specs.declared.row.Row.{Row};
ghost use Rattle.retro_base.specs.Answers.{answer_of, content};
ghost use Rattle.retro_base.specs.Changes.{IsChange};
ghost use Rattle.retro_base.specs.Edits.{add, cut};
ghost use Rattle.retro_base.specs.Kind.{kind_of};
ghost use Rattle.retro_base.specs.Questions.{suits};
ghost use Rattle.retro_base.specs.Replay.{failure, IsValid, present, state_at};
ghost use Rattle.retro_base.specs.Timeline.{IsReplayable};
ghost use Rattle.costs.specs.Visits.{OpensCounter, VisitsWithin};
ghost use Rattle.checkpoint_full.specs.Checkpoints.{after, first_of, place_of, CanTake, HoldsFirstRows};

use retro_base::{
    Answer, Change, Kind, Listing, NoMemory, Op, Partial, Question, Row, Steps, uncounted,
};
use std::marker::{Brand, Model};
use std::sync::ledger::{Blank, Ledger};

/// A structure that contracts see as its kind and its rows.
///
/// No other module sees the structure inside.
#[derive(Drop)]
pub(crate) struct Snapshot<P: Partial + Drop> {
    structure: P,
}

impl<P: Partial + Drop> Model for Snapshot<P> {
    ghost use Rattle.retro_base.specs.Timeline.{IsReplayable, Structure};

    ghost Value = { Structure };

    ghost view = { λ s. record { kind = P.kind s.structure; rows = P.rows s.structure } };

    ghost invariant = { λ s. IsReplayable (P.kind s.structure) (P.rows s.structure) };
}

impl<P: Partial + Drop> Snapshot<P> {
    /// A snapshot of the structure's own rows.
    pub(crate) fn new(structure: P) -> Snapshot<P>
        ensures { result ≡ record { kind = P.kind structure; rows = P.rows structure } }
    {
        // Its clause says that the rows replay.
        let _kind = structure.kind();
        Snapshot { structure }
    }

    /// The kind.
    pub(crate) fn kind(&self) -> Kind
        ensures kind { result ≡ self.now.kind }
        ensures replayable { IsReplayable self.now.kind self.now.rows }
    {
        self.structure.kind()
    }

    /// The place at which it stands: after so many rows.
    pub(crate) fn place(&self) -> u32
        ensures place { result ≡ place_of self.now }
        ensures replayable { IsReplayable self.now.kind self.now.rows }
    {
        self.structure.len()
    }

    /// Whether it stands after the place, and so has the row there.
    pub(crate) fn is_after(&self, place: u32) -> bool
        ensures { result ≡ nat_lt place (place_of self.now) }
    {
        place < self.place()
    }

    /// The row at a place.
    fn row_at<L: Ledger>(&self, place: u32, steps: &mut Steps<L>) -> Row
        requires { place < place_of self.now }
        ensures row { slice_get self.now.rows place ≡ Some result }
        ensures replayable { IsReplayable self.now.kind self.now.rows }
        ensures visits { VisitsWithin 144 (place_of self.now) steps.old steps.new }
    {
        self.structure.row_at(place, steps)
    }

    /// The index of the first row that could not be performed, were a row with this operation put in at the place.
    pub(crate) fn failure_after_insert(&self, place: u32, op: Op) -> Option<u32>
        requires within { place ≤ place_of self.now }
        requires of_kind { kind_of op ≡ self.now.kind }
        ensures first { (row : Row) → row.op ≡ op → result ≡ failure self.now.kind (insert self.now.rows place row) }
        ensures index { IfSome result (λ index. index ≤ place_of self.now) }
    {
        uncounted::failure_after_insert(&self.structure, place, op)
    }

    /// The index of the first row that could not be performed, were the row at the place taken out.
    pub(crate) fn failure_after_remove(&self, place: u32) -> Option<u32>
        requires { place < place_of self.now }
        ensures first { result ≡ failure self.now.kind (remove self.now.rows place) }
        ensures index { IfSome result (λ index. index + 1 < place_of self.now) }
    {
        uncounted::failure_after_remove(&self.structure, place)
    }

    /// Puts a row in at a place, and answers the change of its present. After `NoMemory` all is as before.
    pub(crate) fn insert<L: Ledger>(
        &mut self,
        place: u32,
        row: Row,
        steps: &mut Steps<L>,
    ) -> Result<Change, NoMemory>
        requires within { place ≤ place_of self.old }
        requires can { CanTake self.old place row }
        ensures ok { OnOk result (self.new ≡ after self.old (add place row)) }
        ensures before { IsReplayable self.old.kind self.old.rows }
        ensures replayable { IsReplayable self.new.kind self.new.rows }
        ensures change { IfOk result (IsChange self.old.kind self.old.rows (add place row)) }
        ensures err { OnErr result (self.new ≡ self.old) }
        ensures visits { VisitsWithin 144 (place_of self.old + 1) steps.old steps.new }
    {
        self.structure.insert(place, row, steps)
    }

    /// Takes the row at a place out, gives it back, and answers the change of its present. It takes no memory.
    pub(crate) fn remove<L: Ledger>(&mut self, place: u32, steps: &mut Steps<L>) -> (Row, Change)
        requires within { place < place_of self.old }
        requires replays { IsValid self.old.kind (remove self.old.rows place) }
        ensures row { slice_get self.old.rows place ≡ Some result.0 }
        ensures rows { self.new ≡ after self.old (cut place result.0) }
        ensures replayable { IsReplayable self.new.kind self.new.rows }
        ensures change { IsChange self.old.kind self.old.rows (cut place result.0) result.1 }
        ensures visits { VisitsWithin 144 (place_of self.old) steps.old steps.new }
    {
        self.structure.remove(place, steps)
    }

    /// The answer to a question about its present.
    pub(crate) fn ask_now<L: Ledger>(&self, question: Question, steps: &mut Steps<L>) -> Answer
        requires { suits question self.now.kind ≡ true }
        ensures answer { result ≡ answer_of (present self.now.kind self.now.rows) question }
        ensures visits { VisitsWithin 144 (place_of self.now) steps.old steps.new }
    {
        self.structure.ask_now(question, steps)
    }

    /// `ask_now` with a counter of its own.
    pub(crate) fn answer_now(&self, question: Question) -> Answer
        requires { suits question self.now.kind ≡ true }
        ensures { result ≡ answer_of (present self.now.kind self.now.rows) question }
    {
        uncounted::ask_now(&self.structure, question)
    }

    /// The whole content of its present.
    pub(crate) fn all_now(&self) -> Result<Listing, NoMemory>
        ensures { IfOk result (λ listing. listing ≡ content (present self.now.kind self.now.rows)) }
    {
        self.structure.all_now()
    }

    /// The answer to a question about the timeline at a place, from its first rows, which stay as they are.
    pub(crate) fn ask_after<L: Ledger>(
        &self,
        timeline: &Snapshot<P>,
        place: u32,
        question: Question,
        steps: &mut Steps<L>,
    ) -> Result<Answer, NoMemory>
        requires first { HoldsFirstRows timeline.now self.now }
        requires earlier { place_of self.now ≤ place }
        requires within { place ≤ place_of timeline.now }
        requires suited { suits question timeline.now.kind ≡ true }
        ensures answer { IfOk result (λ answer. answer ≡ answer_of (state_at timeline.now.kind timeline.now.rows place) question) }
        ensures visits { VisitsWithin (288 * (place - place_of self.now) + 144) (place_of timeline.now) steps.old steps.new }
    {
        let own = &self.structure;
        own.ask_after(&timeline.structure, place, question, steps)
    }

    /// The whole content of the timeline at a place, from its first rows, which stay as they are.
    pub(crate) fn list_after(&self, timeline: &Snapshot<P>, place: u32) -> Result<Listing, NoMemory>
        requires first { HoldsFirstRows timeline.now self.now }
        requires earlier { place_of self.now ≤ place }
        requires within { place ≤ place_of timeline.now }
        ensures content { IfOk result (λ listing. listing ≡ content (state_at timeline.now.kind timeline.now.rows place)) }
    {
        uncounted::list_after(&self.structure, &timeline.structure, place)
    }

    /// Takes the last row off.
    fn take_last_off<L: Ledger>(&mut self, steps: &mut Steps<L>)
        requires { 0 < place_of self.old }
        ensures rows { self.new ≡ first_of (place_of self.old - 1) self.old }
        ensures visits { VisitsWithin 144 (place_of self.old) steps.old steps.new }
    {
        self.remove(self.place() - 1, steps);
    }

    /// Takes rows off the end, back to a place. It takes no memory.
    fn roll_back<L: Ledger>(&mut self, place: u32, steps: &mut Steps<L>)
        requires { place ≤ place_of self.old }
        ensures rows { self.new ≡ first_of place self.old }
        ensures visits { VisitsWithin (144 * (place_of self.old - place)) (place_of self.old) steps.old steps.new }
    {
        for _ in place..self.place() {
            self.take_last_off(steps);
        }
    }

    /// Appends the next row of the timeline. After `NoMemory` all is as before.
    fn append_next<L: Ledger>(
        &mut self,
        timeline: &Snapshot<P>,
        steps: &mut Steps<L>,
    ) -> Result<(), NoMemory>
        requires first { HoldsFirstRows timeline.now self.old }
        requires earlier { place_of self.old < place_of timeline.now }
        ensures ok { OnOk result (self.new ≡ first_of (place_of self.old + 1) timeline.now) }
        ensures err { OnErr result (self.new ≡ self.old) }
        ensures visits { VisitsWithin 288 (place_of timeline.now) steps.old steps.new }
    {
        let place = self.place();
        let row = timeline.row_at(place, steps);
        self.insert(place, row, steps)?;
        Ok(())
    }

    /// Appends the rows of the timeline up to a place, or some of them before `NoMemory`.
    fn roll_forward<L: Ledger>(
        &mut self,
        timeline: &Snapshot<P>,
        place: u32,
        steps: &mut Steps<L>,
    ) -> Result<(), NoMemory>
        requires first { HoldsFirstRows timeline.now self.old }
        requires earlier { place_of self.old ≤ place }
        requires within { place ≤ place_of timeline.now }
        ensures ok { OnOk result (self.new ≡ first_of place timeline.now) }
        ensures first { HoldsFirstRows timeline.now self.new }
        ensures between { (place_of self.old ≤ place_of self.new) × (place_of self.new ≤ place) }
        ensures visits { VisitsWithin (288 * (place - place_of self.old)) (place_of timeline.now) steps.old steps.new }
    {
        for _ in self.place()..place {
            self.append_next(timeline, steps)?;
        }
        Ok(())
    }

    /// Moves to a place of the timeline: takes rows off the end, or appends rows of the timeline.
    pub(crate) fn move_to<L: Ledger>(
        &mut self,
        timeline: &Snapshot<P>,
        place: u32,
        steps: &mut Steps<L>,
    ) -> Result<(), NoMemory>
        requires first { HoldsFirstRows timeline.now self.old }
        requires within { place ≤ place_of timeline.now }
        ensures ok { OnOk result (self.new ≡ first_of place timeline.now) }
        ensures visits { VisitsWithin (288 * (place - place_of self.old + (place_of self.old - place))) (place_of timeline.now) steps.old steps.new }
    {
        if self.is_after(place) {
            self.roll_back(place, steps);
            return Ok(());
        }
        self.roll_forward(timeline, place, steps)
    }

    /// `move_to`, for a caller that counts nothing.
    pub(crate) fn bring_to(&mut self, timeline: &Snapshot<P>, place: u32) -> Result<(), NoMemory>
        requires first { HoldsFirstRows timeline.now self.old }
        requires within { place ≤ place_of timeline.now }
        ensures ok { OnOk result (self.new ≡ first_of place timeline.now) }
    {
        self.move_uncounted::<Brand>(timeline, place, Blank::new(1))
    }

    fn move_uncounted<L: Ledger>(
        &mut self,
        timeline: &Snapshot<P>,
        place: u32,
        blank: Blank,
    ) -> Result<(), NoMemory>
        requires first { HoldsFirstRows timeline.now self.old }
        requires within { place ≤ place_of timeline.now }
        requires counter { OpensCounter blank.name L.name blank.parts L.parts }
        ensures ok { OnOk result (self.new ≡ first_of place timeline.now) }
    {
        let mut steps = Steps::<L>::new(blank);
        self.move_to(timeline, place, &mut steps)
    }

    /// Takes rows off the end, back to a place, for a caller that counts no visits. It takes no memory.
    fn shorten<L: Ledger>(&mut self, place: u32, blank: Blank)
        requires within { place ≤ place_of self.old }
        requires counter { OpensCounter blank.name L.name blank.parts L.parts }
        ensures rows { self.new ≡ first_of place self.old }
    {
        let mut steps = Steps::<L>::new(blank);
        self.roll_back(place, &mut steps);
    }

    /// A snapshot of the same rows.
    pub(crate) fn copy(&self) -> Result<Snapshot<P>, NoMemory>
        ensures { IfOk result (λ copy. copy ≡ self.now) }
    {
        Ok(Snapshot::new(self.structure.copy()?))
    }

    /// A snapshot of the first rows, up to a place.
    pub(crate) fn copy_at(&self, place: u32) -> Result<Snapshot<P>, NoMemory>
        requires { place ≤ place_of self.now }
        ensures { IfOk result (λ copy. copy ≡ first_of place self.now) }
    {
        let mut copy = self.copy()?;
        copy.shorten::<Brand>(place, Blank::new(1));
        Ok(copy)
    }
}
