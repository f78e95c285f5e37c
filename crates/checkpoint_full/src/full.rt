//! The type and its calls.

ghost use Rattle.std.specs.Prelude.{◌≡◌, ◌+◌, ◌*◌, ◌<◌, ◌≤◌, [], length, slice_get, true, false, Some, IsOk, IfOk, OnOk, OnErr};
ghost use Rattle.std.specs.List.{insert, remove};
ghost use Rattle.retro_base.specs.declared.row.Row.{Row};
ghost use Rattle.retro_base.specs.Answers.{answer_of, content};
ghost use Rattle.retro_base.specs.Changes.{IsChange};
ghost use Rattle.retro_base.specs.Edits.{add, cut};
ghost use Rattle.retro_base.specs.Questions.{suits};
ghost use Rattle.retro_base.specs.Replay.{IsValid, present, state_at};
ghost use Rattle.retro_base.specs.Timeline.{IsReplayable};
ghost use Rattle.costs.specs.Visits.{OpensCounter, VisitsWithin};
ghost use Rattle.checkpoint_full.specs.Rule.{FollowsRule, IsAsked};
ghost use Rattle.checkpoint_full.specs.Widths.{narrowest};

use crate::checkpoints::{drop_made, make, make_room};
use crate::follow::{insert_everywhere, remove_everywhere};
use crate::past::{ask_at, list_at};
use crate::reader::Reader;
use crate::settle::settle;
use crate::snapshot::Snapshot;
use crate::spares::{insert_in_spares, keep_few, remove_in_spares};
use crate::width::{NARROWEST, width_for};
use retro_base::{
    Answer, Change, Kind, Listing, NoMemory, Op, Partial, Question, Retro, Row, Steps,
};
use std::alloc::Global;
use std::marker::{Brand, Model};
use std::sync::ledger::{Blank, Ledger};

/// A structure whose whole past can be asked, over one that answers of the present alone.
///
/// Contracts see its kind and rows, whether its checkpoints were made, the width, and the places of those after the
/// start. The width is 1,024, 2,048, 4,096 or 8,192 rows, and never falls. The checkpoints are made at the first question
/// about the past, at the start and at each multiple of the width below the number of rows, at the least width at which
/// there are at most 31 after the start. From then on they stand where the rule of an edit says (`specs/Rule.antt`):
/// where a row is put in between neighbours that are a width apart, one is made between them first, right before a row
/// that comes after all others, and in the middle otherwise; those after the place move with the rows; then, from the
/// latest to the start, each whose neighbours are at most a width apart is dropped, and where more than 31 are left, the
/// width is doubled and they are thinned again.
///
/// So neighbours are at most a width apart, the two neighbours of each are more than a width apart, there are at most
/// 31, and each performs the first rows of the timeline, as many as it stands for.
///
/// Where many questions have followed one another closely, a copy of a checkpoint is moved to each of their places in
/// turn; contracts do not see it.
#[derive(Drop)]
pub struct Full<P: Partial + Drop> {
    alloc: Global,
    present: Snapshot<P>,
    checkpoints: Vec<Snapshot<P>>,
    spares: Vec<Snapshot<P>>,
    width: u32,
    reader: Reader<P>,
}

impl<P: Partial + Drop> Model for Full<P> {
    ghost use Rattle.std.specs.Prelude.{IfSome};
    ghost use Rattle.std.specs.List.{AllByRecursion};
    ghost use Rattle.checkpoint_full.specs.Checkpoints.{Checkpointed, HoldsFirstRows, KeepsRule, seen};

    ghost Value = { Checkpointed };

    ghost view = { λ f. seen f.width f.present f.checkpoints.items };

    ghost invariant = { λ f. KeepsRule f.width f.present f.checkpoints.items × IfSome f.reader (HoldsFirstRows f.present)
        × AllByRecursion (HoldsFirstRows f.present) f.spares.items };
}

impl<P: Partial + Drop> Full<P> {
    /// A structure over an empty one. It takes no memory; that of the checkpoints will be that of `alloc`.
    pub fn new(alloc: Global, present: P) -> Full<P>
        requires { P.rows present ≡ [] }
        ensures { result ≡ record { kind = P.kind present; rows = []; made = false; width = narrowest; places = [] } }
    {
        Full {
            alloc,
            present: Snapshot::new(present),
            checkpoints: Vec::new(alloc),
            spares: Vec::new(alloc),
            width: NARROWEST,
            reader: Reader::new(),
        }
    }

    /// The answer to a question about the state at a place, after so many rows. The rows stay, whatever the answer, and
    /// so do the checkpoints where they had been made; then it visits at most 432 nodes for each row of a width and one
    /// more, and each binary digit of one more than the number of rows. After `NoMemory` all is as before.
    pub fn ask_past<L: Ledger>(
        &mut self,
        place: u32,
        question: Question,
        steps: &mut Steps<L>,
    ) -> Result<Answer, NoMemory>
        requires within { place ≤ length self.old.rows }
        requires suited { suits question self.old.kind ≡ true }
        ensures asked { IsAsked self.old (answer_of (state_at self.old.kind self.old.rows place) question) result self.new }
        ensures visits { self.old.made ≡ true → VisitsWithin (432 * (self.old.width + 1)) (length self.old.rows) steps.old steps.new }
    {
        if self.checkpoints.is_empty() {
            let least = width_for(self.present.place());
            let made = make(self.alloc, &self.present, least)?;
            let reader = &mut self.reader;
            let lent = made.as_slice();
            let answer = ask_at(reader, lent, &self.present, least, place, question, steps)?;
            self.checkpoints = made;
            self.width = least;
            return Ok(answer);
        }
        let reader = &mut self.reader;
        let lent = self.checkpoints.as_slice();
        ask_at(
            reader,
            lent,
            &self.present,
            self.width,
            place,
            question,
            steps,
        )
    }

    /// `ask_past` with a counter of its own.
    fn ask_uncounted<L: Ledger>(
        &mut self,
        place: u32,
        question: Question,
        blank: Blank,
    ) -> Result<Answer, NoMemory>
        requires within { place ≤ length self.old.rows }
        requires suited { suits question self.old.kind ≡ true }
        requires counter { OpensCounter blank.name L.name blank.parts L.parts }
        ensures asked { IsAsked self.old (answer_of (state_at self.old.kind self.old.rows place) question) result self.new }
    {
        let mut steps = Steps::<L>::new(blank);
        self.ask_past(place, question, &mut steps)
    }

    /// The whole content at a place, after so many rows. The rows stay, whatever the answer, and so do the checkpoints
    /// where they had been made. After `NoMemory` all is as before.
    pub fn all_past(&mut self, place: u32) -> Result<Listing, NoMemory>
        requires { place ≤ length self.old.rows }
        ensures asked { IsAsked self.old (content (state_at self.old.kind self.old.rows place)) result self.new }
    {
        if self.checkpoints.is_empty() {
            let least = width_for(self.present.place());
            let made = make(self.alloc, &self.present, least)?;
            let reader = &mut self.reader;
            let listing = list_at(reader, made.as_slice(), &self.present, least, place)?;
            self.checkpoints = made;
            self.width = least;
            return Ok(listing);
        }
        let reader = &mut self.reader;
        list_at(
            reader,
            self.checkpoints.as_slice(),
            &self.present,
            self.width,
            place,
        )
    }
}

impl<P: Partial + Drop> Retro for Full<P> {
    ghost kind = { λ f. f.kind };

    ghost rows = { λ f. f.rows };

    fn kind(&self) -> Kind {
        self.present.kind()
    }

    fn len(&self) -> u32 {
        self.present.place()
    }

    fn failure_after_insert(&self, place: u32, op: Op) -> Option<u32> {
        self.present.failure_after_insert(place, op)
    }

    fn failure_after_remove(&self, place: u32) -> Option<u32> {
        self.present.failure_after_remove(place)
    }

    /// The width and the places are then those of the rule; where no checkpoints were made, they stay as they are.
    fn insert(&mut self, place: u32, row: Row) -> Result<Change, NoMemory>
        requires within { place ≤ length self.old.rows }
        requires replayable { IsReplayable self.old.kind (insert self.old.rows place row) }
        ensures kind { self.new.kind ≡ self.old.kind }
        ensures rows { OnOk result (self.new.rows ≡ insert self.old.rows place row) }
        ensures replayable { OnOk result (IsReplayable self.new.kind self.new.rows) }
        ensures change { IfOk result (IsChange self.old.kind self.old.rows (add place row)) }
        ensures rule { OnOk result (FollowsRule self.old (add place row) self.new) }
        ensures err { OnErr result (self.new ≡ self.old) }
    {
        let split = make_room(
            &self.present,
            &mut self.checkpoints,
            &mut self.spares,
            self.width,
            place,
        )?;
        let lent = self.checkpoints.as_mut_slice();
        match insert_everywhere::<P, Brand>(&mut self.present, lent, place, row, Blank::new(1)) {
            Ok(change) => {
                insert_in_spares::<P, Brand>(&mut self.spares, place, row, Blank::new(1));
                self.width = settle(
                    &self.present,
                    &mut self.checkpoints,
                    &mut self.spares,
                    self.width,
                );
                keep_few(&self.present, &mut self.spares, self.checkpoints.len());
                self.reader.after_edit(place);
                Ok(change)
            }
            Err(error) => {
                drop_made(&mut self.checkpoints, split);
                Err(error)
            }
        }
    }

    /// It takes no memory, so it never answers `NoMemory`. The width and the places are then those of the rule; where no
    /// checkpoints were made, they stay as they are.
    fn remove(&mut self, place: u32) -> Result<(Row, Change), NoMemory>
        requires within { place < length self.old.rows }
        requires replays { IsValid self.old.kind (remove self.old.rows place) }
        ensures succeeds { IsOk result }
        ensures kind { self.new.kind ≡ self.old.kind }
        ensures row { IfOk result (λ taken. slice_get self.old.rows place ≡ Some taken.0) }
        ensures rows { OnOk result (self.new.rows ≡ remove self.old.rows place) }
        ensures replayable { OnOk result (IsReplayable self.new.kind self.new.rows) }
        ensures change { IfOk result (λ taken. IsChange self.old.kind self.old.rows (cut place taken.0) taken.1) }
        ensures rule { IfOk result (λ taken. FollowsRule self.old (cut place taken.0) self.new) }
        ensures err { OnErr result (self.new ≡ self.old) }
    {
        let lent = self.checkpoints.as_mut_slice();
        let taken = remove_everywhere::<P, Brand>(&mut self.present, lent, place, Blank::new(1));
        remove_in_spares::<P, Brand>(&mut self.spares, place, Blank::new(1));
        self.width = settle(
            &self.present,
            &mut self.checkpoints,
            &mut self.spares,
            self.width,
        );
        keep_few(&self.present, &mut self.spares, self.checkpoints.len());
        self.reader.after_edit(place);
        Ok(taken)
    }

    fn ask_now(&self, question: Question) -> Answer {
        self.present.answer_now(question)
    }

    fn ask(&mut self, place: u32, question: Question) -> Result<Answer, NoMemory>
        requires within { place ≤ length self.old.rows }
        requires suited { suits question self.old.kind ≡ true }
        ensures asked { IsAsked self.old (answer_of (state_at self.old.kind self.old.rows place) question) result self.new }
    {
        self.ask_uncounted::<Brand>(place, question, Blank::new(1))
    }

    fn all(&mut self, place: u32) -> Result<Listing, NoMemory>
        requires { place ≤ length self.old.rows }
        ensures asked { IsAsked self.old (content (state_at self.old.kind self.old.rows place)) result self.new }
    {
        self.all_past(place)
    }

    /// It is the present's own listing, so it makes no checkpoints.
    fn list_now(&mut self) -> Result<Listing, NoMemory>
        ensures same { self.new ≡ self.old }
        ensures content { IfOk result (λ listing. listing ≡ content (present self.old.kind self.old.rows)) }
    {
        self.present.all_now()
    }
}
