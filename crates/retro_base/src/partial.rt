//! The trait of a structure whose past can be edited and that answers of the present.

ghost use Rattle.std.specs.Prelude.{◌≡◌, ◌+◌, ◌<◌, ◌≤◌, ◌-◌, ◌*◌, List, length, take, slice_get, true, IsOk, IfSome, IfOk, OnOk, OnErr};
ghost use Rattle.std.specs.List.{insert, remove};
ghost use Rattle.retro_base.specs.declared.kind.Kind.{Kind};
ghost use Rattle.retro_base.specs.declared.row.Row.{Row};
ghost use Rattle.retro_base.specs.Limits.{most_rows};
ghost use Rattle.retro_base.specs.Kind.{kind_of};
ghost use Rattle.retro_base.specs.Replay.{failure, IsValid, present, state_at};
ghost use Rattle.retro_base.specs.Answers.{answer_of, content};
ghost use Rattle.retro_base.specs.Questions.{suits};
ghost use Rattle.retro_base.specs.Edits.{add, cut};
ghost use Rattle.retro_base.specs.Changes.{IsChange};
ghost use Rattle.retro_base.specs.Timeline.{IsReplayable};
ghost use Rattle.costs.specs.Visits.{VisitsWithin};

use crate::{Answer, Change, Kind, Listing, NoMemory, Op, Question, Row, Steps, uncounted};
use std::sync::ledger::Ledger;

/// A structure whose past can be edited and that answers of the present alone. It is seen as a kind and
/// a list of rows, as `Retro` is, and its calls have the conditions and the answers of those of `Retro`.
/// A call that takes a counter visits at most 144 nodes for each binary digit of one more than the
/// length, the greater one of those before and after; `copy_after`, `ask_after` and `list_after` have
/// bodies of their own, and visit more.
pub trait Partial: Sized {
    /// The kind of the structure.
    ghost kind: { Self → Kind };

    /// The rows, the earliest first.
    ghost rows: { Self → List Row };

    /// The kind of the structure.
    fn kind(&self) -> Kind
        ensures kind { result ≡ kind self.now }
        ensures replayable { IsReplayable (kind self.now) (rows self.now) };

    /// How many rows there are.
    fn len(&self) -> u32
        ensures length { result ≡ length (rows self.now) }
        ensures few { result ≤ most_rows };

    /// The row at a place.
    fn row_at<L: Ledger>(&self, place: u32, steps: &mut Steps<L>) -> Row
        requires { place < length (rows self.now) }
        ensures row { slice_get (rows self.now) place ≡ Some result }
        ensures visits { VisitsWithin 144 (length (rows self.now)) steps.old steps.new };

    /// The index of the first row that could not be performed, were a row with this operation put in
    /// at the place; none where all rows could.
    fn failure_after_insert<L: Ledger>(
        &self,
        place: u32,
        op: Op,
        steps: &mut Steps<L>,
    ) -> Option<u32>
        requires within { place ≤ length (rows self.now) }
        requires of_kind { kind_of op ≡ kind self.now }
        ensures first { (row : Row) → row.op ≡ op → result ≡ failure (kind self.now) (insert (rows self.now) place row) }
        ensures index { IfSome result (λ index. index ≤ length (rows self.now)) }
        ensures visits { VisitsWithin 144 (length (rows self.now)) steps.old steps.new };

    /// The index of the first row that could not be performed, were the row at the place taken out;
    /// none where all rows could.
    fn failure_after_remove<L: Ledger>(&self, place: u32, steps: &mut Steps<L>) -> Option<u32>
        requires { place < length (rows self.now) }
        ensures first { result ≡ failure (kind self.now) (remove (rows self.now) place) }
        ensures index { IfSome result (λ index. index + 1 < length (rows self.now)) }
        ensures visits { VisitsWithin 144 (length (rows self.now)) steps.old steps.new };

    /// Puts the row in at the place, and answers the change of the present. After `NoMemory` all is as
    /// before.
    fn insert<L: Ledger>(
        &mut self,
        place: u32,
        row: Row,
        steps: &mut Steps<L>,
    ) -> Result<Change, NoMemory>
        requires within { place ≤ length (rows self.old) }
        requires replayable { IsReplayable (kind self.old) (insert (rows self.old) place row) }
        ensures kind { kind self.new ≡ kind self.old }
        ensures rows { OnOk result (rows self.new ≡ insert (rows self.old) place row) }
        ensures replayable { OnOk result (IsReplayable (kind self.new) (rows self.new)) }
        ensures change { IfOk result (IsChange (kind self.old) (rows self.old) (add place row)) }
        ensures err { OnErr result (rows self.new ≡ rows self.old) }
        ensures visits { VisitsWithin 144 (length (rows self.new)) steps.old steps.new };

    /// Takes the row at the place out, gives it back, and answers the change of the present. It takes no
    /// memory.
    fn remove<L: Ledger>(&mut self, place: u32, steps: &mut Steps<L>) -> (Row, Change)
        requires within { place < length (rows self.old) }
        requires replays { IsValid (kind self.old) (remove (rows self.old) place) }
        ensures kind { kind self.new ≡ kind self.old }
        ensures row { slice_get (rows self.old) place ≡ Some result.0 }
        ensures rows { rows self.new ≡ remove (rows self.old) place }
        ensures replayable { IsReplayable (kind self.new) (rows self.new) }
        ensures change { IsChange (kind self.old) (rows self.old) (cut place result.0) result.1 }
        ensures visits { VisitsWithin 144 (length (rows self.old)) steps.old steps.new };

    /// The answer to a question about the present.
    fn ask_now<L: Ledger>(&self, question: Question, steps: &mut Steps<L>) -> Answer
        requires { suits question (kind self.now) ≡ true }
        ensures answer { result ≡ answer_of (present (kind self.now) (rows self.now)) question }
        ensures visits { VisitsWithin 144 (length (rows self.now)) steps.old steps.new };

    /// The whole content of the present.
    fn all_now(&self) -> Result<Listing, NoMemory>
        ensures { IfOk result (λ listing. listing ≡ content (present (kind self.now) (rows self.now))) };

    /// A structure of the same kind and rows.
    fn copy(&self) -> Result<Self, NoMemory>
        ensures kind { IfOk result (λ copy. kind copy ≡ kind self.now) }
        ensures rows { IfOk result (λ copy. rows copy ≡ rows self.now) };

    /// A structure with the first rows of a later one, up to a place, where this one has its first rows and
    /// the place is not before them. It visits at most 288 nodes for each row between, and each digit.
    fn copy_after<L: Ledger>(
        &self,
        later: &Self,
        place: u32,
        steps: &mut Steps<L>,
    ) -> Result<Self, NoMemory>
    where
        Self: Drop,
        requires kind { kind later.now ≡ kind self.now }
        requires first { rows self.now ≡ take (length (rows self.now)) (rows later.now) }
        requires earlier { length (rows self.now) ≤ place }
        requires within { place ≤ length (rows later.now) }
        ensures kind { IfOk result (λ copy. kind copy ≡ kind later.now) }
        ensures rows { IfOk result (λ copy. rows copy ≡ take place (rows later.now)) }
        ensures visits { VisitsWithin (288 * (place - length (rows self.now))) (length (rows later.now)) steps.old steps.new }
    {
        // Its clause says that the later rows replay.
        let _kind = later.kind();
        let mut copy = self.copy()?;
        for at in self.len()..place {
            copy.insert(at, later.row_at(at, steps), steps)?;
        }
        Ok(copy)
    }

    /// The answer to a question about the state of a later structure at a place, where this one has its first
    /// rows and the place is not before them. It visits at most 288 nodes for each row between and 144 more, and
    /// each digit. Right after its own rows this one answers alone, and needs no memory.
    fn ask_after<L: Ledger>(
        &self,
        later: &Self,
        place: u32,
        question: Question,
        steps: &mut Steps<L>,
    ) -> Result<Answer, NoMemory>
    where
        Self: Drop,
        requires kind { kind later.now ≡ kind self.now }
        requires first { rows self.now ≡ take (length (rows self.now)) (rows later.now) }
        requires earlier { length (rows self.now) ≤ place }
        requires within { place ≤ length (rows later.now) }
        requires suited { suits question (kind later.now) ≡ true }
        ensures answer { IfOk result (λ answer. answer ≡ answer_of (state_at (kind later.now) (rows later.now) place) question) }
        ensures here { place ≡ length (rows self.now) → IsOk result }
        ensures visits { VisitsWithin (288 * (place - length (rows self.now)) + 144) (length (rows later.now)) steps.old steps.new }
    {
        if place == self.len() {
            return Ok(self.ask_now(question, steps));
        }
        let copy = self.copy_after(later, place, steps)?;
        Ok(copy.ask_now(question, steps))
    }

    /// The whole content of a later structure at a place, where this one has its first rows and the place is not
    /// before them.
    fn list_after<L: Ledger>(
        &self,
        later: &Self,
        place: u32,
        steps: &mut Steps<L>,
    ) -> Result<Listing, NoMemory>
    where
        Self: Drop,
        requires kind { kind later.now ≡ kind self.now }
        requires first { rows self.now ≡ take (length (rows self.now)) (rows later.now) }
        requires earlier { length (rows self.now) ≤ place }
        requires within { place ≤ length (rows later.now) }
        ensures content { IfOk result (λ listing. listing ≡ content (state_at (kind later.now) (rows later.now) place)) }
    {
        let copy = self.copy_after(later, place, steps)?;
        copy.all_now()
    }

    /// `list_after` with a counter of its own.
    final fn all_after(&self, later: &Self, place: u32) -> Result<Listing, NoMemory>
    where
        Self: Drop,
        requires kind { kind later.now ≡ kind self.now }
        requires first { rows self.now ≡ take (length (rows self.now)) (rows later.now) }
        requires earlier { length (rows self.now) ≤ place }
        requires within { place ≤ length (rows later.now) }
        ensures content { IfOk result (λ listing. listing ≡ content (state_at (kind later.now) (rows later.now) place)) }
    {
        uncounted::list_after(self, later, place)
    }
}
