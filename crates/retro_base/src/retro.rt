//! The trait of a structure whose past can be edited and asked.

ghost use Rattle.std.specs.Prelude.{◌≡◌, ◌+◌, ◌<◌, ◌≤◌, List, length, slice_get, true, IfSome, IfOk, OnOk, OnErr};
ghost use Rattle.std.specs.List.{insert, remove};
ghost use Rattle.retro_base.specs.declared.kind.Kind.{Kind};
ghost use Rattle.retro_base.specs.declared.row.Row.{Row};
ghost use Rattle.retro_base.specs.Limits.{most_rows};
ghost use Rattle.retro_base.specs.Kind.{kind_of};
ghost use Rattle.retro_base.specs.Replay.{failure, IsValid, present, state_at};
ghost use Rattle.retro_base.specs.Answers.{answer_of, content};
ghost use Rattle.retro_base.specs.Questions.{suits};
ghost use Rattle.retro_base.specs.Edits.{add, cut};
ghost use Rattle.retro_base.specs.Changes.{IsChange};
ghost use Rattle.retro_base.specs.Timeline.{IsReplayable};

use crate::{Answer, Change, Kind, Listing, NoMemory, Op, Question, Row};

/// A structure whose past can be edited. It is seen as a kind and a list of rows of that kind, with
/// numbers of their own, that replay whole; each answer is that of performing the rows in order.
pub trait Retro {
    /// The kind of the structure.
    ghost kind: { Self → Kind };

    /// The rows, the earliest first.
    ghost rows: { Self → List Row };

    /// The kind of the structure.
    fn kind(&self) -> Kind
        ensures kind { result ≡ kind self.now }
        ensures replayable { IsReplayable (kind self.now) (rows self.now) };

    /// How many rows there are.
    fn len(&self) -> u32
        ensures length { result ≡ length (rows self.now) }
        ensures few { result ≤ most_rows };

    /// The index of the first row that could not be performed, were a row with this operation put in
    /// at the place; none where all rows could.
    fn failure_after_insert(&self, place: u32, op: Op) -> Option<u32>
        requires within { place ≤ length (rows self.now) }
        requires of_kind { kind_of op ≡ kind self.now }
        ensures first { (row : Row) → row.op ≡ op → result ≡ failure (kind self.now) (insert (rows self.now) place row) }
        ensures index { IfSome result (λ index. index ≤ length (rows self.now)) };

    /// The index of the first row that could not be performed, were the row at the place taken out;
    /// none where all rows could.
    fn failure_after_remove(&self, place: u32) -> Option<u32>
        requires { place < length (rows self.now) }
        ensures first { result ≡ failure (kind self.now) (remove (rows self.now) place) }
        ensures index { IfSome result (λ index. index + 1 < length (rows self.now)) };

    /// Puts the row in at the place, and answers the change of the present. After `NoMemory` all is as
    /// before.
    fn insert(&mut self, place: u32, row: Row) -> Result<Change, NoMemory>
        requires within { place ≤ length (rows self.old) }
        requires replayable { IsReplayable (kind self.old) (insert (rows self.old) place row) }
        ensures kind { kind self.new ≡ kind self.old }
        ensures rows { OnOk result (rows self.new ≡ insert (rows self.old) place row) }
        ensures replayable { OnOk result (IsReplayable (kind self.new) (rows self.new)) }
        ensures change { IfOk result (IsChange (kind self.old) (rows self.old) (add place row)) }
        ensures err { OnErr result (rows self.new ≡ rows self.old) };

    /// Takes the row at the place out, gives it back, and answers the change of the present. After
    /// `NoMemory` all is as before.
    fn remove(&mut self, place: u32) -> Result<(Row, Change), NoMemory>
        requires within { place < length (rows self.old) }
        requires replays { IsValid (kind self.old) (remove (rows self.old) place) }
        ensures kind { kind self.new ≡ kind self.old }
        ensures row { IfOk result (λ taken. slice_get (rows self.old) place ≡ Some taken.0) }
        ensures rows { OnOk result (rows self.new ≡ remove (rows self.old) place) }
        ensures replayable { OnOk result (IsReplayable (kind self.new) (rows self.new)) }
        ensures change { IfOk result (λ taken. IsChange (kind self.old) (rows self.old) (cut place taken.0) taken.1) }
        ensures err { OnErr result (rows self.new ≡ rows self.old) };

    /// The answer to a question about the present.
    fn ask_now(&self, question: Question) -> Answer
        requires { suits question (kind self.now) ≡ true }
        ensures { result ≡ answer_of (present (kind self.now) (rows self.now)) question };

    /// The answer to a question about the state at a place, after so many rows. The rows stay,
    /// whatever the answer.
    fn ask(&mut self, place: u32, question: Question) -> Result<Answer, NoMemory>
        requires within { place ≤ length (rows self.old) }
        requires suited { suits question (kind self.old) ≡ true }
        ensures kind { kind self.new ≡ kind self.old }
        ensures rows { rows self.new ≡ rows self.old }
        ensures answer { IfOk result (λ answer. answer ≡ answer_of (state_at (kind self.old) (rows self.old) place) question) };

    /// The whole content at a place, after so many rows. The rows stay, whatever the answer.
    fn all(&mut self, place: u32) -> Result<Listing, NoMemory>
        requires { place ≤ length (rows self.old) }
        ensures kind { kind self.new ≡ kind self.old }
        ensures rows { rows self.new ≡ rows self.old }
        ensures content { IfOk result (λ listing. listing ≡ content (state_at (kind self.old) (rows self.old) place)) };

    /// The whole content of the present. The rows stay, whatever the answer. Whoever has it at hand gives it without a look
    /// at the past, as `ask_now` does; here it is `all` behind the last row.
    fn list_now(&mut self) -> Result<Listing, NoMemory>
        ensures kind { kind self.new ≡ kind self.old }
        ensures rows { rows self.new ≡ rows self.old }
        ensures content { IfOk result (λ listing. listing ≡ content (present (kind self.old) (rows self.old))) }
    {
        let place = self.len();
        self.all(place)
    }
}
