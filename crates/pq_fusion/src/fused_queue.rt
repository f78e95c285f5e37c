//! The queue: the tree of rows, and a `BridgeQueue` of the same rows beside it.

ghost use Rattle.std.specs.Prelude.{◌≡◌, ℕ, ◌+◌, ◌*◌, ◌^◌, ◌<◌, ◌≤◌, [], length, slice_get, true, Some, IfOk, OnOk, OnErr};
ghost use Rattle.std.specs.List.{insert, remove, slice_range};
ghost use Rattle.retro_base.specs.declared.kind.Kind.TheVariants.{Pq};
ghost use Rattle.retro_base.specs.declared.question.Question.TheVariants.{Size};
ghost use Rattle.retro_base.specs.Answers.{answer_of, content};
ghost use Rattle.retro_base.specs.BridgeTable.{added};
ghost use Rattle.retro_base.specs.Changes.{IsChange};
ghost use Rattle.costs.specs.Digits.{digits};
ghost use Rattle.retro_base.specs.Edits.{add, cut};
ghost use Rattle.retro_base.specs.Limits.{most_rows};
ghost use Rattle.retro_base.specs.Questions.{suits};
ghost use Rattle.retro_base.specs.Replay.{IsValid, state_at};
ghost use Rattle.retro_base.specs.State.{entries};
ghost use Rattle.retro_base.specs.Timeline.{IsReplayable};
ghost use Rattle.costs.specs.Visits.{OpensCounter};
ghost use Rattle.pq_fusion.specs.Pieces.{tolerant};
ghost use Rattle.pq_fusion.specs.Searches.{AskedWithin, EditedWithin, SizedWithin};
ghost use Rattle.pq_fusion.specs.Wear.{unworn};
ghost use Rattle.pq_fusion.specs.WearLevels.{AnewOnLevels, AnewWithin};

use crate::answer::keys_of;
use crate::row_edit::{RowEdit, Way};
use crate::subtree::Subtree;
use crate::{Anew, Piece};
use bridge_pq::BridgeQueue;
use retro_base::{
    Answer, Change, Entry, Kind, Listing, NoMemory, Op, Partial, Question, Retro, Row, Steps,
    uncounted,
};
use std::alloc::Global;
use std::marker::{Brand, Model};
use std::sync::ledger::{Blank, Ledger};

/// A priority queue whose whole past is one product of pieces. Contracts see its rows, and the wear of the tree of these.
#[derive(Drop)]
pub struct FusedQueue {
    alloc: Global,
    queue: BridgeQueue,
    rows: Subtree,
}

impl Model for FusedQueue {
    ghost use Rattle.std.specs.Prelude.{◌≡◌};
    ghost use Rattle.pq_fusion.specs.Wear.{WornRows};

    ghost Value = { WornRows };

    ghost view = { λ fused. record { rows = fused.queue; wear = fused.rows.wear } };

    ghost invariant = { λ fused. fused.rows.rows ≡ fused.queue };
}

impl FusedQueue {
    /// A queue with no rows; their memory will be that of `alloc`.
    pub fn new(alloc: Global) -> FusedQueue
        ensures { result ≡ unworn [] }
    {
        FusedQueue {
            alloc,
            queue: BridgeQueue::new(alloc),
            rows: Subtree::new(),
        }
    }

    /// What the rows from `from` to before `to` come to.
    pub fn piece(&self, from: u32, to: u32) -> Result<Piece, NoMemory>
        requires order { from ≤ to }
        requires within { to ≤ length self.now.rows }
        ensures { IfOk result (λ piece. piece ≡ tolerant (slice_range self.now.rows from to)) }
    {
        self.rows.piece(self.alloc, from, to)
    }

    /// How many entries there are in all pieces of the tree of rows: one for each row that adds and each run or pair that it stands in. A
    /// run has no more than 64 rows, so the tree has many levels: whatever number of them is named, each row that adds counts as often, but
    /// for at most 16 entries times 2 to the power of that number.
    pub fn stored(&self) -> u64
        ensures least { length (added self.now.rows) ≤ result }
        ensures most { result ≤ 3 * length self.now.rows * digits (length self.now.rows + 1) }
        ensures levels { (levels : ℕ) → levels * length (added self.now.rows) ≤ result + 16 * 2 ^ levels }
        ensures entries { result ≤ 3 * length (added self.now.rows) * digits (length self.now.rows + 1) }
    {
        self.rows.stored()
    }

    /// The answer to a question about the state at a place, after so many rows. No piece is made, so it takes no memory. With d digits of one
    /// more than the length it visits at most 4 nodes, rows and entries for each of d and 4 more, and each pair of digits; where the size is
    /// asked, 4 for each of d and 1 more, and each digit.
    pub fn ask_past<L: Ledger>(
        &self,
        place: u32,
        question: Question,
        steps: &mut Steps<L>,
    ) -> Answer
        requires within { place ≤ length self.now.rows }
        requires suited { suits question Pq ≡ true }
        ensures answer { result ≡ answer_of (state_at Pq self.now.rows place) question }
        ensures visits { AskedWithin (length self.now.rows) steps.old steps.new }
        ensures size_visits { question ≡ Size → SizedWithin (length self.now.rows) steps.old steps.new }
    {
        let _replayable = self.queue.kind();
        self.rows
            .answer(&self.queue.added(), place, question, steps)
    }

    /// The answer to a question about the state at a place, for a caller that counts nothing.
    pub fn answer_at(&self, place: u32, question: Question) -> Answer
        requires within { place ≤ length self.now.rows }
        requires suited { suits question Pq ≡ true }
        ensures { result ≡ answer_of (state_at Pq self.now.rows place) question }
    {
        self.answer_with::<Brand>(place, question, Blank::new(1))
    }

    fn answer_with<L: Ledger>(&self, place: u32, question: Question, blank: Blank) -> Answer
        requires within { place ≤ length self.now.rows }
        requires suited { suits question Pq ≡ true }
        requires counter { OpensCounter blank.name L.name blank.parts L.parts }
        ensures { result ≡ answer_of (state_at Pq self.now.rows place) question }
    {
        let mut steps = Steps::<L>::new(blank);
        self.ask_past(place, question, &mut steps)
    }

    /// Puts the row in, as `insert` of `Retro`, and counts its visits and the rows that come into a run that is made anew. After
    /// `NoMemory` all is as before.
    pub fn insert_counted<L: Ledger, M: Ledger>(
        &mut self,
        place: u32,
        row: Row,
        steps: &mut Steps<L>,
        anew: &mut Anew<M>,
    ) -> Result<Change, NoMemory>
        requires within { place ≤ length self.old.rows }
        requires replayable { IsReplayable Pq (insert self.old.rows place row) }
        ensures rows { OnOk result (self.new.rows ≡ insert self.old.rows place row) }
        ensures replayable { OnOk result (IsReplayable Pq self.new.rows) }
        ensures change { IfOk result (IsChange Pq self.old.rows (add place row)) }
        ensures err { OnErr result (self.new ≡ self.old) }
        ensures rare { OnOk result (AnewWithin self.old self.new anew.old anew.new) }
        ensures none_lost { anew.old ≤ anew.new }
        ensures visits { EditedWithin (length self.old.rows + 1) steps.old steps.new }
    {
        insert_into_both(
            self.alloc,
            &mut self.queue,
            &mut self.rows,
            place,
            row,
            steps,
            anew,
        )
    }

    /// Takes the row at the place out, as `remove` of `Retro`, and counts its visits and the rows that come into a run that is made anew.
    /// After `NoMemory` all is as before.
    pub fn remove_counted<L: Ledger, M: Ledger>(
        &mut self,
        place: u32,
        steps: &mut Steps<L>,
        anew: &mut Anew<M>,
    ) -> Result<(Row, Change), NoMemory>
        requires within { place < length self.old.rows }
        requires replays { IsValid Pq (remove self.old.rows place) }
        ensures row { IfOk result (λ taken. slice_get self.old.rows place ≡ Some taken.0) }
        ensures rows { OnOk result (self.new.rows ≡ remove self.old.rows place) }
        ensures replayable { OnOk result (IsReplayable Pq self.new.rows) }
        ensures change { IfOk result (λ taken. IsChange Pq self.old.rows (cut place taken.0) taken.1) }
        ensures err { OnErr result (self.new ≡ self.old) }
        ensures rare { OnOk result (AnewWithin self.old self.new anew.old anew.new) }
        ensures none_lost { anew.old ≤ anew.new }
        ensures visits { EditedWithin (length self.old.rows) steps.old steps.new }
    {
        let _few = self.queue.len();
        let row = self.rows.row_at(place, steps);
        let way = Way::Cut;
        let edit = RowEdit { way, place, row };
        self.rows.edit(self.alloc, edit, steps, anew)?;
        Ok(self.queue.remove(place, steps))
    }

    /// `insert_counted` with counters of its own.
    fn insert_uncounted<L: Ledger, M: Ledger>(
        &mut self,
        place: u32,
        row: Row,
        visits: Blank,
        anew: Blank,
    ) -> Result<Change, NoMemory>
        requires within { place ≤ length self.old.rows }
        requires replayable { IsReplayable Pq (insert self.old.rows place row) }
        requires visits { OpensCounter visits.name L.name visits.parts L.parts }
        requires anew { OpensCounter anew.name M.name anew.parts M.parts }
        ensures rows { OnOk result (self.new.rows ≡ insert self.old.rows place row) }
        ensures replayable { OnOk result (IsReplayable Pq self.new.rows) }
        ensures change { IfOk result (IsChange Pq self.old.rows (add place row)) }
        ensures err { OnErr result (self.new ≡ self.old) }
    {
        let mut steps = Steps::<L>::new(visits);
        let mut anew = Anew::<M>::new(anew);
        self.insert_counted(place, row, &mut steps, &mut anew)
    }

    /// `remove_counted` with counters of its own.
    fn remove_uncounted<L: Ledger, M: Ledger>(
        &mut self,
        place: u32,
        visits: Blank,
        anew: Blank,
    ) -> Result<(Row, Change), NoMemory>
        requires within { place < length self.old.rows }
        requires replays { IsValid Pq (remove self.old.rows place) }
        requires visits { OpensCounter visits.name L.name visits.parts L.parts }
        requires anew { OpensCounter anew.name M.name anew.parts M.parts }
        ensures row { IfOk result (λ taken. slice_get self.old.rows place ≡ Some taken.0) }
        ensures rows { OnOk result (self.new.rows ≡ remove self.old.rows place) }
        ensures replayable { OnOk result (IsReplayable Pq self.new.rows) }
        ensures change { IfOk result (λ taken. IsChange Pq self.old.rows (cut place taken.0) taken.1) }
        ensures err { OnErr result (self.new ≡ self.old) }
    {
        let mut steps = Steps::<L>::new(visits);
        let mut anew = Anew::<M>::new(anew);
        self.remove_counted(place, &mut steps, &mut anew)
    }

    /// The entries that the first rows leave, which are the state after them.
    fn remaining(&self, place: u32) -> Result<Vec<Entry>, NoMemory>
        requires { place ≤ length self.now.rows }
        ensures state { IfOk result (λ left. state_at Pq self.now.rows place ≡ entries left.items) }
        ensures few { IfOk result (λ left. length left.items ≤ most_rows) }
    {
        let _replayable = self.queue.kind();
        self.rows.remaining(self.alloc, place)
    }
}

impl Retro for FusedQueue {
    ghost kind = { λ _. Pq };

    ghost rows = { λ fused. fused.rows };

    fn kind(&self) -> Kind {
        self.queue.kind()
    }

    fn len(&self) -> u32 {
        self.queue.len()
    }

    fn failure_after_insert(&self, place: u32, op: Op) -> Option<u32> {
        uncounted::failure_after_insert(&self.queue, place, op)
    }

    fn failure_after_remove(&self, place: u32) -> Option<u32> {
        uncounted::failure_after_remove(&self.queue, place)
    }

    fn insert(&mut self, place: u32, row: Row) -> Result<Change, NoMemory>
        requires within { place ≤ length self.old.rows }
        requires replayable { IsReplayable Pq (insert self.old.rows place row) }
        ensures rows { OnOk result (self.new.rows ≡ insert self.old.rows place row) }
        ensures replayable { OnOk result (IsReplayable Pq self.new.rows) }
        ensures change { IfOk result (IsChange Pq self.old.rows (add place row)) }
        ensures err { OnErr result (self.new ≡ self.old) }
    {
        self.insert_uncounted::<Brand, Brand>(place, row, Blank::new(1), Blank::new(1))
    }

    fn remove(&mut self, place: u32) -> Result<(Row, Change), NoMemory>
        requires within { place < length self.old.rows }
        requires replays { IsValid Pq (remove self.old.rows place) }
        ensures row { IfOk result (λ taken. slice_get self.old.rows place ≡ Some taken.0) }
        ensures rows { OnOk result (self.new.rows ≡ remove self.old.rows place) }
        ensures replayable { OnOk result (IsReplayable Pq self.new.rows) }
        ensures change { IfOk result (λ taken. IsChange Pq self.old.rows (cut place taken.0) taken.1) }
        ensures err { OnErr result (self.new ≡ self.old) }
    {
        self.remove_uncounted::<Brand, Brand>(place, Blank::new(1), Blank::new(1))
    }

    fn ask_now(&self, question: Question) -> Answer {
        uncounted::ask_now(&self.queue, question)
    }

    fn ask(&mut self, place: u32, question: Question) -> Result<Answer, NoMemory> {
        Ok(self.answer_at(place, question))
    }

    fn all(&mut self, place: u32) -> Result<Listing, NoMemory>
        requires { place ≤ length self.old.rows }
        ensures unchanged { self.new ≡ self.old }
        ensures content { IfOk result (λ listing. listing ≡ content (state_at Pq self.old.rows place)) }
    {
        let left = self.remaining(place)?;
        keys_of(self.alloc, left.as_slice())
    }
}

/// Puts a row into a queue and into the tree of its rows. Where the tree has no memory for it, it is taken out of the queue
/// again, which takes none.
fn insert_into_both<L: Ledger, M: Ledger>(
    alloc: Global,
    queue: &mut BridgeQueue,
    rows: &mut Subtree,
    place: u32,
    row: Row,
    steps: &mut Steps<L>,
    anew: &mut Anew<M>,
) -> Result<Change, NoMemory>
    requires same { rows.old.rows ≡ queue.old }
    requires within { place ≤ length queue.old }
    requires replayable { IsReplayable Pq (insert queue.old place row) }
    ensures rows { OnOk result (queue.new ≡ insert queue.old place row) }
    ensures replayable { OnOk result (IsReplayable Pq queue.new) }
    ensures change { IfOk result (IsChange Pq queue.old (add place row)) }
    ensures err { OnErr result (queue.new ≡ queue.old) }
    ensures tree { OnErr result (rows.new ≡ rows.old) }
    ensures same { rows.new.rows ≡ queue.new }
    ensures rare { OnOk result (AnewOnLevels rows.old rows.new anew.old anew.new) }
    ensures none_lost { anew.old ≤ anew.new }
    ensures visits { EditedWithin (length queue.old + 1) steps.old steps.new }
{
    let _replayable = queue.kind();
    let change = queue.insert(place, row, steps)?;
    let way = Way::Put;
    let edit = RowEdit { way, place, row };
    if let Err(error) = rows.edit(alloc, edit, steps, anew) {
        queue.remove(place, steps);
        return Err(error);
    }
    Ok(change)
}
