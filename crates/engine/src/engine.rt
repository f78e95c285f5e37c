//! The structure of any kind.

ghost use Rattle.std.specs.Prelude.{◌≡◌, ◌+◌, ◌*◌, ◌<◌, ◌≤◌, [], length, slice_get, true, false, Some, IsOk, IfOk, OnOk, OnErr};
ghost use Rattle.std.specs.List.{insert, remove};
ghost use Rattle.retro_base.specs.declared.kind.Kind.TheVariants.{Pq};
ghost use Rattle.retro_base.specs.declared.question.Question.TheVariants.{Size};
ghost use Rattle.retro_base.specs.Answers.{answer_of, content};
ghost use Rattle.retro_base.specs.Changes.{IsChange};
ghost use Rattle.retro_base.specs.Edits.{add, cut};
ghost use Rattle.retro_base.specs.Questions.{suits};
ghost use Rattle.retro_base.specs.Replay.{IsValid, present, state_at};
ghost use Rattle.retro_base.specs.Timeline.{IsReplayable};
ghost use Rattle.costs.specs.Visits.{OpensCounter, VisitsWithin};
ghost use Rattle.checkpoint_full.specs.Rule.{FollowsRule};
ghost use Rattle.pq_fusion.specs.Searches.{AskedWithin, SizedWithin};
ghost use Rattle.engine.specs.Engine.{kind_inside, rows_inside, is_line, is_pq, is_fused, made_inside, seen_inside, width_inside, IsAsked, KeepsStructure};

use bridge_pq::BridgeQueue;
use checkpoint_full::Full;
use pq_fusion::FusedQueue;
use retro_base::{
    Answer, AnyStructure, Change, Kind, Listing, NoMemory, Op, Question, Retro, Row, Steps,
};
use retro_deque::RetroDeque;
use retro_dictionary::RetroDictionary;
use retro_queue::RetroQueue;
use retro_stack::RetroStack;
use std::alloc::Global;
use std::marker::Brand;
use std::sync::ledger::{Blank, Ledger};

/// The structure of a kind; a priority queue has two. No call changes the variant.
#[derive(Drop)]
pub enum Engine {
    Queue { inner: RetroQueue },
    Stack { inner: RetroStack },
    Deque { inner: RetroDeque },
    Dict { inner: RetroDictionary },
    /// A priority queue whose past is asked by checkpoints.
    Pq { inner: Full<BridgeQueue> },
    /// A priority queue whose past is one product.
    Fused { inner: FusedQueue },
}

impl Engine {
    /// An empty structure of the kind; of a priority queue that by checkpoints.
    pub fn new(alloc: Global, kind: Kind) -> Engine
        ensures kind { kind_inside result ≡ kind }
        ensures rows { rows_inside result ≡ [] }
        ensures unfused { is_fused result ≡ false }
    {
        match kind {
            Kind::Queue => Engine::Queue {
                inner: RetroQueue::new(alloc),
            },
            Kind::Stack => Engine::Stack {
                inner: RetroStack::new(alloc),
            },
            Kind::Deque => Engine::Deque {
                inner: RetroDeque::new(alloc),
            },
            Kind::Dict => Engine::Dict {
                inner: RetroDictionary::new(alloc),
            },
            Kind::Pq => Engine::Pq {
                inner: Full::new(alloc, BridgeQueue::new(alloc)),
            },
        }
    }

    /// An empty priority queue whose past is one product.
    pub fn fused(alloc: Global) -> Engine
        ensures kind { kind_inside result ≡ Pq }
        ensures rows { rows_inside result ≡ [] }
        ensures fused { is_fused result ≡ true }
    {
        Engine::Fused {
            inner: FusedQueue::new(alloc),
        }
    }

    /// The answer to a question about the state at a place, after so many rows. The rows stay, whatever the answer.
    ///
    /// A queue, a stack and a deque visit at most 36 nodes for each binary digit of one more than the number of rows, and
    /// always answer. A priority queue whose checkpoints were made visits at most 432 for each row of their width and one
    /// more, and each digit. The first question about its past makes them, and no question moves them or their width. A fused
    /// priority queue visits at most 4 for each of these digits and 4 more, and each pair of digits, and where the size is asked 4
    /// for each of them and 1 more, and each digit; it always answers. Of a dictionary no bound is stated.
    pub fn ask_past<L: Ledger>(
        &mut self,
        place: u32,
        question: Question,
        steps: &mut Steps<L>,
    ) -> Result<Answer, NoMemory>
        requires within { place ≤ length (rows_inside self.old) }
        requires suited { suits question (kind_inside self.old) ≡ true }
        ensures asked { IsAsked self.old (answer_of (state_at (kind_inside self.old) (rows_inside self.old) place) question) result self.new }
        ensures line { is_line self.old ≡ true → IsOk result }
        ensures line_visits { is_line self.old ≡ true → VisitsWithin 36 (length (rows_inside self.old)) steps.old steps.new }
        ensures fused { is_fused self.old ≡ true → IsOk result }
        ensures fused_visits { is_fused self.old ≡ true → AskedWithin (length (rows_inside self.old)) steps.old steps.new }
        ensures fused_size { is_fused self.old ≡ true → question ≡ Size → SizedWithin (length (rows_inside self.old)) steps.old steps.new }
        ensures visits { made_inside self.old ≡ true → VisitsWithin (432 * (width_inside self.old + 1)) (length (rows_inside self.old)) steps.old steps.new }
    {
        match self {
            Engine::Queue { inner } => Ok(inner.ask_past(place, question, steps)),
            Engine::Stack { inner } => Ok(inner.ask_past(place, question, steps)),
            Engine::Deque { inner } => Ok(inner.ask_past(place, question, steps)),
            Engine::Dict { inner } => inner.ask(place, question),
            Engine::Pq { inner } => inner.ask_past(place, question, steps),
            Engine::Fused { inner } => Ok(inner.ask_past(place, question, steps)),
        }
    }

    /// `ask_past` with a counter of its own.
    fn ask_uncounted<L: Ledger>(
        &mut self,
        place: u32,
        question: Question,
        blank: Blank,
    ) -> Result<Answer, NoMemory>
        requires within { place ≤ length (rows_inside self.old) }
        requires suited { suits question (kind_inside self.old) ≡ true }
        requires counter { OpensCounter blank.name L.name blank.parts L.parts }
        ensures asked { IsAsked self.old (answer_of (state_at (kind_inside self.old) (rows_inside self.old) place) question) result self.new }
    {
        let mut steps = Steps::<L>::new(blank);
        self.ask_past(place, question, &mut steps)
    }
}

impl AnyStructure for Engine {
    ghost is_fused = { is_fused };

    fn empty(alloc: Global, kind: Kind, fused: bool) -> Engine {
        if fused {
            Engine::fused(alloc)
        } else {
            Engine::new(alloc, kind)
        }
    }
}

impl Retro for Engine {
    ghost kind = { kind_inside };

    ghost rows = { rows_inside };

    fn kind(&self) -> Kind {
        match self {
            Engine::Queue { inner } => inner.kind(),
            Engine::Stack { inner } => inner.kind(),
            Engine::Deque { inner } => inner.kind(),
            Engine::Dict { inner } => inner.kind(),
            Engine::Pq { inner } => inner.kind(),
            Engine::Fused { inner } => inner.kind(),
        }
    }

    fn len(&self) -> u32 {
        match self {
            Engine::Queue { inner } => inner.len(),
            Engine::Stack { inner } => inner.len(),
            Engine::Deque { inner } => inner.len(),
            Engine::Dict { inner } => inner.len(),
            Engine::Pq { inner } => inner.len(),
            Engine::Fused { inner } => inner.len(),
        }
    }

    fn failure_after_insert(&self, place: u32, op: Op) -> Option<u32> {
        match self {
            Engine::Queue { inner } => inner.failure_after_insert(place, op),
            Engine::Stack { inner } => inner.failure_after_insert(place, op),
            Engine::Deque { inner } => inner.failure_after_insert(place, op),
            Engine::Dict { inner } => inner.failure_after_insert(place, op),
            Engine::Pq { inner } => inner.failure_after_insert(place, op),
            Engine::Fused { inner } => inner.failure_after_insert(place, op),
        }
    }

    fn failure_after_remove(&self, place: u32) -> Option<u32> {
        match self {
            Engine::Queue { inner } => inner.failure_after_remove(place),
            Engine::Stack { inner } => inner.failure_after_remove(place),
            Engine::Deque { inner } => inner.failure_after_remove(place),
            Engine::Dict { inner } => inner.failure_after_remove(place),
            Engine::Pq { inner } => inner.failure_after_remove(place),
            Engine::Fused { inner } => inner.failure_after_remove(place),
        }
    }

    fn insert(&mut self, place: u32, row: Row) -> Result<Change, NoMemory>
        requires within { place ≤ length (rows_inside self.old) }
        requires replayable { IsReplayable (kind_inside self.old) (insert (rows_inside self.old) place row) }
        ensures keeps { KeepsStructure self.old self.new }
        ensures rows { OnOk result (rows_inside self.new ≡ insert (rows_inside self.old) place row) }
        ensures replayable { OnOk result (IsReplayable (kind_inside self.new) (rows_inside self.new)) }
        ensures change { IfOk result (IsChange (kind_inside self.old) (rows_inside self.old) (add place row)) }
        ensures rule { is_pq self.old ≡ true → OnOk result (FollowsRule (seen_inside self.old) (add place row) (seen_inside self.new)) }
        ensures err { OnErr result (self.new ≡ self.old) }
    {
        match self {
            Engine::Queue { inner } => inner.insert(place, row),
            Engine::Stack { inner } => inner.insert(place, row),
            Engine::Deque { inner } => inner.insert(place, row),
            Engine::Dict { inner } => inner.insert(place, row),
            Engine::Pq { inner } => inner.insert(place, row),
            Engine::Fused { inner } => inner.insert(place, row),
        }
    }

    /// Of a queue, a stack, a deque and a priority queue by checkpoints it never answers `NoMemory`.
    fn remove(&mut self, place: u32) -> Result<(Row, Change), NoMemory>
        requires within { place < length (rows_inside self.old) }
        requires replays { IsValid (kind_inside self.old) (remove (rows_inside self.old) place) }
        ensures keeps { KeepsStructure self.old self.new }
        ensures row { IfOk result (λ taken. slice_get (rows_inside self.old) place ≡ Some taken.0) }
        ensures rows { OnOk result (rows_inside self.new ≡ remove (rows_inside self.old) place) }
        ensures replayable { OnOk result (IsReplayable (kind_inside self.new) (rows_inside self.new)) }
        ensures change { IfOk result (λ taken. IsChange (kind_inside self.old) (rows_inside self.old) (cut place taken.0) taken.1) }
        ensures rule { is_pq self.old ≡ true → IfOk result (λ taken. FollowsRule (seen_inside self.old) (cut place taken.0) (seen_inside self.new)) }
        ensures line_succeeds { is_line self.old ≡ true → IsOk result }
        ensures pq_succeeds { is_pq self.old ≡ true → IsOk result }
        ensures err { OnErr result (self.new ≡ self.old) }
    {
        match self {
            Engine::Queue { inner } => inner.remove(place),
            Engine::Stack { inner } => inner.remove(place),
            Engine::Deque { inner } => inner.remove(place),
            Engine::Dict { inner } => inner.remove(place),
            Engine::Pq { inner } => inner.remove(place),
            Engine::Fused { inner } => inner.remove(place),
        }
    }

    fn ask_now(&self, question: Question) -> Answer {
        match self {
            Engine::Queue { inner } => inner.ask_now(question),
            Engine::Stack { inner } => inner.ask_now(question),
            Engine::Deque { inner } => inner.ask_now(question),
            Engine::Dict { inner } => inner.ask_now(question),
            Engine::Pq { inner } => inner.ask_now(question),
            Engine::Fused { inner } => inner.ask_now(question),
        }
    }

    fn ask(&mut self, place: u32, question: Question) -> Result<Answer, NoMemory>
        requires within { place ≤ length (rows_inside self.old) }
        requires suited { suits question (kind_inside self.old) ≡ true }
        ensures asked { IsAsked self.old (answer_of (state_at (kind_inside self.old) (rows_inside self.old) place) question) result self.new }
    {
        self.ask_uncounted::<Brand>(place, question, Blank::new(1))
    }

    fn all(&mut self, place: u32) -> Result<Listing, NoMemory>
        requires { place ≤ length (rows_inside self.old) }
        ensures asked { IsAsked self.old (content (state_at (kind_inside self.old) (rows_inside self.old) place)) result self.new }
    {
        match self {
            Engine::Queue { inner } => inner.all(place),
            Engine::Stack { inner } => inner.all(place),
            Engine::Deque { inner } => inner.all(place),
            Engine::Dict { inner } => inner.all(place),
            Engine::Pq { inner } => inner.all(place),
            Engine::Fused { inner } => inner.all(place),
        }
    }

    /// No question about the present makes checkpoints.
    fn list_now(&mut self) -> Result<Listing, NoMemory>
        ensures kind { kind_inside self.new ≡ kind_inside self.old }
        ensures variant { is_fused self.new ≡ is_fused self.old }
        ensures rows { rows_inside self.new ≡ rows_inside self.old }
        ensures content { IfOk result (λ listing. listing ≡ content (present (kind_inside self.old) (rows_inside self.old))) }
        ensures unmade { seen_inside self.new ≡ seen_inside self.old }
    {
        match self {
            Engine::Queue { inner } => inner.list_now(),
            Engine::Stack { inner } => inner.list_now(),
            Engine::Deque { inner } => inner.list_now(),
            Engine::Dict { inner } => inner.list_now(),
            Engine::Pq { inner } => inner.list_now(),
            Engine::Fused { inner } => inner.list_now(),
        }
    }
}
