//! What a structure of any kind holds after some rows, performed one after another.

ghost use Rattle.std.specs.Prelude.{◌≡◌, ◌^◌, ◌<◌, length, Some, None, Ok, IsSome, IfOk, OnOk, OnErr};
ghost use Rattle.std.specs.Result.{result_err};
ghost use Rattle.retro_base.specs.Content.{state_of};
ghost use Rattle.retro_base.specs.State.{empty, step};
ghost use Rattle.retro_base.specs.Replay.{run};
ghost use Rattle.retro_base.specs.Answers.{answer_of, content};

use crate::entries::{Entries, answer_from_entries, listing_of_entries, perform_on_entries};
use crate::line::{answer_from_line, listing_of_line, perform_on_line};
use crate::pairs::{answer_from_pairs, listing_of_pairs, perform_on_pairs};
use crate::{Answer, Kind, Listing, NoMemory, Question, Row};
use std::alloc::Global;
use std::collections::{BTreeMap, VecDeque};

/// What a structure holds after some rows.
#[derive(Drop)]
pub(crate) enum Content {
    /// The items of a queue from the front, of a stack from the top, of a deque from the left.
    Line(VecDeque<i64>),
    /// The pairs of a dictionary.
    Pairs(BTreeMap<i64, i64>),
    /// The entries of a priority queue.
    Entries(Entries),
}

impl Content {
    /// What a structure of the kind holds before its first row.
    pub(crate) fn new(alloc: Global, kind: Kind) -> Content
        ensures { state_of result ≡ empty kind }
    {
        match kind {
            Kind::Queue | Kind::Stack | Kind::Deque => Content::Line(VecDeque::new(alloc)),
            Kind::Dict => Content::Pairs(BTreeMap::new(alloc)),
            Kind::Pq => Content::Entries(Entries::new(alloc)),
        }
    }

    /// Performs one more row. After `NoMemory` all is as before.
    pub(crate) fn perform(&mut self, row: Row) -> Result<(), NoMemory>
        requires { IsSome (step row (state_of self.old)) }
        ensures ok { OnOk result (step row (state_of self.old) ≡ Some (state_of self.new)) }
        ensures err { OnErr result (state_of self.new ≡ state_of self.old) }
    {
        match self {
            Content::Line(line) => perform_on_line(line, row),
            Content::Pairs(pairs) => perform_on_pairs(pairs, row),
            Content::Entries(held) => perform_on_entries(held, row),
        }
    }

    /// Performs these rows, one after another. After `NoMemory` some of them are performed.
    pub(crate) fn perform_all(&mut self, rows: &[Row]) -> Result<(), NoMemory>
        requires { result_err (run rows.now (state_of self.old)) ≡ None }
        ensures { OnOk result (run rows.now (state_of self.old) ≡ Ok (state_of self.new)) }
    {
        for row in rows {
            self.perform(*row)?;
        }
        Ok(())
    }

    /// The answer to a question.
    pub(crate) fn answer(&self, question: Question) -> Answer
        ensures { result ≡ answer_of (state_of self.now) question }
    {
        match self {
            Content::Line(line) => answer_from_line(line, question),
            Content::Pairs(pairs) => answer_from_pairs(pairs, question),
            Content::Entries(held) => answer_from_entries(held, question),
        }
    }

    /// All that is held.
    pub(crate) fn listing(&self, alloc: Global) -> Result<Listing, NoMemory>
        requires { length (content (state_of self.now)) < 2 ^ 32 }
        ensures { IfOk result (λ listing. listing ≡ content (state_of self.now)) }
    {
        match self {
            Content::Line(line) => listing_of_line(alloc, line),
            Content::Pairs(pairs) => listing_of_pairs(alloc, pairs),
            Content::Entries(held) => listing_of_entries(alloc, held),
        }
    }
}
