//! The answers to questions about what the first rows leave.

ghost use Rattle.std.specs.Prelude.{◌≡◌, ◌^◌, ◌<◌, ◌≤◌, length, take, IfOk};
ghost use Rattle.retro_base.specs.declared.question.Item.TheVariants.{Single};
ghost use Rattle.retro_base.specs.declared.question.Question.TheVariants.{Size};
ghost use Rattle.retro_base.specs.Answers.{answer_of, content, number_of};
ghost use Rattle.retro_base.specs.State.{entries};
ghost use Rattle.bridge_pq.specs.Bridged.{AreAdded};
ghost use Rattle.pq_fusion.specs.Searches.{SeeksWithin, WalksWithin};
ghost use Rattle.pq_fusion.specs.EntryCounts.{left_by};

use crate::subtree::Subtree;
use bridge_pq::AddedEntries;
use retro_base::{Answer, Entry, Item, Listing, NoMemory, Question, Steps};
use std::alloc::Global;
use std::sync::ledger::Ledger;

impl Subtree {
    /// The answer of the entries that the first rows leave.
    pub(crate) fn answer<L: Ledger>(
        &self,
        added: &AddedEntries,
        to: u32,
        question: Question,
        steps: &mut Steps<L>,
    ) -> Answer
        requires within { to ≤ length self.now.rows }
        requires added { AreAdded self.now.rows added.now }
        ensures answer { result ≡ answer_of (entries (left_by (take to self.now.rows))) question }
        ensures visits { SeeksWithin self.now.rows steps.old steps.new }
        ensures size_visits { question ≡ Size → WalksWithin self.now.rows steps.old steps.new }
    {
        match question {
            Question::Size => Answer::Number {
                value: i128::from(self.left_len(to, steps)),
            },
            Question::Min => key_answer(self.key_at(added, to, 0, steps)),
            Question::Nth { index } => key_answer(self.key_at(added, to, index, steps)),
            _ => Answer::Nothing,
        }
    }
}

/// The answer that is a key, where there is one.
fn key_answer(key: Option<i64>) -> Answer
    ensures { result ≡ number_of key }
{
    match key {
        Some(key) => Answer::Number {
            value: i128::from(key),
        },
        None => Answer::Nothing,
    }
}

/// The keys of these entries.
pub(crate) fn keys_of(alloc: Global, held: &[Entry]) -> Result<Listing, NoMemory>
    requires { length held.now < 2 ^ 32 }
    ensures { IfOk result (λ listing. listing ≡ content (entries held.now)) }
{
    let mut listing = Listing::new(alloc);
    for entry in held {
        listing.push(Item::Single { value: entry.key })?;
    }
    Ok(listing)
}
