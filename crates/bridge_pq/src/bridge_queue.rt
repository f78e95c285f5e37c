//! The type and its calls.

ghost use Rattle.std.specs.Prelude.{◌≡◌, [], IfOk};
ghost use Rattle.std.specs.Option.{option_map};
ghost use Rattle.retro_base.specs.declared.kind.Kind.TheVariants.{Pq};
ghost use Rattle.retro_base.specs.declared.row.Row.{Row};
ghost use Rattle.retro_base.specs.Answers.{number_of, key_of, content};
ghost use Rattle.retro_base.specs.Replay.{present};
ghost use Rattle.costs.specs.Visits.{OpensCounter};

use crate::edit::{insert_adding, insert_taking, remove_dead, remove_survivor, remove_taking};
use crate::entry_tree::{nth_present, size_of_present};
use crate::failure::{failure_after_take, failure_without_dead};
use crate::later::{ask_held, list_held};
use crate::marked_entry::MarkedEntry;
use crate::marked_row::MarkedRow;
use retro_base::{
    Answer, Change, Entry, Item, Kind, Listing, NoMemory, Op, Partial, Question, Row, Steps,
};
use std::alloc::Global;
use std::marker::{Brand, Model};
use std::sync::ledger::{Blank, Ledger};
use weighted_tree::Tree;

/// A priority queue whose past can be edited, which contracts see as its rows.
#[derive(Drop)]
pub struct BridgeQueue {
    rows: Tree<MarkedRow>,
    pub(crate) entries: Tree<MarkedEntry>,
}

impl Model for BridgeQueue {
    ghost use Rattle.std.specs.Prelude.{List};
    ghost use Rattle.retro_base.specs.declared.row.Row.{Row};
    ghost use Rattle.bridge_pq.specs.MarkedRows.{rows_of};
    ghost use Rattle.bridge_pq.specs.Bridged.{IsBridged};

    ghost Value = { List Row };

    ghost view = { λ queue. rows_of queue.rows };

    ghost invariant = { λ queue. IsBridged queue.rows queue.entries };
}

impl BridgeQueue {
    /// A queue with no rows; their memory will be that of `alloc`.
    pub fn new(alloc: Global) -> BridgeQueue
        ensures { result ≡ [] }
    {
        BridgeQueue {
            rows: Tree::new(alloc),
            entries: Tree::new(alloc),
        }
    }
}

impl BridgeQueue {
    /// The keys of the present, with a counter of its own.
    fn listed<L: Ledger>(&self, blank: Blank) -> Result<Listing, NoMemory>
        requires counter { OpensCounter blank.name L.name blank.parts L.parts }
        ensures { IfOk result (λ listing. listing ≡ content (present Pq self.now)) }
    {
        let mut steps = Steps::<L>::new(blank);
        let mut listing = Listing::new(self.entries.alloc());
        for place in 0..self.entries.len() {
            let item = self.entries.get(place, &mut steps);
            if item.present {
                listing.push(Item::Single {
                    value: item.entry.key,
                })?;
            }
        }
        Ok(listing)
    }

    /// The same queue once more, with a counter of its own.
    fn copied<L: Ledger>(&self, blank: Blank) -> Result<BridgeQueue, NoMemory>
        requires counter { OpensCounter blank.name L.name blank.parts L.parts }
        ensures { IfOk result (λ copy. copy ≡ self.now) }
    {
        let mut steps = Steps::<L>::new(blank);
        let rows = self.rows.copy(&mut steps)?;
        let entries = self.entries.copy(&mut steps)?;
        Ok(BridgeQueue { rows, entries })
    }
}

impl Partial for BridgeQueue {
    ghost kind = { λ _. Pq };

    ghost rows = { λ queue. queue };

    fn kind(&self) -> Kind {
        // Its clause says that the rows are few.
        let _few = self.rows.len();
        Kind::Pq
    }

    fn len(&self) -> u32 {
        self.rows.len()
    }

    fn row_at<L: Ledger>(&self, place: u32, steps: &mut Steps<L>) -> Row {
        self.rows.get(place, steps).row.row()
    }

    fn failure_after_insert<L: Ledger>(
        &self,
        place: u32,
        op: Op,
        steps: &mut Steps<L>,
    ) -> Option<u32> {
        let rows = &self.rows;
        match op {
            Op::DelMin => failure_after_take(rows, place, steps),
            _ => None,
        }
    }

    fn failure_after_remove<L: Ledger>(&self, place: u32, steps: &mut Steps<L>) -> Option<u32> {
        let rows = &self.rows;
        let item = rows.get(place, steps);
        match item.row.added_entry() {
            Some(own) if !item.survives => failure_without_dead(rows, place, own, steps),
            _ => None,
        }
    }

    fn insert<L: Ledger>(
        &mut self,
        place: u32,
        row: Row,
        steps: &mut Steps<L>,
    ) -> Result<Change, NoMemory> {
        let (rows, entries) = (&mut self.rows, &mut self.entries);
        match row.added_entry() {
            Some(new) => insert_adding(rows, entries, place, row, new, steps),
            None => insert_taking(rows, entries, place, row, steps),
        }
    }

    fn remove<L: Ledger>(&mut self, place: u32, steps: &mut Steps<L>) -> (Row, Change) {
        let item = self.rows.get(place, steps);
        let row = item.row.row();
        let (rows, entries) = (&mut self.rows, &mut self.entries);
        let change = match row.added_entry() {
            Some(own) if item.survives => remove_survivor(rows, entries, place, row, own, steps),
            Some(own) => remove_dead(rows, entries, place, row, own, steps),
            None => remove_taking(rows, entries, place, row, steps),
        };
        (row, change)
    }

    fn ask_now<L: Ledger>(&self, question: Question, steps: &mut Steps<L>) -> Answer {
        match question {
            Question::Size => Answer::Number {
                value: size_of_present(&self.entries, steps),
            },
            Question::Min => key_answer(nth_present(&self.entries, 0, steps)),
            Question::Nth { index } => key_answer(nth_present(&self.entries, index, steps)),
            _ => Answer::Nothing,
        }
    }

    fn ask_after<L: Ledger>(
        &self,
        later: &BridgeQueue,
        place: u32,
        question: Question,
        steps: &mut Steps<L>,
    ) -> Result<Answer, NoMemory> {
        if place == self.len() {
            return Ok(self.ask_now(question, steps));
        }
        ask_held(
            &self.entries,
            &later.rows,
            self.len(),
            place,
            question,
            steps,
        )
    }

    fn list_after<L: Ledger>(
        &self,
        later: &BridgeQueue,
        place: u32,
        steps: &mut Steps<L>,
    ) -> Result<Listing, NoMemory> {
        list_held(&self.entries, &later.rows, self.len(), place, steps)
    }

    fn all_now(&self) -> Result<Listing, NoMemory> {
        self.listed::<Brand>(Blank::new(1))
    }

    fn copy(&self) -> Result<BridgeQueue, NoMemory> {
        self.copied::<Brand>(Blank::new(1))
    }
}

/// The answer that is the key of an entry, where there is one.
pub(crate) fn key_answer(entry: Option<Entry>) -> Answer
    ensures { result ≡ number_of (option_map key_of entry) }
{
    match entry {
        Some(entry) => Answer::Number {
            value: i128::from(entry.key),
        },
        None => Answer::Nothing,
    }
}
