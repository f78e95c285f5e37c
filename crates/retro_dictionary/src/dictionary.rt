//! The type and its calls.

ghost use Rattle.std.specs.Prelude.{◌≡◌, ◌≤◌, [], length};
ghost use Rattle.retro_base.specs.declared.kind.Kind.TheVariants.{Dict};
ghost use Rattle.retro_base.specs.Answers.{answer_of};
ghost use Rattle.retro_base.specs.Replay.{state_at};

use crate::asked::{answer_from, found_at, number_of, range_of, value_at};
use crate::edit::{put, remove_row_at};
use crate::failing::{place_of_bad, place_of_bad_label};
use crate::free_label::label_before;
use crate::labelled_rows::LabelledRows;
use crate::listed::list_at;
use crate::recent::recent_beside;
use retro_base::{Answer, Change, Kind, Listing, NoMemory, Op, Question, Retro, Row};
use std::alloc::Global;
use std::marker::Model;
use weighted_tree::uncounted;

/// A dictionary whose past can be edited, which contracts see as its rows.
#[derive(Drop)]
pub struct RetroDictionary {
    kept: LabelledRows,
}

impl Model for RetroDictionary {
    ghost use Rattle.std.specs.Prelude.{List};
    ghost use Rattle.retro_base.specs.declared.row.Row.{Row};
    ghost use Rattle.retro_dictionary.specs.Ready.{IsLabelled};

    ghost Value = { List Row };

    ghost view = { λ dictionary. dictionary.kept.rows };

    ghost invariant = { λ dictionary. IsLabelled dictionary.kept };
}

impl RetroDictionary {
    /// A dictionary with no rows; their memory will be that of `alloc`.
    pub fn new(alloc: Global) -> RetroDictionary
        ensures { result ≡ [] }
    {
        RetroDictionary {
            kept: LabelledRows::new(alloc),
        }
    }

    /// The answer to a question about the state at a place, after so many rows.
    fn answer_at(&self, place: u32, question: Question) -> Answer
        requires within { place ≤ length self.now }
        ensures { result ≡ answer_of (state_at Dict self.now place) question }
    {
        if let Question::Get { key } = question {
            return number_of(value_at(&self.kept.labels, &self.kept.index, place, key));
        }
        let found = found_at(
            &self.kept.labels,
            &self.kept.segments,
            place,
            range_of(question),
        );
        answer_from(question, &found)
    }
}

impl Retro for RetroDictionary {
    ghost use Rattle.retro_base.specs.declared.kind.Kind.TheVariants.{Dict};

    ghost kind = { λ dictionary. Dict };

    ghost rows = { λ dictionary. dictionary };

    fn kind(&self) -> Kind {
        let _ = &self.kept.rows;
        Kind::Dict
    }

    fn len(&self) -> u32 {
        self.kept.rows.len()
    }

    fn failure_after_insert(&self, place: u32, op: Op) -> Option<u32> {
        let after = label_before(&self.kept.labels, place);
        place_of_bad(
            &self.kept.labels,
            place,
            self.kept.index.bad_after_insert(after, op),
        )
    }

    fn failure_after_remove(&self, place: u32) -> Option<u32> {
        let label = self.kept.labels.label_at(place);
        let op = uncounted::get(&self.kept.rows, place).value().op();
        place_of_bad_label(
            &self.kept.labels,
            place,
            self.kept.index.bad_without(label, op),
        )
    }

    fn insert(&mut self, place: u32, row: Row) -> Result<Change, NoMemory> {
        let recent = recent_beside(&self.kept.rows, place, row.number);
        put(&mut self.kept, place, row, recent)?;
        Ok(Change::Plain)
    }

    fn remove(&mut self, place: u32) -> Result<(Row, Change), NoMemory> {
        let row = remove_row_at(&mut self.kept, place)?;
        Ok((row, Change::Plain))
    }

    fn ask_now(&self, question: Question) -> Answer {
        self.answer_at(self.kept.rows.len(), question)
    }

    fn ask(&mut self, place: u32, question: Question) -> Result<Answer, NoMemory> {
        Ok(self.answer_at(place, question))
    }

    fn all(&mut self, place: u32) -> Result<Listing, NoMemory> {
        list_at(
            &self.kept.labels,
            &self.kept.segments,
            place,
            self.kept.rows.alloc(),
        )
    }
}
