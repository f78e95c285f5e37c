//! A structure with the number of its next row, and steps that are played through it.

ghost use Rattle.std.specs.Prelude.{◌≡◌, ◌≤◌, []};
ghost use Rattle.retro_base.specs.Limits.{most_rows};

use super::listings::{expect_items, expect_values};
use retro_base::{
    Answer, Change, Item, Kind, Listing, MAX_NEXT, MAX_ROWS, NoMemory, Op, PlainList, Question,
    Retro, Row,
};
use std::alloc::Global;
use std::marker::Model;
use std::process::Abort;

/// What is done with a history or asked of it, and what comes of it. It begins with the place, where there is one.
#[derive(Clone, Copy)]
pub(crate) enum Step<'a> {
    /// A row of a time and an operation is put in, and the present changes so.
    Put(u32, u64, Op, Change),
    /// The row goes, which has this number, time and operation, and the present changes so.
    Cut(u32, (u32, u64, Op), Change),
    /// How many rows there are.
    Rows(u32),
    /// Which row fails once a row of the operation is put in.
    FailsWith(u32, Op, Option<u32>),
    /// Which row fails once the row is taken out.
    FailsWithout(u32, Option<u32>),
    /// What is answered of the past.
    Ask(u32, Question, Answer),
    /// What is answered of the present.
    AskNow(Question, Answer),
    /// The content, of any items.
    Items(u32, &'a [Item]),
    /// The content, of single items with these values.
    Values(u32, &'a [i64]),
}

/// A structure whose past can be edited, with the number of the next row. Each call sees first that it may be made.
#[derive(Drop)]
pub(crate) struct History<R: Retro + Drop> {
    structure: R,
    next: u32,
}

impl<R: Retro + Drop> Model for History<R> {
    ghost use Rattle.std.specs.Prelude.{◌<◌, List};
    ghost use Rattle.std.specs.List.{AllByRecursion};
    ghost use Rattle.retro_base.specs.declared.row.Row.{Row};

    ghost Value = { List Row };

    ghost view = { λ h. R.rows h.structure };

    ghost invariant = { λ h. AllByRecursion (λ row. row.number < h.next) (R.rows h.structure) };
}

impl<R: Retro + Drop> History<R> {
    pub(crate) fn new(structure: R) -> History<R>
        requires { R.rows structure ≡ [] }
    {
        History { structure, next: 1 }
    }

    pub(crate) fn len(&self) -> u32
        ensures { result ≤ most_rows }
    {
        self.structure.len()
    }

    pub(crate) fn structure(&self) -> &R {
        &self.structure
    }

    /// Makes the steps one after another, and sees what comes of each.
    pub(crate) fn play(&mut self, rt: &impl Abort, steps: &[Step<'_>]) {
        for step in steps {
            self.perform(rt, *step);
        }
    }

    fn perform(&mut self, rt: &impl Abort, step: Step<'_>) {
        match step {
            Step::Put(place, time, op, change) => {
                assert!(rt; self.put(rt, place, time, op) == change);
            }
            Step::Cut(place, row, change) => {
                let (taken, changed) = self.cut(rt, place);
                assert!(rt; (taken.number, taken.time, taken.op) == row);
                assert!(rt; changed == change);
            }
            Step::Rows(rows) => assert!(rt; self.len() == rows),
            Step::FailsWith(place, op, failing) => {
                assert!(rt; self.failing_with(rt, place, op) == failing);
            }
            Step::FailsWithout(place, failing) => {
                assert!(rt; self.failing_without(rt, place) == failing);
            }
            Step::Ask(place, question, answer) => {
                assert_eq!(rt; self.ask(rt, place, question), answer);
            }
            Step::AskNow(question, answer) => {
                assert_eq!(rt; self.ask_now(rt, question), answer);
            }
            Step::Items(place, items) => expect_items(rt, &self.all(rt, place), items),
            Step::Values(place, values) => expect_values(rt, &self.all(rt, place), values),
        }
    }

    /// The row that fails once a row of the operation is put in.
    fn failing_with(&self, rt: &impl Abort, place: u32, op: Op) -> Option<u32> {
        assert!(rt; place <= self.structure.len());
        assert!(rt; op.kind() == self.structure.kind());
        self.structure.failure_after_insert(place, op)
    }

    /// The row that fails once the row at the place is taken out.
    fn failing_without(&self, rt: &impl Abort, place: u32) -> Option<u32> {
        assert!(rt; place < self.structure.len());
        self.structure.failure_after_remove(place)
    }

    /// Puts a row in that can be performed.
    pub(crate) fn try_put(
        &mut self,
        rt: &impl Abort,
        place: u32,
        time: u64,
        op: Op,
    ) -> Result<Change, NoMemory> {
        let number = self.next;
        assert!(rt; self.structure.len() < MAX_ROWS && number < MAX_NEXT);
        assert!(rt; place <= self.structure.len());
        assert!(rt; op.kind() == self.structure.kind());
        assert!(rt; self.structure.failure_after_insert(place, op) == None);
        let row = Row { number, time, op };
        let change = self.structure.insert(place, row)?;
        self.next = number + 1;
        Ok(change)
    }

    /// Puts a row in that can be performed, where there is memory for it.
    pub(crate) fn put(&mut self, rt: &impl Abort, place: u32, time: u64, op: Op) -> Change {
        self.try_put(rt, place, time, op).expect(rt, "memory")
    }

    /// Takes a row out without which the others can be performed.
    pub(crate) fn cut(&mut self, rt: &impl Abort, place: u32) -> (Row, Change) {
        assert!(rt; place < self.structure.len());
        assert!(rt; self.structure.failure_after_remove(place) == None);
        self.structure.remove(place).expect(rt, "memory")
    }

    /// The answer about the present.
    fn ask_now(&self, rt: &impl Abort, question: Question) -> Answer {
        assert!(rt; question.suits(self.structure.kind()));
        self.structure.ask_now(question)
    }

    /// The answer at a place.
    pub(crate) fn try_ask(
        &mut self,
        rt: &impl Abort,
        place: u32,
        question: Question,
    ) -> Result<Answer, NoMemory> {
        assert!(rt; place <= self.structure.len());
        assert!(rt; question.suits(self.structure.kind()));
        self.structure.ask(place, question)
    }

    /// The answer at a place, where there is memory for it.
    pub(crate) fn ask(&mut self, rt: &impl Abort, place: u32, question: Question) -> Answer {
        self.try_ask(rt, place, question).expect(rt, "memory")
    }

    /// The content at a place.
    fn all(&mut self, rt: &impl Abort, place: u32) -> Listing {
        assert!(rt; place <= self.structure.len());
        self.structure.all(place).expect(rt, "memory")
    }
}

/// Plays the steps through the plain list of the kind, which is the definitions as a program.
pub(crate) fn play_plain(rt: &impl Abort, alloc: Global, kind: Kind, steps: &[Step<'_>]) {
    let mut plain = History::new(PlainList::new(alloc, kind));
    plain.play(rt, steps);
    drop(plain);
}
