//! The plain, slow structure, which replays its rows.

ghost use Rattle.std.specs.Prelude.{◌≡◌, ◌<◌, ◌≤◌, [], ◌∷◌, ◌++◌, length, slice_get, Some, Ok, IfOk, OnOk, OnErr};
ghost use Rattle.std.specs.List.{insert, remove};
ghost use Rattle.retro_base.specs.declared.row.Row.{Row};
ghost use Rattle.retro_base.specs.Changes.{IsChange};
ghost use Rattle.retro_base.specs.Content.{state_of, RepresentsRows};
ghost use Rattle.retro_base.specs.Edits.{add, cut};
ghost use Rattle.retro_base.specs.Timeline.{IsReplayable};
ghost use Rattle.retro_base.specs.State.{empty};
ghost use Rattle.retro_base.specs.Replay.{run, IsValid};

use crate::bridge_search::{change_with, change_without};
use crate::content::Content;
use crate::counting::{first_failure_with, first_failure_without};
use crate::{Answer, Change, Kind, Listing, NoMemory, Op, Question, Retro, Row};
use std::alloc::Global;
use std::marker::Model;

/// What a structure of the kind holds after these rows.
fn replayed(alloc: Global, kind: Kind, rows: &[Row]) -> Result<Content, NoMemory>
    requires { IsValid kind rows.now }
    ensures { IfOk result (λ content. run rows.now (empty kind) ≡ Ok (state_of content)) }
{
    let mut content = Content::new(alloc, kind);
    content.perform_all(rows)?;
    Ok(content)
}

/// What a structure of the kind holds after these rows, were the row at the place taken out.
fn replayed_without(
    alloc: Global,
    kind: Kind,
    rows: &[Row],
    place: usize,
) -> Result<Content, NoMemory>
    requires within { place < length rows.now }
    requires valid { IsValid kind (remove rows.now place) }
    ensures { IfOk result (λ content. run (remove rows.now place) (empty kind) ≡ Ok (state_of content)) }
{
    let mut content = Content::new(alloc, kind);
    let (before, _) = rows.split_at(place);
    let (_, after) = rows.split_at(place + 1);
    content.perform_all(before)?;
    content.perform_all(after)?;
    Ok(content)
}

/// Performs one more row at the end. After `NoMemory` all is as before.
fn append(kind: Kind, rows: &mut Vec<Row>, present: &mut Content, row: Row) -> Result<(), NoMemory>
    requires kept { run rows.old.items (empty kind) ≡ Ok (state_of present.old) }
    requires valid { IsValid kind (rows.old.items ++ row ∷ []) }
    ensures rows { OnOk result (rows.new.items ≡ rows.old.items ++ row ∷ []) }
    ensures kept { OnOk result (run (rows.old.items ++ row ∷ []) (empty kind) ≡ Ok (state_of present.new)) }
    ensures err { OnErr result ((rows.new.items ≡ rows.old.items) × (state_of present.new ≡ state_of present.old)) }
{
    rows.reserve(1)?;
    present.perform(row)?;
    rows.push_reserved(row);
    Ok(())
}

/// Puts a row in at a place and performs all rows again. After `NoMemory` all is as before.
fn insert_and_replay(
    alloc: Global,
    kind: Kind,
    rows: &mut Vec<Row>,
    present: &mut Content,
    place: usize,
    row: Row,
) -> Result<(), NoMemory>
    requires within { place ≤ length rows.old.items }
    requires valid { IsValid kind (insert rows.old.items place row) }
    ensures rows { OnOk result (rows.new.items ≡ insert rows.old.items place row) }
    ensures kept { OnOk result (run (insert rows.old.items place row) (empty kind) ≡ Ok (state_of present.new)) }
    ensures err { OnErr result ((rows.new.items ≡ rows.old.items) × (present.new ≡ present.old)) }
{
    rows.insert(place, row)?;
    match replayed(alloc, kind, rows.as_slice()) {
        Ok(state) => {
            *present = state;
            Ok(())
        }
        Err(error) => {
            rows.remove(place);
            Err(error)
        }
    }
}

/// Puts a row in at a place, and performs it at the end or all rows again. After `NoMemory` all is as
/// before.
fn put_in(
    alloc: Global,
    kind: Kind,
    rows: &mut Vec<Row>,
    present: &mut Content,
    place: usize,
    row: Row,
) -> Result<(), NoMemory>
    requires kept { run rows.old.items (empty kind) ≡ Ok (state_of present.old) }
    requires within { place ≤ length rows.old.items }
    requires valid { IsValid kind (insert rows.old.items place row) }
    ensures rows { OnOk result (rows.new.items ≡ insert rows.old.items place row) }
    ensures kept { OnOk result (run (insert rows.old.items place row) (empty kind) ≡ Ok (state_of present.new)) }
    ensures err { OnErr result ((rows.new.items ≡ rows.old.items) × (state_of present.new ≡ state_of present.old)) }
{
    if place == rows.len() {
        append(kind, rows, present, row)
    } else {
        insert_and_replay(alloc, kind, rows, present, place, row)
    }
}

/// Takes the row at a place out, having performed all others again. After `NoMemory` all is as before.
fn remove_and_replay(
    alloc: Global,
    kind: Kind,
    rows: &mut Vec<Row>,
    present: &mut Content,
    place: usize,
) -> Result<Row, NoMemory>
    requires within { place < length rows.old.items }
    requires valid { IsValid kind (remove rows.old.items place) }
    ensures row { IfOk result (λ row. slice_get rows.old.items place ≡ Some row) }
    ensures rows { OnOk result (rows.new.items ≡ remove rows.old.items place) }
    ensures kept { OnOk result (run (remove rows.old.items place) (empty kind) ≡ Ok (state_of present.new)) }
    ensures err { OnErr result ((rows.new.items ≡ rows.old.items) × (present.new ≡ present.old)) }
{
    *present = replayed_without(alloc, kind, rows.as_slice(), place)?;
    Ok(rows.remove(place))
}

/// What changes in the present where a row is put in.
fn change_of_insert(kind: Kind, rows: &[Row], present: &Content, place: usize, row: Row) -> Change
    requires kept { RepresentsRows kind rows.now (state_of present.now) }
    requires within { place ≤ length rows.now }
    requires replayable { IsReplayable kind (insert rows.now place row) }
    ensures { IsChange kind rows.now (add place row) result }
{
    match present {
        Content::Entries(alive) => match change_with(alive, rows, place, row) {
            Some(change) => change,
            None => unreachable!(),
        },
        Content::Line(_) | Content::Pairs(_) => Change::Plain,
    }
}

/// What changes in the present where the row at a place is taken out.
fn change_of_remove(kind: Kind, rows: &[Row], present: &Content, place: usize) -> Change
    requires kept { RepresentsRows kind rows.now (state_of present.now) }
    requires within { place < length rows.now }
    requires replays { IsValid kind (remove rows.now place) }
    ensures { (row : Row) → slice_get rows.now place ≡ Some row
        → IsChange kind rows.now (cut place row) result }
{
    match present {
        Content::Entries(alive) => match change_without(alive, rows, place, rows[place]) {
            Some(change) => change,
            None => unreachable!(),
        },
        Content::Line(_) | Content::Pairs(_) => Change::Plain,
    }
}

/// A list of rows with the present state beside it: the plain program whose contract is the
/// definition, and with which every faster structure is compared.
///
/// A question about the present looks at the kept state, and a row that is put in at the end is
/// performed on it. An edit of the past, and a question about it, perform the rows again. What an
/// edit changes in a priority queue is found before it, in one pass over the rows.
#[derive(Drop)]
pub struct PlainList {
    alloc: Global,
    kind: Kind,
    rows: Vec<Row>,
    present: Content,
}

impl Model for PlainList {
    ghost use Rattle.retro_base.specs.Content.{state_of, RepresentsRows};
    ghost use Rattle.retro_base.specs.Timeline.{Structure};

    ghost Value = { Structure };

    ghost view = { λ p. record { kind = p.kind; rows = p.rows.items } };

    ghost invariant = { λ p. RepresentsRows p.kind p.rows.items (state_of p.present) };
}

impl PlainList {
    /// An empty structure of the kind.
    pub fn new(alloc: Global, kind: Kind) -> PlainList
        ensures kind { result.kind ≡ kind }
        ensures rows { result.rows ≡ [] }
    {
        PlainList {
            alloc,
            kind,
            rows: Vec::new(alloc),
            present: Content::new(alloc, kind),
        }
    }
}

impl Retro for PlainList {
    ghost kind = { λ p. p.kind };

    ghost rows = { λ p. p.rows };

    fn kind(&self) -> Kind {
        self.kind
    }

    fn len(&self) -> u32 {
        self.rows.len() as u32
    }

    fn failure_after_insert(&self, place: u32, op: Op) -> Option<u32> {
        first_failure_with(self.rows.as_slice(), place as usize, op)
    }

    fn failure_after_remove(&self, place: u32) -> Option<u32> {
        first_failure_without(self.rows.as_slice(), place as usize)
    }

    fn insert(&mut self, place: u32, row: Row) -> Result<Change, NoMemory> {
        let place = place as usize;
        let change = change_of_insert(self.kind, self.rows.as_slice(), &self.present, place, row);
        put_in(
            self.alloc,
            self.kind,
            &mut self.rows,
            &mut self.present,
            place,
            row,
        )?;
        Ok(change)
    }

    fn remove(&mut self, place: u32) -> Result<(Row, Change), NoMemory> {
        let place = place as usize;
        let change = change_of_remove(self.kind, self.rows.as_slice(), &self.present, place);
        let row = remove_and_replay(
            self.alloc,
            self.kind,
            &mut self.rows,
            &mut self.present,
            place,
        )?;
        Ok((row, change))
    }

    fn ask_now(&self, question: Question) -> Answer {
        self.present.answer(question)
    }

    fn ask(&mut self, place: u32, question: Question) -> Result<Answer, NoMemory> {
        let place = place as usize;
        if place == self.rows.len() {
            return Ok(self.present.answer(question));
        }
        let (before, _) = self.rows.as_slice().split_at(place);
        let state = replayed(self.alloc, self.kind, before)?;
        Ok(state.answer(question))
    }

    fn all(&mut self, place: u32) -> Result<Listing, NoMemory> {
        let place = place as usize;
        if place == self.rows.len() {
            return self.present.listing(self.alloc);
        }
        let (before, _) = self.rows.as_slice().split_at(place);
        let state = replayed(self.alloc, self.kind, before)?;
        state.listing(self.alloc)
    }
}
