//! Rows that are performed as they come, with the state after them.

ghost use Rattle.std.specs.Prelude.{◌≡◌, ◌<◌, [], ◌∷◌, ◌++◌, length, true, is_some, OnOk, OnErr};
ghost use Rattle.retro_base.specs.Kind.{kind_of};
ghost use Rattle.retro_base.specs.Limits.{most_rows};
ghost use Rattle.retro_base.specs.Replay.{present};
ghost use Rattle.retro_base.specs.State.{items, pairs, entries, step};
ghost use Rattle.retro_base.specs.Timeline.{IsFresh, IsReplayable};

use crate::content::Content;
use crate::entries::Entries;
use crate::{Kind, NoMemory, Op, Row, Rows};
use std::alloc::Global;
use std::collections::{BTreeMap, VecDeque};
use std::marker::Model;

/// Rows of a kind that are performed as they come, each at the end, with the state after them. A test of a
/// further row looks at the state alone, so that it costs as little as performing one.
#[derive(Drop)]
pub struct PerformedRows {
    kind: Kind,
    rows: Rows,
    present: Content,
}

impl Model for PerformedRows {
    ghost use Rattle.retro_base.specs.Content.{state_of, RepresentsRows};
    ghost use Rattle.retro_base.specs.Timeline.{Structure};

    ghost Value = { Structure };

    ghost view = { λ p. record { kind = p.kind; rows = p.rows } };

    ghost invariant = { λ p. RepresentsRows p.kind p.rows (state_of p.present) };
}

impl PerformedRows {
    /// No rows, of this kind.
    pub fn new(alloc: Global, kind: Kind) -> PerformedRows
        ensures kind { result.kind ≡ kind }
        ensures rows { result.rows ≡ [] }
    {
        PerformedRows {
            kind,
            rows: Rows::new(alloc),
            present: Content::new(alloc, kind),
        }
    }

    /// The kind.
    pub fn kind(&self) -> Kind
        ensures kind { result ≡ self.now.kind }
        ensures replayable { IsReplayable self.now.kind self.now.rows }
    {
        self.kind
    }

    /// How many rows there are.
    pub fn len(&self) -> u32
        ensures { result ≡ length self.now.rows }
    {
        self.rows.len()
    }

    /// Whether one more row could be performed at the end.
    pub fn can_perform(&self, row: Row) -> bool
        ensures { result ≡ is_some (step row (present self.now.kind self.now.rows)) }
    {
        match &self.present {
            Content::Line(line) => can_perform_on_line(line, row),
            Content::Pairs(held) => can_perform_on_pairs(held, row),
            Content::Entries(held) => can_perform_on_entries(held, row),
        }
    }

    /// Performs one more row, at the end. After `NoMemory` all is as before.
    pub fn append(&mut self, row: Row) -> Result<(), NoMemory>
        requires room { length self.old.rows < most_rows }
        requires fresh { IsFresh row.number self.old.rows }
        requires of_kind { kind_of row.op ≡ self.old.kind }
        requires performs { is_some (step row (present self.old.kind self.old.rows)) ≡ true }
        ensures kind { self.new.kind ≡ self.old.kind }
        ensures rows { OnOk result (self.new.rows ≡ self.old.rows ++ row ∷ []) }
        ensures err { OnErr result (self.new ≡ self.old) }
    {
        self.rows.push(row)?;
        if let Err(error) = self.present.perform(row) {
            self.rows.pop();
            return Err(error);
        }
        Ok(())
    }

    /// The rows.
    pub fn into_rows(self) -> Rows
        ensures rows { result ≡ self.rows }
        ensures replayable { IsReplayable self.kind self.rows }
    {
        self.rows
    }
}

/// Whether a row can be performed on a line of items.
fn can_perform_on_line(line: &VecDeque<i64>, row: Row) -> bool
    ensures { result ≡ is_some (step row (items line.now.items)) }
{
    match row.op {
        Op::Enq { .. } | Op::Push { .. } | Op::PushL { .. } | Op::PushR { .. } => true,
        Op::Deq | Op::Pop | Op::PopL | Op::PopR => !line.is_empty(),
        Op::Put { .. } | Op::Del { .. } | Op::Ins { .. } | Op::DelMin => false,
    }
}

/// Whether a row can be performed on pairs.
fn can_perform_on_pairs(held: &BTreeMap<i64, i64>, row: Row) -> bool
    ensures { result ≡ is_some (step row (pairs held.now.entries)) }
{
    match row.op {
        Op::Put { .. } => true,
        Op::Del { key } => held.contains_key(&key),
        _ => false,
    }
}

/// Whether a row can be performed on entries.
fn can_perform_on_entries(held: &Entries, row: Row) -> bool
    ensures { result ≡ is_some (step row (entries held.now)) }
{
    match row.op {
        Op::Ins { .. } => true,
        Op::DelMin => held.len() != 0,
        _ => false,
    }
}
