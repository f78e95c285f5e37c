//! The type and its calls.

ghost use Rattle.std.specs.Prelude.{◌≡◌, [], length, Some, None, IfNone, IsSome, IfOk, OnOk, OnErr};
ghost use Rattle.retro_base.specs.declared.kind.Kind.TheVariants.{Dict};
ghost use Rattle.retro_base.specs.Kind.{kind_of};
ghost use Rattle.key_index.specs.RowsBeside.{beside, last_up_to};
ghost use Rattle.key_index.specs.KeyRows.{Replays, AreKeyRows, bad_label, bad_with, first_after, key_of, last_before, op_at, with_row, without};
ghost use Rattle.key_index.specs.Relabelled.{Rise, HoldsLabels, relabelled};

use crate::labels::Labels2;
use crate::row::KeyRow;
use crate::rows_beside::{RowsBeside, is_there, taken_at};
use crate::tree::{
    around, beside, first_above, insert_key_row, last_up_to, op_of, relabel, remove_key_row,
};
use retro_base::{NoMemory, Op};
use std::alloc::Global;
use std::marker::Model;
use weighted_tree::Tree;

/// The rows of a dictionary: a list of labels, which rise, and operations.
#[derive(Drop)]
pub struct KeyIndex {
    /// In the order of their keys, and of their labels on each key.
    by_key: Tree<KeyRow>,
}

impl Model for KeyIndex {
    ghost use Rattle.std.specs.Prelude.{List, ℕ};
    ghost use Rattle.retro_base.specs.declared.op.Op.{Op};
    ghost use Rattle.key_index.specs.Ordered.{IsIndex, by_label};

    ghost Value = { List (ℕ × Op) };

    ghost view = { λ index. by_label index.by_key };

    ghost invariant = { λ index. IsIndex index.by_key };
}

/// The first row that fails once a row is put in.
#[derive(Clone, Copy, Debug, PartialEq, Eq)]
pub enum Bad {
    /// The row that is put in.
    Inserted,
    /// The row that is there with this label.
    Present { label: u64 },
}

impl KeyIndex {
    /// No rows.
    pub fn new(alloc: Global) -> KeyIndex
        ensures rows { result ≡ [] }
        ensures replays { Replays result }
    {
        KeyIndex {
            by_key: Tree::new(alloc),
        }
    }

    /// Puts a row in at its label, which no row has. After `NoMemory` all is as before.
    pub fn insert(&mut self, label: u64, op: Op) -> Result<(), NoMemory>
        requires fresh { op_at label self.old ≡ None }
        requires dict { kind_of op ≡ Dict }
        ensures ok { OnOk result (self.new ≡ with_row label op self.old) }
        ensures err { OnErr result (self.new ≡ self.old) }
    {
        self.insert_beside(label, op)?;
        Ok(())
    }

    /// The same, and gives the rows beside the new one on its key.
    pub fn insert_beside(&mut self, label: u64, op: Op) -> Result<RowsBeside, NoMemory>
        requires fresh { op_at label self.old ≡ None }
        requires dict { kind_of op ≡ Dict }
        ensures ok { OnOk result (self.new ≡ with_row label op self.old) }
        ensures beside { IfOk result (λ rows. rows ≡ beside (key_of op) label self.old) }
        ensures err { OnErr result (self.new ≡ self.old) }
    {
        insert_key_row(&mut self.by_key, label, op)
    }

    /// Takes the row with a label out, and gives its operation, where there is one.
    pub fn remove(&mut self, label: u64) -> Option<Op>
        ensures found { result ≡ op_at label self.old }
        ensures rows { self.new ≡ without label self.old }
        ensures listed { AreKeyRows self.old }
    {
        let op = op_of(&self.by_key, label)?;
        remove_key_row(&mut self.by_key, label, op);
        Some(op)
    }

    /// Takes the row with a label out, where its operation is known.
    pub fn remove_row(&mut self, label: u64, op: Op)
        requires there { op_at label self.old ≡ Some op }
        ensures { self.new ≡ without label self.old }
    {
        remove_key_row(&mut self.by_key, label, op);
    }

    /// The last row on a key below a label.
    pub fn before(&self, key: i64, label: u64) -> Option<(u64, Op)>
        ensures { result ≡ last_before key label self.now }
    {
        self.beside(key, label).before
    }

    /// The last row on a key up to a label.
    pub fn last_up_to(&self, key: i64, label: u64) -> Option<(u64, Op)>
        ensures { result ≡ last_up_to key label self.now }
    {
        last_up_to(&self.by_key, key, label)
    }

    /// The rows on a key next to a label.
    pub fn beside(&self, key: i64, label: u64) -> RowsBeside
        ensures { result ≡ beside key label self.now }
    {
        beside(&self.by_key, key, label)
    }

    /// The first row on a key above a label, where the one below it is not asked for.
    pub fn after(&self, key: i64, label: u64) -> Option<(u64, Op)>
        ensures { result ≡ first_after key label self.now }
    {
        first_above(&self.by_key, key, label)
    }

    /// The first row that fails once a row is put in right after all rows whose label is at most `behind`.
    pub fn bad_after_insert(&self, behind: u64, op: Op) -> Option<Bad>
        requires replays { Replays self.now }
        requires dict { kind_of op ≡ Dict }
        ensures bad { result ≡ bad_with behind op self.now }
        ensures good { IfNone result (Replays (with_row behind op self.now)) }
    {
        match op {
            Op::Del { key } => {
                let rows = around(&self.by_key, key, behind);
                if !is_there(rows.before) {
                    return Some(Bad::Inserted);
                }
                match taken_at(rows.after) {
                    Some(label) => Some(Bad::Present { label }),
                    None => None,
                }
            }
            _ => None,
        }
    }

    /// The label of the first row that fails once the row with this label is taken out.
    pub fn bad_after_remove(&self, label: u64) -> Option<u64>
        requires replays { Replays self.now }
        requires there { IsSome (op_at label self.now) }
        ensures bad { result ≡ bad_label (without label self.now) }
        ensures good { IfNone result (Replays (without label self.now)) }
    {
        match op_of(&self.by_key, label) {
            Some(op) => self.bad_without(label, op),
            None => None,
        }
    }

    /// The same, where the operation of the row is known.
    pub fn bad_without(&self, label: u64, op: Op) -> Option<u64>
        requires replays { Replays self.now }
        requires there { op_at label self.now ≡ Some op }
        ensures bad { result ≡ bad_label (without label self.now) }
        ensures good { IfNone result (Replays (without label self.now)) }
    {
        match op {
            Op::Put { key, .. } => {
                let rows = beside(&self.by_key, key, label);
                if is_there(rows.before) {
                    return None;
                }
                taken_at(rows.after)
            }
            _ => None,
        }
    }

    /// Gives each row the label that stands in `fresh` where its own stands in `former`.
    pub fn relabel(&mut self, former: &Labels2, fresh: &Labels2)
        requires former { Rise former.now }
        requires fresh { Rise fresh.now }
        requires as_many { length fresh.now ≡ length former.now }
        requires all { HoldsLabels former.now self.old }
        ensures { self.new ≡ relabelled former.now fresh.now self.old }
    {
        relabel(&mut self.by_key, former, fresh);
    }
}
