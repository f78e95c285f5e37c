//! The list of labels, and the label of a row that comes in.

ghost use Rattle.std.specs.Prelude.{◌≡◌, ◌+◌, false, true, ◌<◌, ◌≤◌, ◌==◌, [], length, slice_get, position, Some, IfSome, IfOk, OnOk, OnErr, not};
ghost use Rattle.std.specs.List.{insert, remove};
ghost use Rattle.order_labels.specs.LabelsBeside.{IsBeside};
ghost use Rattle.order_labels.specs.Labels.{AreApart, AreLabels, has_room, inserted, label_before, label_after, label_limit, least_gap};
ghost use Rattle.retro_base.specs.Limits.{most_rows};

use crate::labels_beside::{LabelsBeside, labels_beside};
use crate::spread::{Label, spread};
use retro_base::NoMemory;
use std::alloc::Global;
use std::marker::Model;
use weighted_tree::{Tree, uncounted};

/// A list of labels that rise strictly, each above 0 and below 2^40.
#[derive(Drop)]
pub struct Labels {
    rows: Tree<Label>,
}

impl Model for Labels {
    ghost use Rattle.std.specs.Prelude.{List, ℕ};
    ghost use Rattle.order_labels.specs.Labels.{AreLabels};

    ghost Value = { List ℕ };

    ghost view = { λ labels. labels.rows };

    ghost invariant = { λ labels. AreLabels labels.rows };
}

/// The label of a row that was put in.
#[derive(Clone, Copy, Debug, PartialEq, Eq)]
pub struct Fresh {
    pub label: u64,
    /// Whether the other rows have got new labels too.
    pub relabelled: bool,
}

impl Labels {
    /// No labels.
    pub fn new(alloc: Global) -> Labels
        ensures { result ≡ [] }
    {
        Labels {
            rows: Tree::new(alloc),
        }
    }

    /// How many labels there are.
    pub fn len(&self) -> u32
        ensures length { result ≡ length self.now }
        ensures labels { AreLabels self.now }
    {
        self.rows.len()
    }

    /// Labels a new row at a place. After `NoMemory` all is as before.
    pub fn insert(&mut self, place: u32) -> Result<Fresh, NoMemory>
        requires within { place ≤ length self.old }
        requires room { length self.old < most_rows }
        ensures labels { OnOk result (self.new ≡ inserted self.old place) }
        ensures label { IfOk result (λ fresh. slice_get self.new place ≡ Some fresh.label) }
        ensures relabelled { IfOk result (λ fresh. fresh.relabelled ≡ not (has_room self.old place)) }
        ensures others { IfOk result (λ fresh. fresh.relabelled ≡ false → self.new ≡ insert self.old place fresh.label) }
        ensures apart { IfOk result (λ fresh. fresh.relabelled ≡ true → AreApart least_gap 0 label_limit self.new) }
        ensures length { OnOk result (length self.new ≡ length self.old + 1) }
        ensures err { OnErr result (self.new ≡ self.old) }
    {
        insert_label(&mut self.rows, place)
    }

    /// Gives a new row at a place a label of the caller's choice, between those beside it. After `NoMemory` all is as before.
    pub fn insert_labelled(&mut self, place: u32, label: u64) -> Result<(), NoMemory>
        requires within { place ≤ length self.old }
        requires room { length self.old < most_rows }
        requires above { label_before 0 self.old place < label }
        requires below { label < label_after label_limit self.old place }
        ensures ok { OnOk result (self.new ≡ insert self.old place label) }
        ensures err { OnErr result (self.new ≡ self.old) }
    {
        uncounted::insert(&mut self.rows, place, Label::new(label))
    }

    /// Takes the label at a place out; the others stay.
    pub fn remove(&mut self, place: u32)
        requires { place < length self.old }
        ensures { self.new ≡ remove self.old place }
    {
        uncounted::remove(&mut self.rows, place);
    }

    /// The label at a place.
    pub fn label_at(&self, place: u32) -> u64
        requires { place < length self.now }
        ensures { slice_get self.now place ≡ Some result }
    {
        uncounted::get(&self.rows, place).value()
    }

    /// The labels beside a place.
    pub fn beside(&self, place: u32) -> LabelsBeside
        requires { place ≤ length self.now }
        ensures { IsBeside self.now place result }
    {
        labels_beside(&self.rows, place)
    }

    /// The place of the row with this label, where there is one.
    pub fn place_of_label(&self, label: u64) -> Option<u32>
        ensures place { result ≡ position (λ other. other == label) self.now }
        ensures within { IfSome result (λ place. place < length self.now) }
        ensures labels { AreLabels self.now }
    {
        find(&self.rows, label)
    }
}

fn insert_label(rows: &mut Tree<Label>, place: u32) -> Result<Fresh, NoMemory>
    requires within { place ≤ length rows.old }
    requires room { length rows.old < most_rows }
    requires labels { AreLabels rows.old }
    ensures labels { OnOk result (rows.new ≡ inserted rows.old place) }
    ensures label { IfOk result (λ fresh. slice_get rows.new place ≡ Some fresh.label) }
    ensures relabelled { IfOk result (λ fresh. fresh.relabelled ≡ not (has_room rows.old place)) }
    ensures others { IfOk result (λ fresh. fresh.relabelled ≡ false → rows.new ≡ insert rows.old place fresh.label) }
    ensures apart { IfOk result (λ fresh. fresh.relabelled ≡ true → AreApart least_gap 0 label_limit rows.new) }
    ensures length { OnOk result (length rows.new ≡ length rows.old + 1) }
    ensures err { OnErr result (rows.new ≡ rows.old) }
{
    let LabelsBeside { before, after, .. } = labels_beside(rows, place);
    if after - before >= 2 {
        let label = (before + after) / 2;
        uncounted::insert(rows, place, Label::new(label))?;
        return Ok(Fresh {
            label,
            relabelled: false,
        });
    }
    uncounted::insert(rows, place, Label::new(after))?;
    spread(rows);
    Ok(Fresh {
        label: uncounted::get(rows, place).value(),
        relabelled: true,
    })
}

fn find(rows: &Tree<Label>, label: u64) -> Option<u32>
    requires labels { AreLabels rows.now }
    ensures place { result ≡ position (λ other. other == label) rows.now }
    ensures within { IfSome result (λ place. place < length rows.now) }
{
    let count = uncounted::partition_point(rows, |row: &Label| row.value() <= label);
    if count == 0 {
        return None;
    }
    let place = count - 1;
    if uncounted::get(rows, place).value() == label {
        Some(place)
    } else {
        None
    }
}
