//! The names of the runs, found by labels.

ghost use Rattle.std.specs.Prelude.{◌≡◌, ◌<◌, ◌≤◌, ◌==◌, [], length, slice_get, position, Some, IfSome, IfOk, OnErr};
ghost use Rattle.std.specs.List.{insert, remove, AllByRecursion};
ghost use Rattle.order_timeline.specs.Names.{AreDistinct, AreFiled};
ghost use Rattle.retro_base.specs.Limits.{most_rows};

use crate::run_name::RunName;
use crate::table::Table;
use monoid_laws::Counted;
use order_labels::Labels;
use retro_base::NoMemory;
use std::alloc::Global;
use std::marker::Model;
use weighted_tree::{Tree, uncounted};

/// A list of names that are distinct, each found by the label that stands at its place.
#[derive(Drop)]
pub(crate) struct Names {
    names: Tree<Counted<RunName>>,
    labels: Labels,
    table: Table,
}

impl Model for Names {
    ghost use Rattle.std.specs.Prelude.{List, ℕ};
    ghost use Rattle.order_timeline.specs.Names.{AreFiled};

    ghost Value = { List ℕ };

    ghost view = { λ n. n.names };

    ghost invariant = { λ n. AreFiled n.names n.labels n.table };
}

impl Names {
    pub(crate) fn new(alloc: Global) -> Names
        ensures { result ≡ [] }
    {
        Names {
            names: Tree::new(alloc),
            labels: Labels::new(alloc),
            table: Table::new(alloc),
        }
    }

    pub(crate) fn len(&self) -> u32
        ensures { result ≡ length self.now }
    {
        self.names.len()
    }

    /// The name at a place.
    pub(crate) fn name_at(&self, place: u32) -> RunName
        requires { place < length self.now }
        ensures { slice_get self.now place ≡ Some result }
    {
        uncounted::get(&self.names, place).value()
    }

    /// The place of a name, where there is one.
    pub(crate) fn place_of(&self, name: RunName) -> Option<u32>
        ensures place { result ≡ position (λ other. other == name) self.now }
        ensures within { IfSome result (λ place. place < length self.now) }
    {
        find(&self.names, &self.labels, &self.table, name)
    }

    /// Puts a new name in at a place, and tells it. After `NoMemory` the names are as before.
    pub(crate) fn insert(&mut self, place: u32) -> Result<RunName, NoMemory>
        requires within { place ≤ length self.old }
        requires room { length self.old < most_rows }
        ensures ok { IfOk result (λ name. self.new ≡ insert self.old place name) }
        ensures err { OnErr result (self.new ≡ self.old) }
    {
        insert_name(&mut self.names, &mut self.labels, &mut self.table, place)
    }

    /// Takes the name at a place out.
    pub(crate) fn remove(&mut self, place: u32)
        requires { place < length self.old }
        ensures { self.new ≡ remove self.old place }
    {
        uncounted::remove(&mut self.names, place);
        self.labels.remove(place);
    }
}

fn find(
    names: &Tree<Counted<RunName>>,
    labels: &Labels,
    table: &Table,
    name: RunName,
) -> Option<u32>
    requires { AreFiled names.now labels.now table.now }
    ensures place { result ≡ position (λ other. other == name) names.now }
    ensures within { IfSome result (λ place. place < length names.now) }
{
    let label = table.get(name)?;
    let place = labels.place_of_label(label)?;
    if uncounted::get(names, place).value().number() == name.number() {
        Some(place)
    } else {
        None
    }
}

fn insert_name(
    names: &mut Tree<Counted<RunName>>,
    labels: &mut Labels,
    table: &mut Table,
    place: u32,
) -> Result<RunName, NoMemory>
    requires within { place ≤ length names.old }
    requires room { length names.old < most_rows }
    requires filed { AreFiled names.old labels.old table.old }
    ensures filed { AreFiled names.new labels.new table.new }
    ensures ok { IfOk result (λ name. names.new ≡ insert names.old place name) }
    ensures err { OnErr result (names.new ≡ names.old) }
{
    let name = table.add(0)?;
    uncounted::insert(names, place, Counted::new(name))?;
    match labels.insert(place) {
        Ok(fresh) => {
            if fresh.relabelled {
                file_all(names, labels, table);
                return Ok(name);
            }
            table.set(name, fresh.label);
            Ok(name)
        }
        Err(NoMemory) => {
            uncounted::remove(names, place);
            Err(NoMemory)
        }
    }
}

/// Gives each name the label at its place.
fn file_all(names: &Tree<Counted<RunName>>, labels: &Labels, table: &mut Table)
    requires each { length labels.now ≡ length names.now }
    requires distinct { AreDistinct names.now }
    requires known { AllByRecursion (λ name. name < length table.old) names.now }
    ensures { AreFiled names.now labels.now table.new }
{
    for place in 0..names.len() {
        let name = uncounted::get(names, place).value();
        table.set(name, labels.label_at(place));
    }
}
