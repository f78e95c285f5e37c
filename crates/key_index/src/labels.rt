//! A list of labels, as they are before or after a relabelling.

ghost use Rattle.std.specs.Prelude.{◌≡◌, ◌<◌, ◌^◌, [], ◌∷◌, ◌++◌, length, OnOk, OnErr, true};
ghost use Rattle.key_index.specs.Relabelled.{Rise, counterpart, is_in};

use retro_base::NoMemory;
use std::alloc::Global;
use std::marker::Model;

/// A list of labels, as they are before or after a relabelling.
#[derive(Drop)]
pub struct Labels2 {
    labels: Vec<u64>,
}

impl Model for Labels2 {
    ghost use Rattle.std.specs.Prelude.{ℕ, List, length, ◌<◌, ◌^◌};

    ghost Value = { List ℕ };

    ghost view = { λ list. list.labels.items };

    ghost invariant = { λ list. length list.labels.items < 2 ^ 32 };
}

impl Labels2 {
    /// No labels.
    pub fn new(alloc: Global) -> Labels2
        ensures { result ≡ [] }
    {
        Labels2 {
            labels: Vec::new(alloc),
        }
    }

    /// Appends a label. After `NoMemory` the list is as before.
    pub fn push(&mut self, label: u64) -> Result<(), NoMemory>
        requires room { length self.old < 4294967295 }
        ensures ok { OnOk result (self.new ≡ self.old ++ label ∷ []) }
        ensures err { OnErr result (self.new ≡ self.old) }
    {
        self.labels.push(label)?;
        Ok(())
    }

    /// How many labels there are.
    pub fn len(&self) -> u32
        ensures { result ≡ length self.now }
    {
        self.labels.len() as u32
    }

    /// What stands in `fresh` where the label stands in this list.
    pub(crate) fn counterpart(&self, fresh: &Labels2, label: u64) -> u64
        requires rise { Rise self.now }
        requires as_many { length fresh.now ≡ length self.now }
        requires there { is_in self.now label ≡ true }
        ensures { result ≡ counterpart self.now fresh.now label }
    {
        match self.labels.binary_search(&label) {
            Ok(place) => fresh.labels[place],
            Err(_) => unreachable!(),
        }
    }
}
