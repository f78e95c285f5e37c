//! The label of each name.

ghost use Rattle.std.specs.Prelude.{◌≡◌, ◌<◌, [], ◌∷◌, ◌++◌, length, slice_get, slice_set, IfOk, OnOk, OnErr};

use crate::run_name::RunName;
use retro_base::NoMemory;
use std::alloc::Global;
use std::marker::Model;

/// The label of each name. Names are numbers from 0 on.
#[derive(Drop)]
pub(crate) struct Table {
    labels: Vec<u64>,
}

impl Model for Table {
    ghost use Rattle.std.specs.Prelude.{List, ℕ, ◌<◌, ◌^◌, length};

    ghost Value = { List ℕ };

    ghost view = { λ table. table.labels.items };

    ghost invariant = { λ table. length table.labels.items < 2 ^ 32 };
}

impl Table {
    pub(crate) fn new(alloc: Global) -> Table
        ensures { result ≡ [] }
    {
        Table {
            labels: Vec::new(alloc),
        }
    }

    /// A new name, with this label.
    pub(crate) fn add(&mut self, label: u64) -> Result<RunName, NoMemory>
        ensures name { IfOk result (λ name. name ≡ length self.old) }
        ensures ok { OnOk result (self.new ≡ self.old ++ label ∷ []) }
        ensures err { OnErr result (self.new ≡ self.old) }
    {
        let name = self.labels.len() as u32;
        if name == u32::MAX {
            return Err(NoMemory);
        }
        self.labels.push(label)?;
        Ok(RunName::new(name))
    }

    /// The label of a name, where there is one.
    pub(crate) fn get(&self, name: RunName) -> Option<u64>
        ensures { result ≡ slice_get self.now name }
    {
        self.labels.get(name.number() as usize).copied()
    }

    /// Gives a name another label.
    pub(crate) fn set(&mut self, name: RunName, label: u64)
        requires { name < length self.old }
        ensures { self.new ≡ slice_set self.old name label }
    {
        self.labels[name.number() as usize] = label;
    }
}
