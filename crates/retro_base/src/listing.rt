//! The whole content of a structure, as it is listed.

ghost use Rattle.std.specs.Prelude.{◌≡◌, ◌-◌, ◌^◌, ◌<◌, [], ◌∷◌, ◌++◌, length, slice_get, Some, OnOk, OnErr};

use crate::{Item, NoMemory};
use std::alloc::Global;
use std::marker::Model;

/// The whole content of a structure, which contracts see as the list of its items: those of a queue
/// from the front, of a stack from the top, of a deque from the left, and keys rising.
#[derive(Debug, Drop)]
pub struct Listing {
    items: Vec<Item>,
}

impl Model for Listing {
    ghost use Rattle.std.specs.Prelude.{List, ◌<◌, ◌^◌, length};
    ghost use Rattle.retro_base.specs.declared.question.Item.{Item};

    ghost Value = { List Item };

    ghost view = { λ listing. listing.items.items };

    ghost invariant = { λ listing. length listing.items.items < 2 ^ 32 };
}

impl Listing {
    /// A listing of nothing.
    pub fn new(alloc: Global) -> Listing
        ensures { result ≡ [] }
    {
        Listing {
            items: Vec::new(alloc),
        }
    }

    /// Appends an item. Without memory for it the listing stays as it was.
    pub fn push(&mut self, item: Item) -> Result<(), NoMemory>
        requires { length self.old < 2 ^ 32 - 1 }
        ensures ok { OnOk result (self.new ≡ self.old ++ item ∷ []) }
        ensures err { OnErr result (self.new ≡ self.old) }
    {
        self.items.push(item)?;
        Ok(())
    }

    /// How many items there are.
    pub fn len(&self) -> u32
        ensures { result ≡ length self.now }
    {
        self.items.len() as u32
    }

    /// The item at this index.
    pub fn item(&self, index: u32) -> Item
        requires { index < length self.now }
        ensures { slice_get self.now index ≡ Some result }
    {
        self.items[index as usize]
    }
}
