//! Entries that came in since an earlier queue, the least of them on top.
ghost use Rattle.std.specs.Prelude.{◌≡◌, [], length, slice_get, OnOk, OnErr};
ghost use Rattle.retro_base.specs.EntriesInOrder.{AreInOrder};
ghost use Rattle.retro_base.specs.State.{with_entry};
ghost use Rattle.bridge_pq.specs.Gathered.{IsTaken};

use retro_base::{Entry, NoMemory};
use std::alloc::Global;
use std::cmp::Reverse;
use std::collections::BinaryHeap;
use std::marker::Model;

/// Entries in a heap, which contracts see in their order.
#[derive(Drop)]
pub(crate) struct Fresh {
    heap: BinaryHeap<Reverse<Entry>>,
}

impl Model for Fresh {
    ghost use Rattle.std.specs.Prelude.{List};
    ghost use Rattle.std.specs.BinaryHeap.{heap_items, IsHeap};
    ghost use Rattle.retro_base.specs.declared.row.Entry.{Entry};
    ghost use Rattle.bridge_pq.specs.Heaps.{in_heap, reverse_order};

    ghost Value = { List Entry };

    ghost view = { λ f. in_heap (heap_items f.heap) };

    ghost invariant = { λ f. IsHeap reverse_order (heap_items f.heap) };
}

impl Fresh {
    /// No entries; their memory will be that of `alloc`.
    pub(crate) fn new(alloc: Global) -> Fresh
        ensures { result ≡ [] }
    {
        Fresh {
            heap: BinaryHeap::new(alloc),
        }
    }

    /// How many entries there are.
    pub(crate) fn len(&self) -> u64
        ensures { result ≡ length self.now }
    {
        self.heap.as_slice().len() as u64
    }

    /// The least entry, where there is one.
    pub(crate) fn least(&self) -> Option<Entry>
        ensures least { result ≡ slice_get self.now 0 }
        ensures order { AreInOrder self.now }
    {
        // Its clause says how long the list of items is.
        let _items = self.heap.as_slice();
        Some(self.heap.peek()?.0)
    }

    /// Puts one more entry in. After `NoMemory` all is as before.
    pub(crate) fn put(&mut self, entry: Entry) -> Result<(), NoMemory>
        ensures ok { OnOk result (self.new ≡ with_entry entry self.old) }
        ensures err { OnErr result (self.new ≡ self.old) }
    {
        self.heap.push(Reverse(entry))?;
        Ok(())
    }

    /// Takes the least entry, where there is one.
    pub(crate) fn take(&mut self) -> Option<Entry>
        ensures { IsTaken self.old result self.new }
    {
        // Its clause says how long the list of items is.
        let _items = self.heap.as_slice();
        Some(self.heap.pop()?.0)
    }
}
