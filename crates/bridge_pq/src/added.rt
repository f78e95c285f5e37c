//! All entries that the rows of a queue add, in their order.
ghost use Rattle.std.specs.Prelude.{◌≡◌, ◌<◌, length, slice_get, Some};
ghost use Rattle.costs.specs.Visits.{VisitsWithin};
ghost use Rattle.bridge_pq.specs.Bridged.{AreAdded};

use crate::BridgeQueue;
use crate::marked_entry::MarkedEntry;
use retro_base::{Entry, Steps};
use std::marker::Model;
use std::sync::ledger::Ledger;
use weighted_tree::Tree;

/// The entries that the rows of a queue add, lent in their order, be they in the present or not.
#[derive(Drop)]
pub struct AddedEntries<'a> {
    entries: &'a Tree<MarkedEntry>,
}

impl<'a> Model for AddedEntries<'a> {
    ghost use Rattle.std.specs.Prelude.{List};
    ghost use Rattle.retro_base.specs.declared.row.Entry.{Entry};
    ghost use Rattle.bridge_pq.specs.MarkedEntries.{entries_in};

    ghost Value = { List Entry };

    ghost view = { λ added. entries_in added.entries.now };
}

impl<'a> AddedEntries<'a> {
    /// How many there are.
    pub fn len(&self) -> u32
        ensures { result ≡ length self.now }
    {
        self.entries.len()
    }

    /// The one at a rank.
    pub fn get<L: Ledger>(&self, rank: u32, steps: &mut Steps<L>) -> Entry
        requires { rank < length self.now }
        ensures entry { slice_get self.now rank ≡ Some result }
        ensures visits { VisitsWithin 12 (length self.now) steps.old steps.new }
    {
        self.entries.get(rank, steps).entry
    }
}

impl BridgeQueue {
    /// The entries that the rows add.
    pub fn added(&self) -> AddedEntries<'_>
        ensures { AreAdded self.now result }
    {
        AddedEntries {
            entries: &self.entries,
        }
    }
}
