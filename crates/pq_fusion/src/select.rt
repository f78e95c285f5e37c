//! The key at an index of what the first rows leave, by walks that make no product.

ghost use Rattle.std.specs.Prelude.{◌≡◌, ◌+◌, ◌≤◌, length, slice_get, take};
ghost use Rattle.std.specs.Option.{option_map};
ghost use Rattle.retro_base.specs.Answers.{key_of};
ghost use Rattle.retro_base.specs.Limits.{most_rows};
ghost use Rattle.bridge_pq.specs.Bridged.{AreAdded};
ghost use Rattle.pq_fusion.specs.Searches.{SearchesPiece, SeeksWithin, WalksWithin};
ghost use Rattle.pq_fusion.specs.EntryCounts.{LeadsCounts, counts_of, left_by};

use crate::entry_counts::EntryCounts;
use crate::root::Root;
use crate::subtree::Subtree;
use bridge_pq::AddedEntries;
use retro_base::{Entry, Steps};
use std::sync::ledger::Ledger;

impl Subtree {
    /// The counts of what is left after the first rows, where `before` has those of what is left before them.
    fn counts<L: Ledger>(
        &self,
        to: u32,
        bound: Entry,
        before: EntryCounts,
        steps: &mut Steps<L>,
    ) -> EntryCounts
        requires within { to ≤ length self.now.rows }
        requires few { before.left + length self.now.rows ≤ most_rows }
        ensures counts { LeadsCounts bound before (take to self.now.rows) result }
        ensures few { result.left ≤ before.left + to }
        ensures whole { to ≡ length self.now.rows → SearchesPiece 1 (length self.now.rows) steps.old steps.new }
        ensures visits { WalksWithin self.now.rows steps.old steps.new }
    {
        steps.tick();
        if to == self.len() {
            return match self.node_piece() {
                None => before,
                Some(piece) => before.after_piece(bound, piece, steps),
            };
        }
        match self.root() {
            Root::Nothing => before,
            Root::Run(run) => {
                let (first, _) = run.rows.as_slice().split_at(to as usize);
                before.after_rows(bound, first, steps)
            }
            Root::Pair(pair) => {
                let own = pair.earlier.len();
                if to <= own {
                    return pair.earlier.counts(to, bound, before, steps);
                }
                let first = pair.earlier.counts(own, bound, before, steps);
                pair.later.counts(to - own, bound, first, steps)
            }
        }
    }

    /// The counts of what the first rows leave.
    fn counts_at<L: Ledger>(&self, to: u32, bound: Entry, steps: &mut Steps<L>) -> EntryCounts
        requires { to ≤ length self.now.rows }
        ensures counts { result ≡ counts_of bound (left_by (take to self.now.rows)) }
        ensures few { result.left ≤ most_rows }
        ensures visits { WalksWithin self.now.rows steps.old steps.new }
    {
        let _few = self.len();
        let none = EntryCounts {
            left: 0,
            reaching: 0,
        };
        self.counts(to, bound, none, steps)
    }

    /// How many entries the first rows leave.
    pub(crate) fn left_len<L: Ledger>(&self, to: u32, steps: &mut Steps<L>) -> u32
        requires { to ≤ length self.now.rows }
        ensures count { result ≡ length (left_by (take to self.now.rows)) }
        ensures few { result ≤ most_rows }
        ensures visits { WalksWithin self.now.rows steps.old steps.new }
    {
        let bound = Entry { key: 0, number: 0 };
        self.counts_at(to, bound, steps).left
    }

    /// The key of the entry at an index of what the first rows leave, where there is one. It is the last of all entries that rows
    /// add before which no more are left than the index says, and is sought among these by halves.
    pub(crate) fn key_at<L: Ledger>(
        &self,
        added: &AddedEntries,
        to: u32,
        index: u64,
        steps: &mut Steps<L>,
    ) -> Option<i64>
        requires within { to ≤ length self.now.rows }
        requires added { AreAdded self.now.rows added.now }
        ensures key { result ≡ option_map key_of (slice_get (left_by (take to self.now.rows)) index) }
        ensures visits { SeeksWithin self.now.rows steps.old steps.new }
    {
        let (mut low, mut high) = (0, added.len());
        let mut found = None;
        'halve: while low < high {
            let middle = low + (high - low) / 2;
            let entry = added.get(middle, steps);
            let counts = self.counts_at(to, entry, steps);
            if index >= u64::from(counts.left) {
                return None;
            }
            if counts.reaching >= counts.left - index as u32 {
                found = Some(entry.key);
                low = middle + 1;
            } else {
                high = middle;
            }
        }
        found
    }
}
