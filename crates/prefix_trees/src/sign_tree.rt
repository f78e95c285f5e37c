//! A list of signs with marks, and the searches of its prefix sums.

ghost use Rattle.std.specs.Prelude.{◌≡◌, pos, ◌+◌, ◌^◌, ◌<◌, ◌≤◌, [], length, slice_get, Some, OnOk, OnErr, IfOk};
ghost use Rattle.std.specs.List.{insert, remove};
ghost use Rattle.monoid_laws.specs.Walk.{IsSign, end_of, lowest_of, height_of};
ghost use Rattle.costs.specs.Visits.{VisitsWithin};
ghost use Rattle.prefix_trees.specs.SignPrefixes.{prefix, FindsFirstAtMost, FindsLastAtMost, FindsKthMarked};
ghost use Rattle.prefix_trees.specs.SignWalks.{falls_to, keeps_at, has_more_marks};
ghost use Rattle.weighted_tree.specs.Search.{IsFirstOrNone, IsLastOrNone};

use crate::signed::{Signed, Walks};
use retro_base::{NoMemory, Steps};
use std::alloc::Global;
use std::marker::Model;
use std::sync::ledger::Ledger;
use weighted_tree::Tree;

/// A list of signs, each with a mark. Its prefix sums are read and searched in a few visits.
#[derive(Drop)]
pub struct SignTree {
    signs: Tree<Signed>,
}

impl Model for SignTree {
    ghost use Rattle.std.specs.Prelude.{ℤ, Bool, List};

    ghost Value = { List (ℤ × Bool) };

    ghost view = { λ t. t.signs };
}

impl SignTree {
    /// No signs; their memory will be that of `alloc`.
    pub fn new(alloc: Global) -> SignTree
        ensures { result ≡ [] }
    {
        SignTree {
            signs: Tree::new(alloc),
        }
    }

    /// How many signs there are.
    pub fn len(&self) -> u32
        ensures { result ≡ length self.now }
    {
        self.signs.len()
    }

    /// Puts a sign in at a place; those from there on move one place on.
    pub fn insert<L: Ledger>(
        &mut self,
        place: u32,
        sign: i8,
        marked: bool,
        steps: &mut Steps<L>,
    ) -> Result<(), NoMemory>
        requires within { place ≤ length self.old }
        requires room { length self.old < 2 ^ 31 }
        requires sign { IsSign sign }
        ensures ok { OnOk result (self.new ≡ insert self.old place (sign, marked)) }
        ensures err { OnErr result (self.new ≡ self.old) }
        ensures none { OnErr result (length self.old ≡ 0 → steps.new ≡ steps.old) }
        ensures visits { VisitsWithin 12 (length self.new) steps.old steps.new }
    {
        self.signs.insert(place, Signed::new(sign, marked), steps)
    }

    /// Removes the sign at a place, and gives it with its mark; those after it move one place back.
    pub fn remove<L: Ledger>(&mut self, place: u32, steps: &mut Steps<L>) -> (i8, bool)
        requires { place < length self.old }
        ensures item { slice_get self.old place ≡ Some result }
        ensures items { self.new ≡ remove self.old place }
        ensures visits { VisitsWithin 12 (length self.old) steps.old steps.new }
    {
        self.signs.remove(place, steps).parts()
    }

    /// The sum of the first so many signs.
    pub fn prefix<L: Ledger>(&self, place: u32, steps: &mut Steps<L>) -> i64
        requires { place ≤ length self.now }
        ensures sum { result ≡ prefix self.now place }
        ensures visits { VisitsWithin 12 (length self.now) steps.old steps.new }
    {
        self.signs.measure(0, place, steps).first().sum()
    }

    /// The least place from `from` to `to`, both included, whose prefix sum is at most the value.
    pub fn first_at_most<L: Ledger>(
        &self,
        from: u32,
        to: u32,
        value: i64,
        steps: &mut Steps<L>,
    ) -> Option<u32>
        requires order { from ≤ to }
        requires within { to ≤ length self.now }
        ensures first { FindsFirstAtMost self.now from to value result }
        ensures visits { VisitsWithin 24 (length self.now) steps.old steps.new }
    {
        let first = self.first_falling(from, value, steps)?;
        if first <= to { Some(first) } else { None }
    }

    /// The least place from `from` on before which some prefix sum has fallen to the value.
    fn first_falling<L: Ledger>(&self, from: u32, value: i64, steps: &mut Steps<L>) -> Option<u32>
        requires { from ≤ length self.now }
        ensures first { IsFirstOrNone (falls_to self.now from value) from (length self.now) result }
        ensures visits { VisitsWithin 24 (length self.now) steps.old steps.new }
    {
        let start = i128::from(self.prefix(from, steps));
        let goal = i128::from(value);
        self.signs.first_place(
            from,
            |range: &Walks| start + i128::from(lowest(range)) <= goal,
            steps,
        )
    }

    /// The greatest place from `from` to `to`, both included, whose prefix sum is at most the value.
    pub fn last_at_most<L: Ledger>(
        &self,
        from: u32,
        to: u32,
        value: i64,
        steps: &mut Steps<L>,
    ) -> Option<u32>
        requires order { from ≤ to }
        requires within { to ≤ length self.now }
        ensures last { FindsLastAtMost self.now from to value result }
        ensures visits { VisitsWithin 24 (length self.now) steps.old steps.new }
    {
        let last = self.last_keeping(to, value, steps)?;
        if from <= last { Some(last) } else { None }
    }

    /// The greatest place up to `to` from which on some prefix sum is at the value or below.
    fn last_keeping<L: Ledger>(&self, to: u32, value: i64, steps: &mut Steps<L>) -> Option<u32>
        requires { to ≤ length self.now }
        ensures last { IsLastOrNone (keeps_at self.now to value) to result }
        ensures visits { VisitsWithin 24 (length self.now) steps.old steps.new }
    {
        let end = i128::from(self.prefix(to, steps));
        let goal = i128::from(value);
        self.signs.last_place(
            to,
            |range: &Walks| end - i128::from(height(range)) <= goal,
            steps,
        )
    }

    /// The place of the k-th marked sign, from 0.
    pub fn kth_marked<L: Ledger>(&self, k: u32, steps: &mut Steps<L>) -> Option<u32>
        ensures kth { FindsKthMarked self.now k result }
        ensures visits { VisitsWithin 12 (length self.now) steps.old steps.new }
    {
        let beyond = self.first_beyond(k, steps)?;
        Some(beyond - 1)
    }

    /// The least place before which there are more than k marks.
    fn first_beyond<L: Ledger>(&self, k: u32, steps: &mut Steps<L>) -> Option<u32>
        ensures first { IsFirstOrNone (has_more_marks self.now (pos k)) 0 (length self.now) result }
        ensures visits { VisitsWithin 12 (length self.now) steps.old steps.new }
    {
        let k = i64::from(k);
        self.signs
            .first_place(0, |range: &Walks| k < marks(range), steps)
    }

    /// A tree of the same signs.
    pub fn copy<L: Ledger>(&self, steps: &mut Steps<L>) -> Result<SignTree, NoMemory>
        ensures signs { IfOk result (λ copy. copy ≡ self.now) }
        ensures none_lost { steps.old ≤ steps.new }
        ensures ok_visits { OnOk result (steps.new ≡ steps.old + length self.now) }
        ensures err_visits { OnErr result (steps.new ≤ steps.old + length self.now) }
    {
        let signs = self.signs.copy(steps)?;
        Ok(SignTree { signs })
    }
}

/// How far the sums of a range fall below its start.
fn lowest(range: &Walks) -> i64
    ensures { result ≡ lowest_of range.now.0 }
{
    range.first().least()
}

/// How far a range ends above its lowest point.
fn height(range: &Walks) -> i64
    ensures { result ≡ height_of range.now.0 }
{
    let walk = range.first();
    walk.sum() - walk.least()
}

/// How many marks a range has.
fn marks(range: &Walks) -> i64
    ensures { result ≡ end_of range.now.1 }
{
    range.second().sum()
}
