//! Signs and their prefixes.

ghost use Rattle.monoid_laws.specs.Walk.{IsSign};
ghost use Rattle.costs.specs.Visits.{OpensCounter};

use prefix_trees::SignTree;
use retro_base::Steps;
use std::alloc::Global;
use std::marker::Brand;
use std::process::Abort;
use std::sync::ledger::{Blank, Ledger};

/// Appends a sign, which is marked where it is 1.
fn append_sign<L: Ledger>(rt: &impl Abort, tree: &mut SignTree, sign: i8, steps: &mut Steps<L>)
    requires { IsSign sign }
{
    assert!(rt; tree.len() < 4);
    let end = tree.len();
    tree.insert(end, sign, sign == 1, steps)
        .expect(rt, "memory");
}

/// The signs 1, 1, -1, 1, those of sign 1 marked.
fn four_signs<L: Ledger>(rt: &impl Abort, alloc: Global, steps: &mut Steps<L>) -> SignTree {
    let mut tree = SignTree::new(alloc);
    append_sign(rt, &mut tree, 1, steps);
    append_sign(rt, &mut tree, 1, steps);
    append_sign(rt, &mut tree, -1, steps);
    append_sign(rt, &mut tree, 1, steps);
    tree
}

fn expect_sums<L: Ledger>(rt: &impl Abort, tree: &SignTree, sums: &[i64], steps: &mut Steps<L>) {
    assert!(rt; tree.len() as usize + 1 == sums.len());
    for (place, sum) in sums.iter().enumerate() {
        assert!(rt; place <= tree.len() as usize);
        assert!(rt; tree.prefix(place as u32, steps) == *sum);
    }
}

fn expect_first_sum<L: Ledger>(rt: &impl Abort, tree: &SignTree, steps: &mut Steps<L>) {
    for (from, sum, place) in [(1, 1, Some(1)), (0, -1, None)] {
        assert!(rt; from <= 4 && tree.len() == 4);
        assert!(rt; tree.first_at_most(from, 4, sum, steps) == place);
    }
}

fn expect_last_sum<L: Ledger>(rt: &impl Abort, tree: &SignTree, steps: &mut Steps<L>) {
    assert!(rt; tree.len() == 4);
    assert!(rt; tree.last_at_most(0, 3, 1, steps) == Some(3));
}

fn expect_marked<L: Ledger>(rt: &impl Abort, tree: &SignTree, steps: &mut Steps<L>) {
    for (index, place) in [(2, Some(3)), (3, None)] {
        assert!(rt; tree.kth_marked(index, steps) == place);
    }
}

/// A copy keeps its signs, whatever is taken out of the tree.
fn expect_copied_signs<L: Ledger>(rt: &impl Abort, tree: &mut SignTree, steps: &mut Steps<L>) {
    let copy = tree.copy(steps).expect(rt, "memory");
    assert!(rt; tree.len() == 4);
    assert!(rt; tree.remove(2, steps) == (-1, false));
    expect_sums(rt, tree, &[0, 1, 2, 3], steps);
    expect_sums(rt, &copy, &[0, 1, 2, 1, 2], steps);
}

fn sign_answers<L: Ledger>(rt: &impl Abort, alloc: Global, blank: Blank)
    requires counter { OpensCounter blank.name L.name blank.parts L.parts }
{
    let mut steps = Steps::<L>::new(blank);
    let mut tree = four_signs(rt, alloc, &mut steps);
    expect_first_sum(rt, &tree, &mut steps);
    expect_last_sum(rt, &tree, &mut steps);
    expect_marked(rt, &tree, &mut steps);
    expect_copied_signs(rt, &mut tree, &mut steps);
    drop(tree);
}

#[test]
fn prefixes_are_searched(rt: HostRuntime) {
    sign_answers::<Brand>(&rt, rt.alloc(), Blank::new(1));
}
