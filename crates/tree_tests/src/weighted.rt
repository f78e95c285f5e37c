//! The measured tree.

ghost use Rattle.std.specs.Prelude.{◌≡◌, ◌+◌, ◌^◌, ◌<◌, ◌≤◌, pos, [], map, take, length, true, false, nat_lt};
ghost use Rattle.std.specs.List.{AllWithin};
ghost use Rattle.std.specs.List.Sorted.{IsNonDecreasingBy};
ghost use Rattle.std.specs.Int.Signed.{le_z};
ghost use Rattle.monoid_laws.specs.Summed.{sum_of};
ghost use Rattle.costs.specs.Visits.{OpensCounter, VisitsWithin};
ghost use Rattle.weighted_tree.specs.Search.{IsFirstOrNone};

use monoid_laws::{Measured, Monoid, Sum};
use retro_base::Steps;
use std::alloc::Global;
use std::marker::Brand;
use std::process::Abort;
use std::sync::ledger::{Blank, Ledger};
use weighted_tree::Tree;

#[derive(Clone, Copy)]
struct Amount {
    value: i64,
}

impl Measured for Amount {
    ghost use Rattle.std.specs.Prelude.{refl};
    ghost use Rattle.monoid_laws.specs.Summed.{one_sum};

    type Measure = Sum;

    ghost measured = { λ a. one_sum a.value };

    ghost single = { λ a. refl };

    fn measure(&self) -> Sum {
        Sum::single(self.value)
    }
}

/// The list 5, -2, 7 by three inserts.
fn five_and_seven<L: Ledger>(rt: &impl Abort, alloc: Global, steps: &mut Steps<L>) -> Tree<Amount> {
    let mut tree = Tree::new(alloc);
    tree.insert(0, Amount { value: 5 }, steps)
        .expect(rt, "memory");
    assert!(rt; tree.len() == 1);
    tree.insert(1, Amount { value: 7 }, steps)
        .expect(rt, "memory");
    assert!(rt; tree.len() == 2);
    tree.insert(1, Amount { value: -2 }, steps)
        .expect(rt, "memory");
    tree
}

fn items<L: Ledger>(tree: &Tree<Amount>, steps: &mut Steps<L>) -> [i64; 3]
    requires { length tree.now ≡ 3 }
{
    let first = tree.get(0, steps).value;
    let second = tree.get(1, steps).value;
    let third = tree.get(2, steps).value;
    [first, second, third]
}

fn searches<L: Ledger>(tree: &Tree<Amount>, steps: &mut Steps<L>) -> [Option<u32>; 3]
    requires { length tree.now ≡ 3 }
{
    let first = tree.first_place(0, |m: &Sum| m.items() >= 2, steps);
    let last = tree.last_place(3, |m: &Sum| m.items() >= 2, steps);
    let none = tree.first_place(0, |m: &Sum| m.items() >= 4, steps);
    [first, last, none]
}

fn expect_items<L: Ledger>(rt: &impl Abort, tree: &Tree<Amount>, steps: &mut Steps<L>) {
    assert!(rt; tree.len() == 3);
    assert!(rt; items(tree, steps) == [5, -2, 7]);
}

fn expect_searches<L: Ledger>(rt: &impl Abort, tree: &Tree<Amount>, steps: &mut Steps<L>) {
    assert!(rt; tree.len() == 3);
    assert!(rt; searches(tree, steps) == [Some(2), Some(1), None]);
}

fn expect_measure<L: Ledger>(rt: &impl Abort, tree: &Tree<Amount>, steps: &mut Steps<L>) {
    assert!(rt; tree.len() == 3);
    assert!(rt; tree.measure(0, 2, steps).sum() == 3);
}

/// What a read from a place on writes over four nines, of which it may write the first `room`, and how many it says.
fn read_over_nines<L: Ledger>(
    rt: &impl Abort,
    tree: &Tree<Amount>,
    from: u32,
    room: usize,
    steps: &mut Steps<L>,
) -> (usize, [i64; 4]) {
    assert!(rt; from <= tree.len() && room <= 4);
    let mut copies = [9; 4];
    let count = tree.read(
        from,
        |amount: &Amount| amount.value,
        &mut copies[..room],
        steps,
    );
    (count, copies)
}

fn reads<L: Ledger>(rt: &impl Abort, tree: &Tree<Amount>, steps: &mut Steps<L>) {
    for (from, room, read) in [
        (0, 4, (3, [5, -2, 7, 9])),
        (0, 2, (2, [5, -2, 9, 9])),
        (1, 4, (2, [-2, 7, 9, 9])),
        (1, 1, (1, [-2, 9, 9, 9])),
        (2, 2, (1, [7, 9, 9, 9])),
        (3, 4, (0, [9, 9, 9, 9])),
        (0, 0, (0, [9, 9, 9, 9])),
    ] {
        assert!(rt; read_over_nines(rt, tree, from, room, steps) == read);
    }
}

fn edited<L: Ledger>(rt: &impl Abort, tree: &mut Tree<Amount>, steps: &mut Steps<L>) {
    assert!(rt; tree.len() == 3);
    assert!(rt; tree.remove(1, steps).value == -2);
    assert!(rt; tree.len() == 2);
    assert!(rt; tree.replace(0, Amount { value: 6 }, steps).value == 5);
    assert!(rt; tree.len() == 2);
    assert!(rt; tree.get(0, steps).value == 6);
    assert!(rt; tree.get(1, steps).value == 7);
}

fn answers<L: Ledger>(rt: &impl Abort, alloc: Global, blank: Blank)
    requires counter { OpensCounter blank.name L.name blank.parts L.parts }
{
    let mut steps = Steps::<L>::new(blank);
    let mut tree = five_and_seven(rt, alloc, &mut steps);
    let copy = tree.copy(&mut steps).expect(rt, "memory");
    expect_items(rt, &tree, &mut steps);
    expect_items(rt, &copy, &mut steps);
    expect_searches(rt, &tree, &mut steps);
    expect_measure(rt, &tree, &mut steps);
    reads(rt, &tree, &mut steps);
    edited(rt, &mut tree, &mut steps);
    drop(tree);
    drop(copy);
}

#[test]
fn answers_as_a_list(rt: HostRuntime) {
    answers::<Brand>(&rt, rt.alloc(), Blank::new(1));
}

/// A piece of a whole, of some size.
#[derive(Clone, Copy)]
struct Piece {
    size: u32,
}

impl Measured for Piece {
    ghost use Rattle.std.specs.Prelude.{pos, refl};
    ghost use Rattle.monoid_laws.specs.Summed.{one_sum};

    type Measure = Sum;

    ghost measured = { λ piece. one_sum (pos piece.size) };

    ghost single = { λ piece. refl };

    fn measure(&self) -> Sum {
        Sum::single(i64::from(self.size))
    }
}

/// The least number of pieces, from the first on, whose sizes add up to `goal` or more.
fn first_reaching<L: Ledger>(tree: &Tree<Piece>, goal: i128, steps: &mut Steps<L>) -> Option<u32>
    ensures { IsFirstOrNone (λ place. le_z goal (sum_of (map (λ piece. pos piece.size) (take place tree.now)))) 0 (length tree.now) result }
{
    tree.first_place(0, |sum: &Sum| goal <= sum.sum(), steps)
}

/// How many pieces are smaller than a limit, where their sizes never fall.
fn count_below<L: Ledger>(tree: &Tree<Piece>, limit: u32, steps: &mut Steps<L>) -> u32
    requires { IsNonDecreasingBy (λ piece. piece.size) tree.now }
    ensures below { AllWithin (λ piece. nat_lt piece.size limit ≡ true) tree.now 0 result }
    ensures above { AllWithin (λ piece. nat_lt piece.size limit ≡ false) tree.now result (length tree.now) }
{
    tree.partition_point(|piece: &Piece| piece.size < limit, steps)
}

// The prefixes of 3, 0, 4 have the sums 0, 3, 3, 7.
fn three_pieces<L: Ledger>(rt: &impl Abort, alloc: Global, steps: &mut Steps<L>) -> Tree<Piece> {
    let mut tree = Tree::new(alloc);
    assert!(rt; count_below(&tree, 9, steps) == 0);
    for size in [4, 0, 3] {
        if tree.len() < 3 {
            tree.insert(0, Piece { size }, steps).expect(rt, "memory");
        }
    }
    tree
}

fn reaching<L: Ledger>(rt: &impl Abort, alloc: Global, blank: Blank)
    requires counter { OpensCounter blank.name L.name blank.parts L.parts }
{
    let mut steps = Steps::<L>::new(blank);
    let tree = three_pieces(rt, alloc, &mut steps);
    for (goal, pieces) in [(0, Some(0)), (3, Some(1)), (4, Some(3)), (8, None)] {
        assert!(rt; first_reaching(&tree, goal, &mut steps) == pieces);
    }
    drop(tree);
}

#[test]
fn finds_by_a_closure(rt: HostRuntime) {
    reaching::<Brand>(&rt, rt.alloc(), Blank::new(1));
}

/// One more amount at the front, after no more visits than are stated.
fn insert_first<L: Ledger>(
    rt: &impl Abort,
    tree: &mut Tree<Amount>,
    value: i64,
    steps: &mut Steps<L>,
)
    requires { length tree.old < 2 ^ 31 }
    ensures length { length tree.new ≡ length tree.old + 1 }
    ensures visits { VisitsWithin 12 (length tree.new) steps.old steps.new }
{
    tree.insert(0, Amount { value }, steps).expect(rt, "memory");
}

/// A thousand amounts: ten digits, and so at most 120 visits an insertion.
fn fill<L: Ledger>(rt: &impl Abort, tree: &mut Tree<Amount>, steps: &mut Steps<L>)
    requires { tree.old ≡ [] }
    ensures length { length tree.new ≡ 1000 }
    ensures visits { steps.new ≤ steps.old + 120000 }
{
    for count in 0..1000u32 {
        insert_first(rt, tree, i64::from(count), steps);
    }
}

fn thousand<L: Ledger>(rt: &impl Abort, alloc: Global, blank: Blank)
    requires counter { OpensCounter blank.name L.name blank.parts L.parts }
{
    let mut steps = Steps::<L>::new(blank);
    let mut tree = Tree::new(alloc);
    fill(rt, &mut tree, &mut steps);
    assert!(rt; tree.measure(0, 3, &mut steps).sum() == 2994);
    drop(tree);
}

#[test]
fn grows_at_the_front(rt: HostRuntime) {
    thousand::<Brand>(&rt, rt.alloc(), Blank::new(1));
}
