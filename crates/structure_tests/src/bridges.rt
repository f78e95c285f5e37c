//! The priority queue by bridges: its rows one by one, which fail, and its copies. What it answers besides is seen through its checkpoints.

ghost use Rattle.std.specs.Prelude.{◌<◌};
ghost use Rattle.costs.specs.Visits.{OpensCounter};

use super::listings::expect_values;
use super::priority_queues::{FOUR, GAINED, LOST, TAKEN, TWO};
use bridge_pq::BridgeQueue;
use retro_base::{Change, MAX_NEXT, MAX_ROWS, Op, Partial, Row, Steps};
use std::alloc::Global;
use std::marker::{Brand, Model};
use std::process::Abort;
use std::sync::ledger::{Blank, Ledger};

/// A queue by bridges, with the number of the next row. Each call sees first that it may be made.
#[derive(Drop)]
struct Bridges {
    queue: BridgeQueue,
    next: u32,
}

impl Model for Bridges {
    ghost use Rattle.std.specs.Prelude.{◌<◌, List};
    ghost use Rattle.std.specs.List.{AllByRecursion};
    ghost use Rattle.retro_base.specs.declared.row.Row.{Row};

    ghost Value = { List Row };

    ghost view = { λ bridges. bridges.queue };

    ghost invariant = { λ bridges. AllByRecursion (λ row. row.number < bridges.next) bridges.queue };
}

impl Bridges {
    fn new(alloc: Global) -> Bridges {
        Bridges {
            queue: BridgeQueue::new(alloc),
            next: 1,
        }
    }

    fn queue(&self) -> &BridgeQueue {
        &self.queue
    }

    /// The row that fails once a row of the operation is put in.
    fn failing_with<L: Ledger>(
        &self,
        rt: &impl Abort,
        place: u32,
        op: Op,
        steps: &mut Steps<L>,
    ) -> Option<u32> {
        assert!(rt; place <= self.queue.len());
        assert!(rt; op.kind() == self.queue.kind());
        self.queue.failure_after_insert(place, op, steps)
    }

    /// The row that fails once the row at the place is taken out.
    fn failing_without<L: Ledger>(
        &self,
        rt: &impl Abort,
        place: u32,
        steps: &mut Steps<L>,
    ) -> Option<u32> {
        assert!(rt; place < self.queue.len());
        self.queue.failure_after_remove(place, steps)
    }

    /// Puts a row in that can be performed.
    fn put<L: Ledger>(
        &mut self,
        rt: &impl Abort,
        place: u32,
        op: Op,
        steps: &mut Steps<L>,
    ) -> Change {
        let number = self.next;
        assert!(rt; self.queue.len() < MAX_ROWS && number < MAX_NEXT);
        assert!(rt; place <= self.queue.len());
        assert!(rt; op.kind() == self.queue.kind());
        assert!(rt; self.queue.failure_after_insert(place, op, steps) == None);
        let row = Row {
            number,
            time: 0,
            op,
        };
        let change = self.queue.insert(place, row, steps).expect(rt, "memory");
        self.next = number + 1;
        change
    }

    /// Takes a row out without which the others can be performed.
    fn cut<L: Ledger>(
        &mut self,
        rt: &impl Abort,
        place: u32,
        steps: &mut Steps<L>,
    ) -> (Row, Change) {
        assert!(rt; place < self.queue.len());
        assert!(rt; self.queue.failure_after_remove(place, steps) == None);
        self.queue.remove(place, steps)
    }
}

/// Sees that the rows are these.
fn expect_rows<L: Ledger>(
    rt: &impl Abort,
    queue: &BridgeQueue,
    rows: &[(u32, Op)],
    steps: &mut Steps<L>,
) {
    assert!(rt; queue.len() as usize == rows.len());
    for (place, (number, op)) in rows.iter().enumerate() {
        assert!(rt; place < queue.len() as usize);
        let row = queue.row_at(place as u32, steps);
        assert!(rt; (row.number, row.op) == (*number, *op));
    }
}

/// The history `ins 4`, `delmin`, into which `ins 2` comes first.
fn three_rows<L: Ledger>(rt: &impl Abort, alloc: Global, steps: &mut Steps<L>) -> Bridges {
    let mut bridges = Bridges::new(alloc);
    for (place, op, change) in [(0, FOUR, GAINED), (1, Op::DelMin, TAKEN), (0, TWO, GAINED)] {
        assert!(rt; bridges.put(rt, place, op, steps) == change);
    }
    bridges
}

fn expect_failures<L: Ledger>(rt: &impl Abort, bridges: &Bridges, steps: &mut Steps<L>) {
    for (place, index) in [(0, Some(0)), (1, None), (2, None), (3, None)] {
        let failing = bridges.failing_with(rt, place, Op::DelMin, steps);
        assert!(rt; failing == index);
    }
    for (place, index) in [(0, None), (1, None), (2, None)] {
        assert!(rt; bridges.failing_without(rt, place, steps) == index);
    }
}

/// Of `ins 4` and `delmin` no more can be taken, and nothing that is taken goes.
fn expect_refusals<L: Ledger>(rt: &impl Abort, alloc: Global, steps: &mut Steps<L>) {
    let mut bridges = Bridges::new(alloc);
    for (place, op) in [(0, FOUR), (1, Op::DelMin)] {
        bridges.put(rt, place, op, steps);
    }
    for place in [1, 2] {
        let failing = bridges.failing_with(rt, place, Op::DelMin, steps);
        assert!(rt; failing == Some(2));
    }
    assert!(rt; bridges.failing_without(rt, 0, steps) == Some(0));
    drop(bridges);
}

/// Sees that the present has entries of these keys.
fn expect_content(rt: &impl Abort, queue: &BridgeQueue, keys: &[i64]) {
    expect_values(rt, &queue.all_now().expect(rt, "memory"), keys);
}

/// A copy keeps the rows, whatever is taken out.
fn expect_copy<L: Ledger>(rt: &impl Abort, bridges: &mut Bridges, steps: &mut Steps<L>) {
    let copy = bridges.queue().copy().expect(rt, "memory");
    let (row, change) = bridges.cut(rt, 0, steps);
    assert!(rt; (row.number, row.op, change) == (3, TWO, LOST));
    expect_content(rt, bridges.queue(), &[]);
    expect_rows(rt, bridges.queue(), &[(1, FOUR), (2, Op::DelMin)], steps);
    expect_content(rt, &copy, &[4]);
    expect_rows(rt, &copy, &[(3, TWO), (1, FOUR), (2, Op::DelMin)], steps);
    drop(copy);
}

fn worked<L: Ledger>(rt: &impl Abort, alloc: Global, blank: Blank)
    requires counter { OpensCounter blank.name L.name blank.parts L.parts }
{
    let mut steps = Steps::<L>::new(blank);
    let mut bridges = three_rows(rt, alloc, &mut steps);
    expect_failures(rt, &bridges, &mut steps);
    expect_refusals(rt, alloc, &mut steps);
    expect_content(rt, bridges.queue(), &[4]);
    expect_copy(rt, &mut bridges, &mut steps);
    drop(bridges);
}

#[test]
fn a_row_comes_in_before_the_others(rt: HostRuntime) {
    worked::<Brand>(&rt, rt.alloc(), Blank::new(1));
}
