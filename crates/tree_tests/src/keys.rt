//! The index of rows by keys.

ghost use Rattle.std.specs.Prelude.{◌≡◌, None, [], ◌∷◌};
ghost use Rattle.retro_base.specs.declared.kind.Kind.TheVariants.{Dict};
ghost use Rattle.retro_base.specs.Kind.{kind_of};
ghost use Rattle.key_index.specs.KeyRows.{Replays, op_at, with_row};

use key_index::{Bad, KeyIndex, Labels2, RowsBeside};
use retro_base::{Kind, Op};
use std::alloc::Global;
use std::process::Abort;

const PUT: Op = Op::Put { key: 1, value: 10 };

const DEL: Op = Op::Del { key: 1 };

/// A row on another key, right after the first one.
const OTHER: Op = Op::Put { key: 2, value: 20 };

/// Puts a row in at a label that no row has, where the rows can then all be performed.
fn put(rt: &impl Abort, index: &mut KeyIndex, label: u64, op: Op)
    requires fresh { op_at label index.old ≡ None }
    requires dict { kind_of op ≡ Dict }
    requires replays { Replays index.old }
    ensures rows { index.new ≡ with_row label op index.old }
    ensures replays { Replays index.new }
{
    if index.bad_after_insert(label, op).is_some() {
        panic!(rt; "the row fails");
    }
    index.insert(label, op).expect(rt, "memory");
}

/// The rows at 100, 101 and 200.
fn three_rows(rt: &impl Abort, alloc: Global) -> KeyIndex
    ensures rows { result ≡ with_row 200 DEL (with_row 101 OTHER (with_row 100 PUT [])) }
    ensures replays { Replays result }
{
    let mut index = KeyIndex::new(alloc);
    put(rt, &mut index, 100, PUT);
    put(rt, &mut index, 101, OTHER);
    put(rt, &mut index, 200, DEL);
    index
}

fn expect_removals(rt: &impl Abort, index: &KeyIndex)
    requires rows { index.now ≡ with_row 200 DEL (with_row 101 OTHER (with_row 100 PUT [])) }
    requires replays { Replays index.now }
{
    assert_eq!(rt; index.bad_after_remove(100), Some(200));
    assert_eq!(rt; index.bad_after_remove(101), None);
    assert_eq!(rt; index.bad_after_remove(200), None);
    assert_eq!(rt; index.bad_without(100, PUT), Some(200));
    assert_eq!(rt; index.bad_without(101, OTHER), None);
    assert_eq!(rt; index.bad_without(200, DEL), None);
}

fn expect_insertions(rt: &impl Abort, index: &KeyIndex)
    requires { Replays index.now }
{
    for (later, op, bad) in [
        (150, DEL, Some(Bad::Present { label: 200 })),
        (50, DEL, Some(Bad::Inserted)),
        (100, DEL, Some(Bad::Present { label: 200 })),
        (100, Op::Del { key: 2 }, Some(Bad::Inserted)),
        (101, Op::Del { key: 2 }, None),
        (200, DEL, Some(Bad::Inserted)),
        (199, PUT, None),
        (u64::MAX, PUT, None),
    ] {
        assert!(rt; op.kind() == Kind::Dict);
        assert_eq!(rt; index.bad_after_insert(later, op), bad);
    }
}

#[test]
fn rows_beside_an_edit_decide(rt: HostRuntime) {
    let empty = KeyIndex::new(rt.alloc());
    assert_eq!(rt; empty.bad_after_insert(50, DEL), Some(Bad::Inserted));
    let index = three_rows(&rt, rt.alloc());
    expect_removals(&rt, &index);
    expect_insertions(&rt, &index);
    drop(empty);
    drop(index);
}

fn expect_beside(rt: &impl Abort, index: &KeyIndex) {
    for (key, label, before, after) in [
        (1, 0, None, Some((100, PUT))),
        (1, 100, None, Some((200, DEL))),
        (1, 101, Some((100, PUT)), Some((200, DEL))),
        (1, 200, Some((100, PUT)), None),
        (1, u64::MAX, Some((200, DEL)), None),
        (0, 200, None, None),
        (2, 100, None, Some((101, OTHER))),
        (2, 101, None, None),
        (2, 200, Some((101, OTHER)), None),
    ] {
        assert_eq!(rt; index.beside(key, label), RowsBeside { before, after });
        assert_eq!(rt; index.before(key, label), before);
        assert_eq!(rt; index.after(key, label), after);
    }
    for (key, label, last) in [
        (1, 99, None),
        (1, 100, Some((100, PUT))),
        (1, 200, Some((200, DEL))),
        (2, 100, None),
        (2, u64::MAX, Some((101, OTHER))),
        (3, u64::MAX, None),
    ] {
        assert_eq!(rt; index.last_up_to(key, label), last);
    }
}

#[test]
fn neighbours_are_those_on_the_key(rt: HostRuntime) {
    let mut index = three_rows(&rt, rt.alloc());
    expect_beside(&rt, &index);
    index.remove_row(200, DEL);
    assert_eq!(rt; index.remove(150), None);
    assert_eq!(rt; index.remove(100), Some(PUT));
    assert_eq!(rt; index.before(1, 200), None);
    drop(index);
}

#[test]
fn a_row_is_put_between_its_neighbours(rt: HostRuntime) {
    let mut index = three_rows(&rt, rt.alloc());
    let beside = index.insert_beside(150, PUT).expect(&rt, "memory");
    assert_eq!(rt; beside.before, Some((100, PUT)));
    assert_eq!(rt; beside.after, Some((200, DEL)));
    drop(index);
}

fn labels(rt: &impl Abort, alloc: Global, first: u64, second: u64, third: u64) -> Labels2
    ensures { result ≡ first ∷ second ∷ third ∷ [] }
{
    let mut labels = Labels2::new(alloc);
    labels.push(first).expect(rt, "memory");
    labels.push(second).expect(rt, "memory");
    labels.push(third).expect(rt, "memory");
    labels
}

#[test]
fn relabelled_rows_keep_their_order(rt: HostRuntime) {
    let mut index = KeyIndex::new(rt.alloc());
    put(&rt, &mut index, 100, PUT);
    put(&rt, &mut index, 200, DEL);
    let former = labels(&rt, rt.alloc(), 100, 150, 200);
    let fresh = labels(&rt, rt.alloc(), 1_000, 2_000, 3_000);
    assert_eq!(rt; former.len(), 3);
    index.relabel(&former, &fresh);
    assert_eq!(rt; index.before(1, 3_000), Some((1_000, PUT)));
    assert_eq!(rt; index.after(1, 1_000), Some((3_000, DEL)));
    drop(index);
}
