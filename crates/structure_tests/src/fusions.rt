//! The fused priority queue and its pieces.

use super::history::History;
use super::priority_queues::{ENTRY, FIRST_GOES, FOUR, play_three_rows};
use pq_fusion::{FusedQueue, Piece};
use retro_base::{Entry, Op, Retro, Row};
use std::process::Abort;

/// Sees what a piece has: its least entry that is left, and how many entries are left and removed, and how many rows are unmet.
fn expect_piece(
    rt: &impl Abort,
    piece: &Piece,
    min: Option<Entry>,
    (left, removed, unmet): (u32, u32, u32),
) {
    assert!(rt; piece.min() == min);
    assert!(rt; piece.left_len() == left);
    assert!(rt; piece.removed_len() == removed);
    assert!(rt; piece.unmet() == unmet);
}

fn expect_pieces(rt: &impl Abort, queue: &FusedQueue) {
    for (from, min, counts) in [
        (0, Some(ENTRY), (1, 1, 0)),
        (1, None, (0, 1, 0)),
        (2, None, (0, 0, 1)),
    ] {
        assert!(rt; from <= 3 && queue.len() == 3);
        let piece = queue.piece(from, 3).expect(rt, "memory");
        expect_piece(rt, &piece, min, counts);
    }
}

#[test]
fn three_rows_are_one_product(rt: HostRuntime) {
    let mut history = History::new(FusedQueue::new(rt.alloc()));
    play_three_rows(&rt, &mut history);
    assert!(&rt; history.structure().stored() <= 27);
    expect_pieces(&rt, history.structure());
    history.play(&rt, FIRST_GOES);
    drop(history);
}

/// Two pieces of a few entries, fused.
fn fuse_small(rt: &impl Abort, first: &Piece, second: &Piece) -> Piece {
    assert!(rt; first.left_len() < 9 && first.removed_len() < 9 && first.unmet() < 9);
    assert!(rt; second.left_len() < 9 && second.removed_len() < 9 && second.unmet() < 9);
    first.fuse(second).expect(rt, "memory")
}

#[test]
fn a_taking_removes_what_was_put_in(rt: HostRuntime) {
    let added = Row {
        number: 1,
        time: 10,
        op: FOUR,
    };
    let taken = Row {
        number: 2,
        time: 20,
        op: Op::DelMin,
    };
    let first = Piece::of_row(rt.alloc(), added).expect(&rt, "memory");
    let second = Piece::of_row(rt.alloc(), taken).expect(&rt, "memory");
    let fused = fuse_small(&rt, &first, &second);
    expect_piece(&rt, &fused, None, (0, 1, 0));
    let nothing = Piece::empty(rt.alloc());
    let same = fuse_small(&rt, &nothing, &fused);
    expect_piece(&rt, &same, None, (0, 1, 0));
}
