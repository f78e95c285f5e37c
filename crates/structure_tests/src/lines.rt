//! Queue, stack and deque, beside the plain list of each kind.

use super::history::{History, Step, play_plain};
use super::listings::expect_values;
use retro_base::{Answer, Change, Kind, Op, Partial, Question, Retro};
use retro_deque::RetroDeque;
use retro_queue::RetroQueue;
use retro_stack::RetroStack;
use std::process::Abort;

/// Takes the last row out of a history, which has this number, time and operation, and sees that a copy that was made before still has it.
fn expect_copy<R: Retro + Partial + Drop>(
    rt: &impl Abort,
    history: &mut History<R>,
    (place, row): (u32, (u32, u64, Op)),
    (with, without): (&[i64], &[i64]),
) {
    let copy = Partial::copy(history.structure()).expect(rt, "memory");
    assert!(rt; Partial::len(history.structure()) == history.len());
    history.play(rt, &[Step::Cut(place, row, Change::Plain)]);
    assert!(rt; Partial::len(history.structure()) == place);
    let present = Partial::all_now(history.structure()).expect(rt, "memory");
    expect_values(rt, &present, without);
    let copied = Partial::all_now(&copy).expect(rt, "memory");
    expect_values(rt, &copied, with);
}

/// Of three rows at one time the last one comes in first.
const QUEUE: &[Step<'static>] = &[
    Step::Put(0, 5, Op::Enq { value: 1 }, Change::Plain),
    Step::Put(1, 5, Op::Enq { value: 2 }, Change::Plain),
    Step::Put(0, 5, Op::Enq { value: 3 }, Change::Plain),
    Step::Rows(3),
    Step::Values(3, &[3, 1, 2]),
    Step::Values(1, &[3]),
    Step::Ask(1, Question::Front, Answer::Number { value: 3 }),
    Step::Ask(2, Question::Size, Answer::Number { value: 2 }),
    Step::Ask(3, Question::Back, Answer::Number { value: 2 }),
];

#[test]
fn a_queue_is_edited_before_a_row(rt: HostRuntime) {
    play_plain(&rt, rt.alloc(), Kind::Queue, QUEUE);
    let mut queue = History::new(RetroQueue::new(rt.alloc()));
    queue.play(&rt, QUEUE);
    let last = (2, (2, 5, Op::Enq { value: 2 }));
    expect_copy(&rt, &mut queue, last, (&[3, 1, 2], &[3, 1]));
    drop(queue);
}

/// Items are counted from the top.
const STACK: &[Step<'static>] = &[
    Step::Put(0, 1, Op::Push { value: 1 }, Change::Plain),
    Step::Put(1, 2, Op::Push { value: 2 }, Change::Plain),
    Step::Put(2, 3, Op::Push { value: 3 }, Change::Plain),
    Step::Rows(3),
    Step::Values(3, &[3, 2, 1]),
    Step::Ask(2, Question::Top, Answer::Number { value: 2 }),
    Step::Ask(3, Question::Nth { index: 2 }, Answer::Number { value: 1 }),
    Step::Ask(3, Question::Nth { index: 3 }, Answer::Nothing),
];

/// A stack that is empty in between: a later row may be the one that fails.
const EMPTIED: &[Step<'static>] = &[
    Step::Put(0, 5, Op::Push { value: 1 }, Change::Plain),
    Step::Put(1, 5, Op::Pop, Change::Plain),
    Step::Put(2, 5, Op::Push { value: 3 }, Change::Plain),
    Step::Put(3, 5, Op::Push { value: 4 }, Change::Plain),
    Step::FailsWith(1, Op::Pop, Some(2)),
    Step::FailsWith(0, Op::Pop, Some(0)),
    Step::FailsWithout(0, Some(0)),
    Step::Ask(4, Question::Nth { index: 0 }, Answer::Number { value: 4 }),
    Step::Ask(4, Question::Nth { index: 2 }, Answer::Nothing),
    Step::Ask(1, Question::Top, Answer::Number { value: 1 }),
    Step::Values(4, &[4, 3]),
];

#[test]
fn a_stack_is_counted_from_its_top(rt: HostRuntime) {
    play_plain(&rt, rt.alloc(), Kind::Stack, EMPTIED);
    let mut stack = History::new(RetroStack::new(rt.alloc()));
    stack.play(&rt, STACK);
    let last = (2, (3, 3, Op::Push { value: 3 }));
    expect_copy(&rt, &mut stack, last, (&[3, 2, 1], &[2, 1]));
    drop(stack);
}

/// Either end may have written what a row takes.
const DEQUE: &[Step<'static>] = &[
    Step::Put(0, 1, Op::PushR { value: 1 }, Change::Plain),
    Step::Put(1, 2, Op::PushL { value: 2 }, Change::Plain),
    Step::Put(2, 3, Op::PopR, Change::Plain),
    Step::Rows(3),
    Step::Values(3, &[2]),
    Step::Values(2, &[2, 1]),
    Step::Ask(2, Question::Right, Answer::Number { value: 1 }),
    Step::Put(0, 0, Op::PushR { value: 9 }, Change::Plain),
    Step::Ask(3, Question::Left, Answer::Number { value: 2 }),
    Step::Ask(3, Question::Right, Answer::Number { value: 1 }),
    Step::Values(4, &[2, 9]),
];

#[test]
fn a_deque_is_open_at_both_ends(rt: HostRuntime) {
    play_plain(&rt, rt.alloc(), Kind::Deque, DEQUE);
    let mut deque = History::new(RetroDeque::new(rt.alloc()));
    deque.play(&rt, DEQUE);
    let last = (3, (3, 3, Op::PopR));
    expect_copy(&rt, &mut deque, last, (&[2, 9], &[2, 9, 1]));
    drop(deque);
}
