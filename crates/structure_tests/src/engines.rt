//! The structure of any kind.

use super::history::{History, Step};
use engine::Engine;
use retro_base::{Answer, Item, Kind, Op, Question, Retro};
use std::process::Abort;

/// A row comes into an empty engine and goes again: the row, a question that it answers with 7, and the item that it leaves. It is the one
/// place where an engine is let go.
fn follow(
    rt: &impl Abort,
    mut history: History<Engine>,
    (op, question, item): (Op, Question, Item),
) {
    history.put(rt, 0, 5, op);
    let items = [item];
    let steps = [
        Step::AskNow(question, Answer::Number { value: 7 }),
        Step::Ask(0, question, Answer::Nothing),
        Step::Items(1, &items),
    ];
    history.play(rt, &steps);
    let (taken, _) = history.cut(rt, 0);
    assert!(rt; (taken.number, taken.time, taken.op) == (1, 5, op));
    drop(history);
}

#[test]
fn each_kind_performs_its_first_row(rt: HostRuntime) {
    let value = 7;
    let single = Item::Single { value };
    let pair = Item::Pair { key: 3, value };
    for (kind, row) in [
        (Kind::Queue, (Op::Enq { value }, Question::Front, single)),
        (Kind::Stack, (Op::Push { value }, Question::Top, single)),
        (Kind::Deque, (Op::PushL { value }, Question::Right, single)),
        (
            Kind::Dict,
            (Op::Put { key: 3, value }, Question::Get { key: 3 }, pair),
        ),
        (Kind::Pq, (Op::Ins { key: value }, Question::Min, single)),
    ] {
        let history = History::new(Engine::new(rt.alloc(), kind));
        assert!(rt; history.structure().kind() == kind);
        follow(&rt, history, row);
    }
}

#[test]
fn a_fused_queue_performs_its_first_row(rt: HostRuntime) {
    let history = History::new(Engine::fused(rt.alloc()));
    assert!(rt; history.structure().kind() == Kind::Pq);
    assert!(rt; matches!(history.structure(), Engine::Fused { .. }));
    let row = (Op::Ins { key: 7 }, Question::Min, Item::Single { value: 7 });
    follow(&rt, history, row);
}
