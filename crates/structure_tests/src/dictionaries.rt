//! The dictionary, beside the plain list of its kind, and the lifetimes of its pairs.

use super::history::{History, Step, play_plain};
use lifetime_segments::Segments;
use retro_base::{Answer, Change, Item, Kind, Op, Question};
use retro_dictionary::{Found, KeyPair, KeyRange, PairSearch, RetroDictionary};
use std::process::Abort;

const GET: Question = Question::Get { key: 1 };

const COUNT: Question = Question::Count { low: 0, high: 9 };

const SUM: Question = Question::Sum { low: 0, high: 9 };

const TEN: Answer = Answer::Number { value: 10 };

const TWENTY: Answer = Answer::Number { value: 20 };

const DEL: Op = Op::Del { key: 1 };

/// `put 1 10` and `put 1 20`, between which `del 1` comes in; then the last two of them go.
const BETWEEN: &[Step<'static>] = &[
    Step::FailsWith(0, DEL, Some(0)),
    Step::Put(0, 0, Op::Put { key: 1, value: 10 }, Change::Plain),
    Step::Put(1, 0, Op::Put { key: 1, value: 20 }, Change::Plain),
    Step::Ask(1, GET, TEN),
    Step::Ask(2, GET, TWENTY),
    Step::Put(1, 0, DEL, Change::Plain),
    Step::Ask(0, GET, Answer::Nothing),
    Step::Ask(1, GET, TEN),
    Step::Ask(2, GET, Answer::Nothing),
    Step::Ask(2, COUNT, Answer::Number { value: 0 }),
    Step::Ask(3, SUM, TWENTY),
    Step::FailsWithout(0, Some(0)),
    Step::FailsWithout(1, None),
    Step::FailsWith(0, DEL, Some(0)),
    Step::FailsWith(1, DEL, Some(2)),
    Step::FailsWith(3, DEL, None),
    Step::Cut(1, (3, 0, DEL), Change::Plain),
    Step::Ask(1, GET, TEN),
    Step::Ask(2, GET, TWENTY),
    Step::Cut(1, (2, 0, Op::Put { key: 1, value: 20 }), Change::Plain),
    Step::AskNow(SUM, TEN),
];

/// `put 1 10` and `del 1`, which goes.
const DELETED: &[Step<'static>] = &[
    Step::Put(0, 5, Op::Put { key: 1, value: 10 }, Change::Plain),
    Step::Put(1, 5, DEL, Change::Plain),
    Step::FailsWith(1, DEL, Some(2)),
    Step::FailsWithout(0, Some(0)),
    Step::Ask(2, GET, Answer::Nothing),
    Step::Items(1, &[Item::Pair { key: 1, value: 10 }]),
    Step::Rows(2),
    Step::Cut(1, (2, 5, DEL), Change::Plain),
    Step::Rows(1),
    Step::Ask(1, GET, TEN),
];

#[test]
fn a_row_comes_in_between(rt: HostRuntime) {
    play_plain(&rt, rt.alloc(), Kind::Dict, DELETED);
    let mut history = History::new(RetroDictionary::new(rt.alloc()));
    history.play(&rt, BETWEEN);
    drop(history);
}

const LOW: Item = Item::Pair {
    key: i64::MIN,
    value: i64::MAX,
};

const HIGH: Item = Item::Pair {
    key: i64::MAX,
    value: i64::MAX,
};

/// The least key and the greatest one.
const BOTH_ENDS: &[Step<'static>] = &[
    Step::Put(
        0,
        0,
        Op::Put {
            key: i64::MIN,
            value: i64::MAX,
        },
        Change::Plain,
    ),
    Step::Put(
        1,
        0,
        Op::Put {
            key: i64::MAX,
            value: i64::MAX,
        },
        Change::Plain,
    ),
    Step::Items(2, &[LOW, HIGH]),
    Step::Items(1, &[LOW]),
    Step::Items(0, &[]),
];

#[test]
fn the_least_and_the_greatest_key_are_there(rt: HostRuntime) {
    let mut history = History::new(RetroDictionary::new(rt.alloc()));
    history.play(&rt, BOTH_ENDS);
    drop(history);
}

const FORTY_ONE: &[Step<'static>] = &[
    Step::Ask(0, GET, Answer::Nothing),
    Step::Ask(1, GET, Answer::Number { value: 40 }),
    Step::Ask(20, GET, Answer::Number { value: 21 }),
    Step::Ask(41, GET, Answer::Number { value: 0 }),
];

/// Rows that each come in before all others, so many that they do not all halve the first label.
#[test]
fn rows_come_in_before_all_others(rt: HostRuntime) {
    let mut history = History::new(RetroDictionary::new(rt.alloc()));
    for value in 0..41 {
        history.put(&rt, 0, 0, Op::Put { key: 1, value });
    }
    history.play(&rt, FORTY_ONE);
    drop(history);
}

const FIRST: KeyPair = KeyPair { key: 1, value: 10 };

const SECOND: KeyPair = KeyPair { key: 2, value: 20 };

/// What is found of these two at a label, as far as they are there.
fn wanted(first: bool, second: bool) -> Found {
    match (first, second) {
        (false, false) => found(0, 0, None, None),
        (true, false) => found(1, 10, Some(FIRST), Some(FIRST)),
        (false, true) => found(1, 20, Some(SECOND), Some(SECOND)),
        (true, true) => found(2, 30, Some(FIRST), Some(SECOND)),
    }
}

fn found(count: u32, sum: i128, least: Option<KeyPair>, greatest: Option<KeyPair>) -> Found {
    Found {
        count,
        sum,
        least,
        greatest,
    }
}

/// Sees that so much is found of a range of keys at a label.
fn expect_found(
    rt: &impl Abort,
    segments: &Segments<PairSearch>,
    (label, low, high): (u64, i64, i64),
    found: Found,
) {
    assert!(rt; label < 1 << 40);
    assert_eq!(rt; segments.ask(label, KeyRange { low, high }), found);
}

#[test]
fn pairs_are_found_by_their_lifetimes(rt: HostRuntime) {
    let mut segments = Segments::<PairSearch>::new(rt.alloc());
    segments.add(2, 8, FIRST).expect(&rt, "memory");
    segments.add(4, 1 << 40, SECOND).expect(&rt, "memory");
    for (place, first, second) in [
        ((1, 0, 9), false, false),
        ((2, 0, 9), true, false),
        ((3, 0, 9), true, false),
        ((4, 0, 9), true, true),
        ((5, 0, 9), true, true),
        ((7, 0, 9), true, true),
        ((8, 0, 9), false, true),
        (((1 << 40) - 1, 0, 9), false, true),
        ((5, 0, 0), false, false),
        ((5, 0, 1), true, false),
        ((5, 1, 1), true, false),
        ((5, 2, 2), false, true),
        ((5, 2, 9), false, true),
        ((5, 3, 9), false, false),
        ((5, 2, 1), false, false),
    ] {
        expect_found(&rt, &segments, place, wanted(first, second));
    }
    assert!(rt; segments.take(2, 8, FIRST));
    assert!(rt; !segments.take(2, 8, FIRST));
    expect_found(&rt, &segments, (5, 0, 9), wanted(false, true));
    drop(segments);
}
