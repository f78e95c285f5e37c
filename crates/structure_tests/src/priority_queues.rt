//! A priority queue, whatever it is held by.

use super::history::{History, Step};
use retro_base::{Answer, Change, Entry, Kind, Op, PlainList, Question, Retro};
use std::process::Abort;

pub(crate) const TWO: Op = Op::Ins { key: 2 };

pub(crate) const FOUR: Op = Op::Ins { key: 4 };

/// The entry of the row `ins 4`.
pub(crate) const ENTRY: Entry = Entry { key: 4, number: 1 };

pub(crate) const GAINED: Change = Change::Gain {
    bridge: 0,
    entry: ENTRY,
};

pub(crate) const TAKEN: Change = Change::Lose {
    bridge: Some(1),
    entry: ENTRY,
};

pub(crate) const LOST: Change = Change::Lose {
    bridge: Some(3),
    entry: ENTRY,
};

/// The history `ins 4`, `delmin`, into which `ins 2` comes first.
const THREE_ROWS: &[Step<'static>] = &[
    Step::Put(0, 0, FOUR, GAINED),
    Step::Rows(1),
    Step::Put(1, 0, Op::DelMin, TAKEN),
    Step::FailsWith(1, Op::DelMin, Some(2)),
    Step::FailsWith(2, Op::DelMin, Some(2)),
    Step::FailsWithout(0, Some(0)),
    Step::Put(0, 0, TWO, GAINED),
    Step::Rows(3),
    Step::FailsWith(0, Op::DelMin, Some(0)),
    Step::FailsWith(1, Op::DelMin, None),
    Step::FailsWith(2, Op::DelMin, None),
    Step::FailsWith(3, Op::DelMin, None),
    Step::FailsWithout(0, None),
    Step::FailsWithout(1, None),
    Step::FailsWithout(2, None),
    Step::AskNow(Question::Size, Answer::Number { value: 1 }),
    Step::AskNow(Question::Min, Answer::Number { value: 4 }),
    Step::AskNow(Question::Nth { index: 1 }, Answer::Nothing),
];

/// What is answered of its past, each time that it is asked.
const PAST: &[Step<'static>] = &[
    Step::Ask(0, Question::Min, Answer::Nothing),
    Step::Ask(1, Question::Min, Answer::Number { value: 2 }),
    Step::Ask(2, Question::Min, Answer::Number { value: 2 }),
    Step::Ask(3, Question::Min, Answer::Number { value: 4 }),
    Step::Values(2, &[2, 4]),
    Step::Values(3, &[4]),
];

/// The row that came in first goes, and with it what it had left over.
pub(crate) const FIRST_GOES: &[Step<'static>] = &[
    Step::Rows(3),
    Step::Cut(0, (3, 0, TWO), LOST),
    Step::Values(2, &[]),
];

/// Plays the history, and asks twice of its past.
pub(crate) fn play_three_rows<R: Retro + Drop>(rt: &impl Abort, history: &mut History<R>) {
    history.play(rt, THREE_ROWS);
    history.play(rt, PAST);
    history.play(rt, PAST);
}

#[test]
fn the_plain_list_is_edited_before_the_others(rt: HostRuntime) {
    let mut history = History::new(PlainList::new(rt.alloc(), Kind::Pq));
    play_three_rows(&rt, &mut history);
    history.play(&rt, FIRST_GOES);
    drop(history);
}
