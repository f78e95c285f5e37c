//! The past by checkpoints. How they move, and how a gap between two is split, is seen on the built program.

ghost use Rattle.std.specs.Prelude.{◌≡◌, []};

use super::history::History;
use super::priority_queues::{FIRST_GOES, play_three_rows};
use bridge_pq::BridgeQueue;
use checkpoint_full::Full;
use retro_base::{Answer, Op, Question};
use std::alloc::Global;
use std::process::Abort;

type Checkpoints = Full<BridgeQueue>;

fn empty(alloc: Global) -> Checkpoints
    ensures { result.rows ≡ [] }
{
    Full::new(alloc, BridgeQueue::new(alloc))
}

fn number(value: i128) -> Answer {
    Answer::Number { value }
}

#[test]
fn a_row_comes_in_before_the_others(rt: HostRuntime) {
    let mut history = History::new(empty(rt.alloc()));
    play_three_rows(&rt, &mut history);
    history.play(&rt, FIRST_GOES);
    drop(history);
}

/// Sees that all is as it was after so many rows that add.
fn look(rt: &impl Abort, history: &mut History<Checkpoints>, rows: u32) {
    assert!(rt; history.len() == rows);
    for place in [0, rows / 4, rows / 2, rows] {
        let size = history.ask(rt, place, Question::Size);
        assert!(rt; size == number(i128::from(place)));
    }
}

/// Puts a row in at a place; where there is no memory for it, all is as before, and it is put in once more.
fn add_again(rt: &impl Abort, history: &mut History<Checkpoints>, place: u32) {
    let rows = history.len();
    if history.try_put(rt, place, 0, Op::Ins { key: 0 }).is_err() {
        look(rt, history, rows);
        history.put(rt, place, 0, Op::Ins { key: 0 });
    }
}

/// Asks at a place; where there is no memory for it, all is as before, and it is asked once more.
fn ask_again(rt: &impl Abort, history: &mut History<Checkpoints>, place: u32) {
    let rows = history.len();
    match history.try_ask(rt, place, Question::Size) {
        Ok(answer) => assert_eq!(rt; answer, number(i128::from(place))),
        Err(_) => look(rt, history, rows),
    }
}

#[test]
fn a_growth_that_fails_changes_nothing(rt: HostRuntime) {
    let mut history = History::new(empty(rt.alloc()));
    for _ in 0..2100u32 {
        add_again(&rt, &mut history, 0);
    }
    ask_again(&rt, &mut history, 1000);
    for place in [0, 1000, 1500, 2100] {
        add_again(&rt, &mut history, place);
        ask_again(&rt, &mut history, 700);
    }
    assert!(&rt; history.len() == 2104);
    ask_again(&rt, &mut history, 1052);
    ask_again(&rt, &mut history, 2104);
    drop(history);
}
