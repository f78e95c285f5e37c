//! Edits that are undone and redone.

use retro_base::{Change, Kind, MAX_NEXT, MAX_ROWS, Op, PlainList, Row};
use std::alloc::Global;
use std::process::Abort;
use timeline_undo::{EditError, Put, Session, Target, Turn, Turns, UndoError};

/// A session over a plain list.
type Plain = Session<PlainList>;

const PUSH: Op = Op::Push { value: 1 };

/// Puts a row in at a time, as a script does.
fn put_at(rt: &impl Abort, session: &mut Plain, time: u64, op: Op) -> Result<Put, EditError> {
    assert!(rt; !session.spent());
    assert!(rt; op.kind() == session.kind());
    assert!(rt; session.next() < MAX_NEXT);
    assert!(rt; session.timeline().len() < MAX_ROWS);
    let place = session.timeline().place_at(time);
    session.put(place, time, op)
}

/// Takes the row with this number out.
fn cut_row(rt: &impl Abort, session: &mut Plain, number: u32) -> Result<Turn, EditError> {
    assert!(rt; !session.spent());
    let place = session
        .timeline()
        .place_of(number)
        .expect(rt, "a row has the number");
    session.cut(place)
}

/// The numbers of the rows are these, in this order.
fn expect_numbers(rt: &impl Abort, session: &Plain, numbers: &[u32]) {
    assert!(rt; !session.spent());
    assert!(rt; session.timeline().len() as usize == numbers.len());
    for (place, number) in numbers.iter().enumerate() {
        assert!(rt; place < session.timeline().len() as usize);
        assert!(rt; session.timeline().row_at(place as u32).number == *number);
    }
}

/// The number that the next row draws.
fn expect_next(rt: &impl Abort, session: &Plain, number: u32) {
    assert!(rt; !session.spent());
    assert!(rt; session.next() == number);
}

fn turn(added: bool, place: u32, number: u32, time: u64, op: Op) -> Turn {
    Turn {
        added,
        place,
        row: Row { number, time, op },
        change: Change::Plain,
    }
}

/// The one list edit of an undo or a redo.
fn single(added: bool, place: u32, number: u32, time: u64, op: Op) -> Turns {
    Turns::Single {
        turn: turn(added, place, number, time, op),
    }
}

/// Replaces the row with this number.
fn shift_row(
    rt: &impl Abort,
    session: &mut Plain,
    number: u32,
    target: Target,
) -> Result<Turns, EditError> {
    assert!(rt; !session.spent());
    if let Target::Into { op } = target {
        assert!(rt; op.kind() == session.kind());
    }
    assert!(rt; session.next() < MAX_NEXT);
    assert!(rt; session.timeline().len() < MAX_ROWS);
    let place = session
        .timeline()
        .place_of(number)
        .expect(rt, "a row has the number");
    session.shift(place, target)
}

/// Puts rows in, each at its time, and sees what comes of it: the number that it draws, or why it is refused.
fn expect_put(rt: &impl Abort, session: &mut Plain, rows: &[(u64, Op, Result<u32, EditError>)]) {
    for (time, op, expected) in rows {
        let found = put_at(rt, session, *time, *op).map(|put| put.number);
        assert!(rt; found == *expected);
    }
}

fn expect_cut(
    rt: &impl Abort,
    session: &mut Plain,
    number: u32,
    expected: Result<Turn, EditError>,
) {
    assert!(rt; cut_row(rt, session, number) == expected);
}

fn expect_undone(rt: &impl Abort, session: &mut Plain, steps: &[Result<Turns, UndoError>]) {
    for expected in steps {
        assert!(rt; !session.spent());
        assert!(rt; session.undo() == *expected);
    }
}

fn expect_redone(rt: &impl Abort, session: &mut Plain, steps: &[Result<Turns, UndoError>]) {
    for expected in steps {
        assert!(rt; !session.spent());
        assert!(rt; session.redo() == *expected);
    }
}

fn fails(number: u32, time: u64) -> EditError {
    EditError::Fails { number, time }
}

/// A session of a stack whose rows #1 and #2 push at 10 and pop at 20; two others were refused.
fn push_and_pop(rt: &impl Abort, alloc: Global) -> Plain {
    let stack = PlainList::new(alloc, Kind::Stack);
    let mut session = Session::new(alloc, stack, 1).expect(rt, "memory");
    let rows = [
        (10, PUSH, Ok(1)),
        (5, Op::Pop, Err(fails(2, 5))),
        (20, Op::Pop, Ok(2)),
        (30, Op::Pop, Err(fails(3, 30))),
    ];
    expect_put(rt, &mut session, &rows);
    session
}

/// Another step empties what can be redone.
fn expect_steps(rt: &impl Abort, session: &mut Plain) {
    let nothing = Err(UndoError::Nothing);
    let put = single(false, 0, 1, 10, PUSH);
    let again = single(true, 0, 1, 10, PUSH);
    expect_cut(rt, session, 1, Err(fails(2, 20)));
    let popped = single(false, 1, 2, 20, Op::Pop);
    expect_undone(rt, session, &[Ok(popped), Ok(put), nothing]);
    expect_redone(rt, session, &[Ok(again)]);
    expect_cut(rt, session, 1, Ok(turn(false, 0, 1, 10, PUSH)));
    expect_redone(rt, session, &[nothing]);
    expect_undone(rt, session, &[Ok(again)]);
    expect_numbers(rt, session, &[1]);
    expect_next(rt, session, 3);
}

#[test]
fn steps_are_undone_and_made_again(rt: HostRuntime) {
    let mut session = push_and_pop(&rt, rt.alloc());
    expect_steps(&rt, &mut session);
    drop(session);
}

/// A row that adds is put in before the old one is cut, and one that takes after it.
fn expect_shifts(rt: &impl Abort, session: &mut Plain) {
    let rows = [
        (
            1,
            Target::At { time: 15 },
            Ok(Turns::Double {
                first: turn(true, 1, 3, 15, PUSH),
                second: turn(false, 0, 1, 10, PUSH),
            }),
        ),
        (
            2,
            Target::At { time: 30 },
            Ok(Turns::Double {
                first: turn(false, 1, 2, 20, Op::Pop),
                second: turn(true, 1, 4, 30, Op::Pop),
            }),
        ),
        (4, Target::At { time: 5 }, Err(fails(5, 5))),
        (3, Target::Into { op: Op::Pop }, Err(fails(5, 15))),
    ];
    for (number, target, expected) in rows {
        assert!(rt; shift_row(rt, session, number, target) == expected);
    }
}

/// Undo and redo make both edits of a step.
fn expect_both_edits(rt: &impl Abort, session: &mut Plain) {
    let first_back = Turns::Double {
        first: turn(true, 0, 1, 10, PUSH),
        second: turn(false, 1, 3, 15, PUSH),
    };
    let second_back = Turns::Double {
        first: turn(false, 1, 4, 30, Op::Pop),
        second: turn(true, 1, 2, 20, Op::Pop),
    };
    let again = Turns::Double {
        first: turn(true, 1, 3, 15, PUSH),
        second: turn(false, 0, 1, 10, PUSH),
    };
    expect_undone(rt, session, &[Ok(second_back), Ok(first_back)]);
    expect_numbers(rt, session, &[1, 2]);
    expect_redone(rt, session, &[Ok(again)]);
    expect_numbers(rt, session, &[3, 2]);
}

#[test]
fn rows_are_replaced_in_one_step(rt: HostRuntime) {
    let mut session = push_and_pop(&rt, rt.alloc());
    expect_shifts(&rt, &mut session);
    expect_both_edits(&rt, &mut session);
    expect_next(&rt, &session, 5);
    drop(session);
}
