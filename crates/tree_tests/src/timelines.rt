//! Rows in order of time.

use order_timeline::Timeline;
use retro_base::{Op, Row};
use std::alloc::Global;
use std::process::Abort;

const FIRST: Row = Row {
    number: 1,
    time: 10,
    op: Op::Deq,
};

const SECOND: Row = Row {
    number: 2,
    time: 10,
    op: Op::Deq,
};

/// The rows #1 and #2, both at time 10.
fn two_rows(rt: &impl Abort, alloc: Global) -> Timeline {
    let mut timeline = Timeline::new(alloc);
    timeline.insert(0, FIRST).expect(rt, "memory");
    timeline.insert(1, SECOND).expect(rt, "memory");
    timeline
}

fn expect_rows(rt: &impl Abort, timeline: &Timeline, rows: &[Row]) {
    assert!(rt; timeline.len() as usize == rows.len());
    for (place, row) in rows.iter().enumerate() {
        assert!(rt; place < timeline.len() as usize);
        assert!(rt; timeline.row_at(place as u32) == *row);
    }
}

fn expect_times(rt: &impl Abort, timeline: &Timeline) {
    for (time, place) in [(0, 0), (9, 0), (10, 2), (u64::MAX, 2)] {
        assert!(rt; timeline.place_at(time) == place);
    }
}

fn expect_numbers(rt: &impl Abort, timeline: &Timeline, numbers: &[(u32, Option<u32>)]) {
    for (number, place) in numbers {
        assert!(rt; timeline.place_of(*number) == *place);
    }
}

fn expect_copies(rt: &impl Abort, timeline: &Timeline) {
    for (from, count, copies) in [
        (0, 2, [FIRST, SECOND]),
        (1, 1, [SECOND, SECOND]),
        (2, 0, [SECOND, SECOND]),
    ] {
        assert!(rt; from <= timeline.len());
        let mut rows = [SECOND; 2];
        assert!(rt; timeline.read_rows(from, &mut rows) == count);
        assert!(rt; rows == copies);
    }
}

fn cut_first(rt: &impl Abort, timeline: &mut Timeline) -> Row {
    assert!(rt; 0 < timeline.len());
    timeline.remove(0)
}

#[test]
fn rows_are_found_by_place_time_and_number(rt: HostRuntime) {
    let mut timeline = two_rows(&rt, rt.alloc());
    expect_rows(&rt, &timeline, &[FIRST, SECOND]);
    expect_times(&rt, &timeline);
    let numbers = [(0, None), (1, Some(0)), (2, Some(1)), (7, None)];
    expect_numbers(&rt, &timeline, &numbers);
    expect_copies(&rt, &timeline);
    assert!(rt; cut_first(&rt, &mut timeline) == FIRST);
    expect_rows(&rt, &timeline, &[SECOND]);
    expect_numbers(&rt, &timeline, &[(1, None), (2, Some(0))]);
    drop(timeline);
}
