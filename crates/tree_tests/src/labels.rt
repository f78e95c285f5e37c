//! Labels of rows.

ghost use Rattle.std.specs.Prelude.{◌≡◌, ◌+◌, ◌<◌, ◌≤◌, length};
ghost use Rattle.std.specs.List.{insert};
ghost use Rattle.order_labels.specs.Labels.{label_after, label_before, label_limit};
ghost use Rattle.retro_base.specs.Limits.{most_rows};

use order_labels::{Fresh, Labels, gap_of};
use std::process::Abort;

/// Labels a new row at a place, and sees that it gets this label.
fn put(rt: &impl Abort, labels: &mut Labels, place: u32, label: u64, relabelled: bool)
    requires within { place ≤ length labels.old }
    requires room { length labels.old < most_rows }
    ensures { length labels.new ≡ length labels.old + 1 }
{
    let fresh = labels.insert(place).expect(rt, "memory");
    assert_eq!(rt; fresh, Fresh { label, relabelled });
}

#[test]
fn labels_halve_what_is_left(rt: HostRuntime) {
    let mut labels = Labels::new(rt.alloc());
    put(&rt, &mut labels, 0, 549_755_813_888, false);
    assert_eq!(rt; labels.len(), 1);
    put(&rt, &mut labels, 1, 824_633_720_832, false);
    assert_eq!(rt; labels.len(), 2);
    for (label, place) in [
        (549_755_813_888, Some(0)),
        (824_633_720_832, Some(1)),
        (0, None),
        (7, None),
        (600_000_000_000, None),
        (u64::MAX, None),
    ] {
        assert_eq!(rt; labels.place_of_label(label), place);
    }
    labels.remove(0);
    assert_eq!(rt; labels.len(), 1);
    assert_eq!(rt; labels.place_of_label(824_633_720_832), Some(0));
    drop(labels);
}

#[test]
fn forty_insertions_at_the_front_use_the_labels_up(rt: HostRuntime) {
    let mut labels = Labels::new(rt.alloc());
    for digit in 0..40u32 {
        assert!(rt; labels.len() < 40);
        put(&rt, &mut labels, 0, 1u64 << (39 - digit), false);
    }
    assert_eq!(rt; labels.len(), 40);
    assert_eq!(rt; gap_of(41), 17_179_869_184);
    put(&rt, &mut labels, 0, 17_179_869_184, true);
    assert_eq!(rt; labels.len(), 41);
    for place in 0..41u32 {
        assert_eq!(rt; labels.len(), 41);
        assert_eq!(rt;
            labels.label_at(place),
            (u64::from(place) + 1) * 17_179_869_184
        );
    }
    drop(labels);
}

/// Gives a new row at a place this label.
fn insert_labelled(rt: &impl Abort, labels: &mut Labels, place: u32, label: u64)
    requires within { place ≤ length labels.old }
    requires room { length labels.old < most_rows }
    requires above { label_before 0 labels.old place < label }
    requires below { label < label_after label_limit labels.old place }
    ensures { labels.new ≡ insert labels.old place label }
{
    labels.insert_labelled(place, label).expect(rt, "memory");
}

/// The labels beside a place, in their order.
fn beside(rt: &impl Abort, labels: &Labels, place: u32) -> [u64; 4] {
    assert!(rt; place <= labels.len());
    let beside = labels.beside(place);
    [beside.former, beside.before, beside.after, beside.later]
}

#[test]
fn a_label_is_chosen_by_the_caller(rt: HostRuntime) {
    let mut labels = Labels::new(rt.alloc());
    insert_labelled(&rt, &mut labels, 0, 7);
    insert_labelled(&rt, &mut labels, 1, (1 << 40) - 1);
    insert_labelled(&rt, &mut labels, 1, 8);
    for (place, label) in [(0, 7), (1, 8), (2, (1 << 40) - 1)] {
        assert!(rt; place < labels.len());
        assert_eq!(rt; labels.label_at(place), label);
    }
    assert_eq!(rt; labels.place_of_label(8), Some(1));
    for (place, labels_beside) in [
        (0, [0, 0, 7, 8]),
        (1, [0, 7, 8, (1 << 40) - 1]),
        (2, [7, 8, (1 << 40) - 1, 1 << 40]),
        (3, [8, (1 << 40) - 1, 1 << 40, 1 << 40]),
    ] {
        assert_eq!(rt; beside(&rt, &labels, place), labels_beside);
    }
    drop(labels);
}
