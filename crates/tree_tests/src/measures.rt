//! The measures.

use monoid_laws::{Both, Count, Greatest, GreatestPrefix, Least, LeastPrefix, Monoid, Sum};

#[test]
fn sums_are_exact(rt: HostRuntime) {
    let sum = Sum::single(i64::MIN)
        .join(Sum::single(i64::MIN))
        .join(Sum::single(7));
    assert!(rt; sum.sum() == -18446744073709551609);
    assert!(rt; sum.items() == 3);
}

// The prefixes of 1, -1, -1, 0, 1 have the sums 0, 1, 0, -1, -1, 0.
#[test]
fn prefixes_count_the_empty_one(rt: HostRuntime) {
    let (up, level, down) = (
        LeastPrefix::single(1),
        LeastPrefix::single(0),
        LeastPrefix::single(-1),
    );
    let least = up.join(down).join(down).join(level).join(up);
    let (up, level, down) = (
        GreatestPrefix::single(1),
        GreatestPrefix::single(0),
        GreatestPrefix::single(-1),
    );
    let greatest = up.join(down).join(down).join(level).join(up);
    assert!(rt; (least.sum(), least.least(), least.items()) == (0, -1, 5));
    assert!(rt; (greatest.sum(), greatest.greatest(), greatest.items()) == (0, 1, 5));
    assert!(rt; LeastPrefix::single(1).least() == 0);
    assert!(rt; GreatestPrefix::single(-1).greatest() == 0);
}

// Of none, 4, 9, none, 9, 4.
#[test]
fn extremes_are_the_first_of_equal_ones(rt: HostRuntime) {
    let (none, four, nine): (Greatest<i64>, _, _) = (
        Greatest::single(None),
        Greatest::single(Some(4)),
        Greatest::single(Some(9)),
    );
    let greatest = none.join(four).join(nine).join(none).join(nine).join(four);
    let (absent, four, nine): (Least<i64>, _, _) = (
        Least::single(None),
        Least::single(Some(4)),
        Least::single(Some(9)),
    );
    let least = absent
        .join(four)
        .join(nine)
        .join(absent)
        .join(nine)
        .join(four);
    assert!(rt; (greatest.element(), greatest.offset()) == (Some(9), Some(2)));
    assert!(rt; (least.element(), least.offset()) == (Some(4), Some(1)));
    assert!(rt; (none.element(), none.offset()) == (None, None));
}

#[test]
fn both_join_side_by_side(rt: HostRuntime) {
    let both = Both::single(Count::single(), Sum::single(5)).join(Both::single(
        Count::single(),
        Sum::single(-7),
    ));
    assert!(rt; (both.items(), both.first().items(), both.second().sum()) == (2, 2, -2));
    let unit: Both<Count, Sum> = Both::unit();
    assert!(rt; (unit.items(), unit.second().sum()) == (0, 0));
}
