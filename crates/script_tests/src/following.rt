//! Followers, and what they report.

use evidence::read_evidence;
use followers::{Follower, Mirror, Tally, feed};
use retro_base::{Name, Text};
use std::alloc::Global;
use std::process::Abort;

/// What three tallies and the mirrors of `p` and `q` report after these lines of evidence; an empty one is none.
const REPORTED: [([&[u8]; 5], &[u8], &[u8], &[u8]); 4] = [
    (
        [b"", b"", b"", b"", b""],
        b"gains 0 losses 0 sum 0",
        b"mirror p empty",
        b"mirror q empty",
    ),
    // What an edit of the past changes is one entry, gained back.
    (
        [
            b"edit p add 0 #1 ins 4 bridge 0 gain #1 4",
            b"edit p add 1 #2 delmin bridge 1 lose #1 4",
            b"edit p add 0 #3 ins 2 bridge 0 gain #1 4",
            b"",
            b"",
        ],
        b"gains 2 losses 1 sum 4",
        b"mirror p 4",
        b"mirror q empty",
    ),
    // Entries stand by key, then by number, and the one that is named goes.
    (
        [
            b"edit p add 0 #2 ins 5 bridge 0 gain #2 5",
            b"edit q add 0 #1 ins 7 bridge 0 gain #1 7",
            b"edit p add 0 #1 ins 5 bridge 0 gain #1 5",
            b"edit p add 2 #3 ins -1 bridge 2 gain #3 -1",
            b"edit p cut 1 #2 ins 5 bridge none lose #2 5",
        ],
        b"gains 4 losses 1 sum 11",
        b"mirror p -1 5",
        b"mirror q 7",
    ),
    // An entry that is not there is none to take out.
    (
        [
            b"edit p add 0 #1 ins 3 bridge 0 gain #1 3",
            b"edit p cut 0 #2 ins 3 bridge none lose #2 3",
            b"",
            b"",
            b"",
        ],
        b"gains 1 losses 1 sum 0",
        b"mirror p 3",
        b"mirror q empty",
    ),
];

/// Hands some lines of evidence to three tallies and the mirrors of `p` and `q`, and sees what each reports.
fn expect_reports(rt: &impl Abort, alloc: Global, lines: &[&[u8]], reports: [&[u8]; 5]) {
    let p = Name::read(b"p").expect(rt, "a name");
    let q = Name::read(b"q").expect(rt, "a name");
    let mut followers: Vec<Box<dyn Follower>> = Vec::new(alloc);
    for _ in 0..3 {
        let tally = Box::new(alloc, Tally::new()).expect(rt, "memory");
        followers.push(tally).expect(rt, "memory");
    }
    for name in [p, q] {
        let mirror = Box::new(alloc, Mirror::new(alloc, name)).expect(rt, "memory");
        followers.push(mirror).expect(rt, "memory");
    }
    for line in lines {
        if let Some(event) = read_evidence(line) {
            feed(&mut followers, &event).expect(rt, "memory");
        }
    }
    assert!(rt; followers.len() == reports.len());
    for (follower, report) in followers.iter().zip(reports) {
        let mut text = Text::new(alloc);
        follower.report(&mut text).expect(rt, "memory");
        assert!(rt; text.as_bytes() == report);
    }
}

#[test]
fn followers_report_what_they_took(rt: HostRuntime) {
    for (lines, tally, of_p, of_q) in REPORTED {
        expect_reports(&rt, rt.alloc(), &lines, [tally, tally, tally, of_p, of_q]);
    }
}
