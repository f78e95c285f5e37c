//! Lines that a bench answers.

use engine::Engine;
use retro_base::{Name, Text};
use std::alloc::Global;
use std::process::Abort;
use workbench::Bench;

/// What a bench that memory has sufficed for answers to a line that is not long.
fn answer(rt: &impl Abort, bench: &mut Bench, line: &[u8]) -> Text {
    assert!(rt; line.len() <= 4096);
    assert!(rt; !bench.spent());
    bench.line(line, false).expect(rt, "memory").text
}

/// What it answers to the end of the input.
fn last_answer(rt: &impl Abort, bench: &mut Bench) -> Text {
    assert!(rt; !bench.spent());
    bench.end().expect(rt, "memory").text
}

/// Whether the timeline of this name is held as a product of pieces.
fn is_fused(rt: &impl Abort, bench: &Bench, name: &[u8]) -> bool {
    let name = Name::read(name).expect(rt, "a name");
    assert!(rt; !bench.spent());
    let session = bench.session(&name).expect(rt, "a timeline");
    matches!(session.structure(), Engine::Fused { .. })
}

fn expect_lines(rt: &impl Abort, bench: &mut Bench, lines: &[(&[u8], &[u8])]) {
    for (line, expected) in lines {
        assert!(rt; answer(rt, bench, *line).as_bytes() == *expected);
    }
}

const STARTS: [(&[u8], &[u8]); 2] = [(b"new p pq", b"ok\n"), (b"new f pqf", b"ok\n")];

const EDITS: [(&[u8], &[u8]); 4] = [
    (
        b"p at 5 ins 4",
        b"edit p add 0 #1 ins 4 bridge 0 gain #1 4\n",
    ),
    (
        b"f at 5 ins 4",
        b"edit f add 0 #1 ins 4 bridge 0 gain #1 4\n",
    ),
    (b"f ask all", b"= 4\n"),
    (b"f frob", b"refused syntax\n"),
];

const LOADS: [(&[u8], &[u8]); 5] = [
    (b"timeline l pq next 2", b""),
    (b"#1 5 ins 4", b""),
    (b"end", b"ok\nedit l add 0 #1 ins 4 bridge 0 gain #1 4\n"),
    (b"timeline q queue next 2", b""),
    (b"#1 5 enq 1", b""),
];

/// Which of two priority queues is held as a product of pieces.
fn expect_held(rt: &impl Abort, bench: &Bench) {
    assert!(rt; !is_fused(rt, bench, b"p"));
    assert!(rt; is_fused(rt, bench, b"f"));
}

/// A word chooses how a priority queue is held, behind its first line and behind an edit, and changes no answer. One that is loaded is held
/// by checkpoints. The end of the input closes a block that is being read.
#[test]
fn a_bench_answers_line_by_line(rt: HostRuntime) {
    let mut bench = Bench::new(rt.alloc());
    expect_lines(&rt, &mut bench, &STARTS);
    expect_held(&rt, &bench);
    expect_lines(&rt, &mut bench, &EDITS);
    expect_held(&rt, &bench);
    expect_lines(&rt, &mut bench, &LOADS);
    assert!(&rt; !is_fused(&rt, &bench, b"l"));
    let last = last_answer(&rt, &mut bench);
    assert!(&rt; last.as_bytes() == b"refused unfinished\n".as_slice());
    drop(bench);
}
