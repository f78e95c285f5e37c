//! The whole program over streams in memory, of which chosen calls fail.

ghost use Rattle.std.specs.Prelude.{◌≤◌, None};
ghost use Rattle.retro_io.specs.Faults.{last_count};

use followers::{Follower, Mirror, Tally};
use retro_base::Name;
use retro_cli::{Status, Words, run, run_followed, run_sending};
use retro_io::{Failed, MemorySink, MemorySource, Outbox, Sink};
use std::alloc::Global;
use std::process::Abort;

/// What the program is run on: its words, what its source gives and in which pieces, in which pieces its sink takes what it is handed, and
/// which calls of the streams fail.
#[derive(Clone, Copy)]
struct Given<'a> {
    words: &'a [&'a [u8]],
    script: &'a [u8],
    piece: u32,
    taking: u32,
    reads: &'a [u32],
    writes: &'a [u32],
}

impl<'a> Given<'a> {
    fn new(
        words: &'a [&'a [u8]],
        script: &'a [u8],
        (piece, taking): (u32, u32),
        (reads, writes): (&'a [u32], &'a [u32]),
    ) -> Given<'a> {
        Given {
            words,
            script,
            piece,
            taking,
            reads,
            writes,
        }
    }
}

/// What the sink has in the end, and the status.
type Ended<'a> = (&'a [u8], Status);

fn words_of(rt: &impl Abort, alloc: Global, given: &Given<'_>) -> Words {
    let mut words = Words::new(alloc);
    for word in given.words {
        assert!(rt; words.len() < 8);
        words.push(word).expect(rt, "memory");
    }
    words
}

fn source_of(rt: &impl Abort, alloc: Global, given: &Given<'_>) -> MemorySource {
    assert!(rt; 0 < given.piece);
    MemorySource::new(alloc, given.script, given.piece, given.reads).expect(rt, "memory")
}

fn sink_of(rt: &impl Abort, alloc: Global, given: &Given<'_>) -> MemorySink {
    assert!(rt; 0 < given.taking);
    MemorySink::new(alloc, 65536, given.taking, given.writes).expect(rt, "memory")
}

fn run_over<K: Sink>(rt: &impl Abort, alloc: Global, given: &Given<'_>, sink: &mut K) -> Status {
    let words = words_of(rt, alloc, given);
    let mut source = source_of(rt, alloc, given);
    run(alloc, &words, &mut source, sink)
}

fn expect_run(rt: &impl Abort, alloc: Global, given: &Given<'_>, (answers, status): Ended<'_>) {
    let mut sink = sink_of(rt, alloc, given);
    let ended = run_over(rt, alloc, given, &mut sink);
    assert!(rt; sink.written() == answers);
    assert!(rt; ended == status);
}

/// The same over an outbox before the sink, which is sent.
fn expect_gathered(
    rt: &impl Abort,
    alloc: Global,
    given: &Given<'_>,
    (answers, status): Ended<'_>,
) {
    let words = words_of(rt, alloc, given);
    let mut source = source_of(rt, alloc, given);
    let mut outbox = Outbox::new(alloc, sink_of(rt, alloc, given)).expect(rt, "memory");
    let ended = run_sending(alloc, &words, &mut source, &mut outbox, Vec::new(alloc));
    assert!(rt; outbox.sink().written() == answers);
    assert!(rt; ended == status);
}

/// It runs so as it is, and over an outbox.
fn expect_both(rt: &impl Abort, alloc: Global, given: Given<'_>, ended: Ended<'_>) {
    expect_run(rt, alloc, &given, ended);
    expect_gathered(rt, alloc, &given, ended);
}

const RUN: &[&[u8]] = &[b"run"];

const FOLLOW: &[&[u8]] = &[b"follow"];

const SCRIPT: &[u8] =
    b"new q queue\nq at 10 enq 5\nq at 20 enq 7\nq ask front\nq at 15 deq\nq ask front\n\
    q at 5 enq 9\nq ask front\n";

const ANSWERS: &[u8] = b"ok\nok #1\nok #2\n= 5\nok #3\n= 7\nok #4\n= 5\n";

/// The reads from one line's end to the next, each of one byte, the write that is the next, and how many bytes of the answers stand
/// there then.
const STAGES: [(u32, u32, u32, usize); 9] = [
    (0, 12, 0, 0),
    (12, 26, 1, 3),
    (26, 40, 2, 9),
    (40, 52, 3, 15),
    (52, 64, 4, 19),
    (64, 76, 5, 25),
    (76, 89, 6, 29),
    (89, 101, 7, 35),
    (101, 102, 8, 39),
];

/// The script in single bytes, over streams of which a read or a write fails.
fn expect_fault(rt: &impl Abort, alloc: Global, faults: (&[u32], &[u32]), ended: Ended<'_>) {
    expect_both(rt, alloc, Given::new(RUN, SCRIPT, (1, 4096), faults), ended);
}

/// Each read fails in turn, and each write: the answers to all lines before stand there. Over an outbox they have gone on by then.
#[test]
fn a_fault_leaves_the_answers_before_it(rt: HostRuntime) {
    for (from, to, write, length) in STAGES {
        assert!(rt; length <= ANSWERS.len());
        let answers = &ANSWERS[..length];
        for read in from..to {
            let ended = (answers, Status::ReadFault);
            expect_fault(&rt, rt.alloc(), (&[read], &[]), ended);
        }
        if write < 8 {
            let ended = (answers, Status::WriteFault);
            expect_fault(&rt, rt.alloc(), (&[], &[write]), ended);
        }
    }
}

/// A call after the last one is never made: the read behind the end, and the write behind the last answer.
#[test]
fn no_call_comes_after_the_last_one(rt: HostRuntime) {
    expect_fault(&rt, rt.alloc(), (&[102], &[8]), (ANSWERS, Status::Done));
}

/// Of a sink that takes one byte a write, each write fails in turn, and the one after the last byte is never made.
#[test]
fn a_write_that_fails_leaves_the_bytes_before_it(rt: HostRuntime) {
    for write in 0..40 {
        let size = write as usize;
        assert!(rt; size <= ANSWERS.len());
        let status = if size < ANSWERS.len() {
            Status::WriteFault
        } else {
            Status::Done
        };
        let writes = [write];
        let given = Given::new(RUN, SCRIPT, (512, 1), (&[], &writes));
        expect_both(&rt, rt.alloc(), given, (&ANSWERS[..size], status));
    }
}

/// A read fails after an answer, and within a block, which has no answer then.
#[test]
fn a_read_that_fails_leaves_an_open_block_unanswered(rt: HostRuntime) {
    let table: [(&[u8], u32, u32, &[u8]); 2] = [
        (b"new q queue\nq ask size\n", 16, 1, b"ok\n"),
        (b"timeline q queue next 3\n#1 10 enq 5\n", 1, 36, b""),
    ];
    for (script, piece, read, answers) in table {
        let reads = [read];
        let given = Given::new(RUN, script, (piece, 4096), (&reads, &[]));
        expect_both(&rt, rt.alloc(), given, (answers, Status::ReadFault));
    }
}

/// Where all lines come in one read, their answers go on in one write: the second one would fail.
#[test]
fn held_lines_are_answered_in_one_write(rt: HostRuntime) {
    let given = Given::new(RUN, SCRIPT, (512, 4096), (&[], &[1]));
    expect_gathered(&rt, rt.alloc(), &given, (ANSWERS, Status::Done));
}

/// A fault of reading leaves nothing of a judgement, and one of writing a part of it.
#[test]
fn each_status_has_its_code(rt: HostRuntime) {
    let check: &[&[u8]] = &[b"check"];
    let generate: &[&[u8]] = &[b"gen", b"pq", b"3", b"1"];
    let (frob, edit) = (b"q frob\n", b"ok\nedit \n");
    let table: [(&[&[u8]], &[u8], &[u32], &[u32], &[u8], Status, u8); 6] = [
        (RUN, SCRIPT, &[], &[], ANSWERS, Status::Done, 0),
        (RUN, frob, &[], &[], b"refused syntax\n", Status::Refused, 1),
        (&[], SCRIPT, &[], &[], b"", Status::Words, 2),
        (check, edit, &[2], &[], b"", Status::ReadFault, 3),
        (check, b"", &[], &[0], b"", Status::WriteFault, 4),
        (generate, b"", &[], &[0], b"", Status::WriteFault, 4),
    ];
    for (words, script, reads, writes, answers, status, code) in table {
        let given = Given::new(words, script, (3, 4096), (reads, writes));
        expect_run(&rt, rt.alloc(), &given, (answers, status));
        assert!(rt; status.code() == code);
    }
}

/// A sink that takes all, and of which the first flush fails and no later one.
#[derive(Drop)]
struct FirstFlushFails {
    flushes: u64,
    flushed: bool,
    faults: u64,
    ghost counted: { faults ≤ last_count },
}

impl Sink for FirstFlushFails {
    ghost written = { λ _. None };

    ghost flushed = { λ s. s.flushed };

    ghost faults = { λ s. s.faults };

    ghost writes = { λ _ _ _ _. Unit {0} };

    ghost flushes = { λ _ _ _. Unit {0} };

    fn write(&mut self, piece: &[u8]) -> Result<usize, Failed> {
        self.flushed = false;
        Ok(piece.len())
    }

    fn flush(&mut self) -> Result<(), Failed> {
        self.flushes = self.flushes.saturating_add(1);
        self.flushed = self.flushes > 1;
        if self.flushed {
            return Ok(());
        }
        self.faults = self.faults.saturating_add(1);
        Err(Failed)
    }
}

#[test]
fn a_flush_that_fails_is_not_tried_again(rt: HostRuntime) {
    let given = Given::new(RUN, SCRIPT, (512, 4096), (&[], &[]));
    let mut sink = FirstFlushFails {
        flushes: 0,
        flushed: false,
        faults: 0,
    };
    let status = run_over(&rt, rt.alloc(), &given, &mut sink);
    assert!(rt; status == Status::WriteFault);
    assert!(rt; sink.flushes == 1);
}

/// The program with these followers.
fn expect_followed(
    rt: &impl Abort,
    alloc: Global,
    given: &Given<'_>,
    followers: Vec<Box<dyn Follower>>,
    (answers, status): Ended<'_>,
) {
    let words = words_of(rt, alloc, given);
    let mut source = source_of(rt, alloc, given);
    let mut sink = sink_of(rt, alloc, given);
    assert!(rt; followers.len() <= 1024);
    let ended = run_followed(alloc, &words, &mut source, &mut sink, followers);
    assert!(rt; sink.written() == answers);
    assert!(rt; ended == status);
}

/// So many tallies.
fn tallies(rt: &impl Abort, alloc: Global, count: u32) -> Vec<Box<dyn Follower>> {
    let mut followers: Vec<Box<dyn Follower>> = Vec::new(alloc);
    for _ in 0..count {
        let tally = Box::new(alloc, Tally::new()).expect(rt, "memory");
        followers.push(tally).expect(rt, "memory");
    }
    followers
}

/// A tally, and a mirror of `p`.
fn tally_and_mirror(rt: &impl Abort, alloc: Global) -> Vec<Box<dyn Follower>> {
    let mut followers = tallies(rt, alloc, 1);
    let name = Name::read(b"p").expect(rt, "a name");
    let mirror = Box::new(alloc, Mirror::new(alloc, name)).expect(rt, "memory");
    followers.push(mirror).expect(rt, "memory");
    followers
}

/// A fault leaves no report, or the reports before it; with the word `run` no follower is asked.
#[test]
fn followers_report_in_a_run(rt: HostRuntime) {
    let both: &[&[u8]] = &[b"follow", b"p"];
    let jobs = b"new p pq\np at 10 ins 4\nmute 0\np at 1 ins 7\n";
    let told = b"ok\nedit p add 0 #1 ins 4 bridge 0 gain #1 4\nreport 0 gains 1 losses 0 sum 4\n\
        edit p add 0 #2 ins 7 bridge 0 gain #2 7\nreport 1 mirror p 4 7\n";
    let nobody = b"refused no follower 0\n";
    let queue = b"new q queue\nq ask size\n";
    let muted = b"new q queue\nmute 0\nq ask size\nq ask at 5 size\n";
    let report = b"ok\nreport 0 gains 0 losses 0 sum 0\n= 0\n";
    let table: [(&[&[u8]], &[u8], &[u32], &[u32], &[u8], Status); 7] = [
        (both, jobs, &[], &[], told, Status::Done),
        (RUN, b"mute 0\n", &[], &[], nobody, Status::Refused),
        (FOLLOW, queue, &[1], &[], b"ok\n", Status::ReadFault),
        (FOLLOW, queue, &[], &[2], b"ok\n= 0\n", Status::WriteFault),
        (both, muted, &[2], &[], report, Status::ReadFault),
        (both, muted, &[], &[1], b"ok\n", Status::WriteFault),
        (both, muted, &[], &[3], report, Status::WriteFault),
    ];
    for (words, script, reads, writes, answers, status) in table {
        let given = Given::new(words, script, (16, 4096), (reads, writes));
        let followers = tally_and_mirror(&rt, rt.alloc());
        expect_followed(&rt, rt.alloc(), &given, followers, (answers, status));
    }
}

/// Each follower reports, also of a script that changes no priority queue, and where there is none nothing is reported.
#[test]
fn each_follower_reports(rt: HostRuntime) {
    let given = Given::new(FOLLOW, SCRIPT, (512, 4096), (&[], &[]));
    let table: [(u32, &[u8]); 2] = [
        (0, ANSWERS),
        (
            2,
            b"ok\nok #1\nok #2\n= 5\nok #3\n= 7\nok #4\n= 5\n\
              report 0 gains 0 losses 0 sum 0\nreport 1 gains 0 losses 0 sum 0\n",
        ),
    ];
    for (count, written) in table {
        let followers = tallies(&rt, rt.alloc(), count);
        expect_followed(&rt, rt.alloc(), &given, followers, (written, Status::Done));
    }
}
