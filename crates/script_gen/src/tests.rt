//! What is drawn and generated, at fixed starts.

use crate::ScriptGen;
use crate::draws::Draws;
use retro_base::{Kind, Text};
use std::alloc::Global;
use std::process::Abort;
use std::test::Fail;

/// The lines of a script, each with a line feed.
fn script(
    rt: &impl Abort,
    alloc: Global,
    (kind, lines, start): (Kind, u32, u64),
) -> Result<Text, Fail> {
    assert!(rt; lines <= 1_000_000);
    let mut generator = ScriptGen::new(kind, lines, start);
    let mut line = Text::new(alloc);
    let mut all = Text::new(alloc);
    for _ in 0..=lines {
        assert!(rt; generator.next_line(&mut line)?);
        all.push_all(line.as_bytes())?;
        all.push_all(b"\n")?;
    }
    assert!(rt; !generator.next_line(&mut line)?);
    Ok(all)
}

#[test]
fn what_is_drawn(rt: HostRuntime) {
    for (start, state, number) in [
        (0, 1442695040888963407, 167951807),
        (1, 7806831264735756412, 908834774),
        (7, 9098160460397411210, 1059165278),
    ] {
        let mut draws = Draws { state: start };
        assert!(rt; draws.draw() == number);
        assert!(rt; draws.state == state);
    }
}

#[test]
fn what_is_generated(rt: HostRuntime) -> Result<(), Fail> {
    let cases: [((Kind, u32, u64), &[u8]); 6] = [
        ((Kind::Queue, 0, 9), b"new g queue\n"),
        (
            (Kind::Queue, 12, 7),
            b"new g queue
g ask at 263231 front
g at 718673 enq 545
g ask size
g at 615764 enq 739
g at 112195 deq
g at 493632 deq
g at 145949 enq 962
g at 694899 deq
g at 473951 deq
g at 533793 deq
g at 178098 enq 653
g at 702040 enq 945
",
        ),
        (
            (Kind::Stack, 8, 1),
            b"new g stack
g at 944153 push 196
g at 211034 push 795
g at 486902 push 89
g at 520123 pop
g at 947452 push 400
g at 444812 push 890
g at 93332 pop
g at 467627 pop
",
        ),
        (
            (Kind::Deque, 12, 0),
            b"new g deque
g delete #1
g delete #1
g at 436891 popl
g at 791264 popr
g at 246482 pushl 645
g at 565022 pushr 978
g at 416483 pushl 69
g delete #3
g at 325883 pushr 351
g at 390142 pushr 776
g at 358884 pushr 763
g at 70999 pushl 454
",
        ),
        (
            (Kind::Dict, 12, u64::MAX),
            b"new g dict
g ask at 332343 succ 50
g delete #1
g at 33987 put 85 47
g at 889532 put 83 162
g at 552538 put 78 880
g at 167812 put 78 602
g at 794780 put 1 515
g delete #6
g at 10829 del 50
g at 850226 del 62
g at 87491 put 84 797
g at 667140 put 12 967
",
        ),
        (
            (Kind::Pq, 10, 42),
            b"new g pq
g at 179026 ins 538
g at 606294 ins 156
g ask size
g at 823166 ins 125
g at 802390 ins 882
g at 145388 ins 309
g at 299099 ins 769
g at 612649 ins 708
g at 47895 ins 560
g delete #7
",
        ),
    ];
    for (script_of, expected) in cases {
        assert!(rt; script(&rt, rt.alloc(), script_of)?.as_bytes() == expected);
    }
    Ok(())
}
