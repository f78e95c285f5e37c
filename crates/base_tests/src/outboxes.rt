//! Outboxes before a sink in memory.

use retro_io::{MemorySink, Outbox, SendingSink, Sink, put_all};
use std::alloc::Global;
use std::process::Abort;

/// An outbox before a sink in memory.
fn outbox_before(
    rt: &impl Abort,
    alloc: Global,
    (room, piece): (u32, u32),
    failing: &[u32],
) -> Outbox<MemorySink> {
    assert!(rt; 0 < piece);
    let sink = MemorySink::new(alloc, room, piece, failing).expect(rt, "memory");
    Outbox::new(alloc, sink).expect(rt, "memory")
}

/// Sees what the other sink has got.
fn expect_written(rt: &impl Abort, outbox: &Outbox<MemorySink>, bytes: &[u8]) {
    assert!(rt; outbox.sink().written() == bytes);
}

#[test]
fn answers_go_out_in_one_write(rt: HostRuntime) {
    // Of the other sink, the second write fails: so there is one.
    let mut outbox = outbox_before(&rt, rt.alloc(), (64, 64), &[1]);
    for answer in [b"ok\n".as_slice(), b"ok #1\n", b"= 5\n"] {
        assert!(rt; put_all(&mut outbox, answer).is_ok());
    }
    expect_written(&rt, &outbox, b"");
    assert!(rt; outbox.flush().is_ok());
    expect_written(&rt, &outbox, b"ok\nok #1\n= 5\n");
}

fn many_bytes(rt: &impl Abort, alloc: Global) -> Vec<u8> {
    let mut bytes = Vec::new(alloc);
    for number in 0..200_000_u32 {
        bytes.push((number % 251) as u8).expect(rt, "memory");
    }
    bytes
}

/// Sees that all bytes go out to a sink that takes so many of them a call.
fn expect_all_out(rt: &impl Abort, alloc: Global, piece: u32, bytes: &[u8]) {
    let mut outbox = outbox_before(rt, alloc, (1 << 20, piece), &[]);
    assert!(rt; put_all(&mut outbox, bytes).is_ok());
    assert!(rt; outbox.send().is_ok());
    expect_written(rt, &outbox, bytes);
    assert!(rt; outbox.flush().is_ok());
    expect_written(rt, &outbox, bytes);
}

#[test]
fn all_goes_out_whatever_the_sink_takes(rt: HostRuntime) {
    let bytes = many_bytes(&rt, rt.alloc());
    for piece in [1, 7, 4096, 1 << 20] {
        expect_all_out(&rt, rt.alloc(), piece, &bytes);
    }
}

fn expect_failures(rt: &impl Abort, outbox: &mut Outbox<MemorySink>) {
    assert!(rt; outbox.write(b"more").is_err());
    assert!(rt; outbox.send().is_err());
    assert!(rt; outbox.flush().is_err());
}

/// Each write of the other sink fails in turn: what it took before is all that it ever gets, and each further call fails.
#[test]
fn a_write_that_fails_is_the_last(rt: HostRuntime) {
    let bytes = vec![in rt.alloc(); b'x'; 200_000].expect(&rt, "memory");
    for failing in 0..49 {
        let mut outbox = outbox_before(&rt, rt.alloc(), (1 << 20, 4096), &[failing]);
        let ended = put_all(&mut outbox, &bytes).is_ok() && outbox.send().is_ok();
        assert!(rt; !ended);
        expect_failures(&rt, &mut outbox);
        expect_failures(&rt, &mut outbox);
        expect_written(&rt, &outbox, &bytes[..failing as usize * 4096]);
    }
}

#[test]
fn a_send_passes_on_what_waits(rt: HostRuntime) {
    // Of the other sink, the second write fails: a send makes none where nothing waits.
    let sink = MemorySink::new(rt.alloc(), 64, 64, &[1]).expect(&rt, "memory");
    let mut outbox = Outbox::new(rt.alloc(), sink).expect(&rt, "memory");
    assert!(rt; outbox.send().is_ok());
    assert!(rt; matches!(outbox.write(b"ok\n"), Ok(3)));
    for _ in 0..3 {
        assert!(rt; outbox.send().is_ok());
        assert!(rt; outbox.sink().written() == b"ok\n".as_slice());
    }
    assert!(rt; matches!(outbox.write(b"ok\n"), Ok(3)));
    assert!(rt; outbox.send().is_err());
    assert!(rt; outbox.sink().written() == b"ok\n".as_slice());
}
