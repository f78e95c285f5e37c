//! Sources and sinks over streams of std, each kind of error among them.

ghost use Rattle.std.specs.Prelude.{◌≤◌, IfOk};

use retro_io::{Failed, Sink, Source, StdSink, StdSource, put_all};
use std::io::{self, ErrorKind, Read, Write};
use std::process::Abort;

/// Every kind of error that std names.
const KINDS: [ErrorKind; 42] = [
    ErrorKind::NotFound,
    ErrorKind::PermissionDenied,
    ErrorKind::ConnectionRefused,
    ErrorKind::ConnectionReset,
    ErrorKind::HostUnreachable,
    ErrorKind::NetworkUnreachable,
    ErrorKind::ConnectionAborted,
    ErrorKind::NotConnected,
    ErrorKind::AddrInUse,
    ErrorKind::AddrNotAvailable,
    ErrorKind::NetworkDown,
    ErrorKind::BrokenPipe,
    ErrorKind::AlreadyExists,
    ErrorKind::WouldBlock,
    ErrorKind::NotADirectory,
    ErrorKind::IsADirectory,
    ErrorKind::DirectoryNotEmpty,
    ErrorKind::ReadOnlyFilesystem,
    ErrorKind::FilesystemLoop,
    ErrorKind::StaleNetworkFileHandle,
    ErrorKind::InvalidInput,
    ErrorKind::InvalidData,
    ErrorKind::TimedOut,
    ErrorKind::WriteZero,
    ErrorKind::StorageFull,
    ErrorKind::NotSeekable,
    ErrorKind::QuotaExceeded,
    ErrorKind::FileTooLarge,
    ErrorKind::ResourceBusy,
    ErrorKind::ExecutableFileBusy,
    ErrorKind::Deadlock,
    ErrorKind::CrossesDevices,
    ErrorKind::TooManyLinks,
    ErrorKind::InvalidFilename,
    ErrorKind::ArgumentListTooLong,
    ErrorKind::Interrupted,
    ErrorKind::Unsupported,
    ErrorKind::UnexpectedEof,
    ErrorKind::OutOfMemory,
    ErrorKind::InProgress,
    ErrorKind::Other,
    ErrorKind::Uncategorized,
];

/// What becomes of a call of a stream: all is given that is asked for, or taken that is handed to it, or half of that, or nothing; or it
/// fails with an error of this kind.
#[derive(Clone, Copy)]
enum Outcome {
    All,
    Half,
    Nothing,
    Fails(ErrorKind),
}

const BREAKS: Outcome = Outcome::Fails(ErrorKind::BrokenPipe);

/// A stream whose calls, of whatever sort, come out in the one way and the other by turns.
#[derive(Drop)]
struct ByTurns {
    next: Outcome,
    other: Outcome,
}

impl ByTurns {
    /// One call more, with so many bytes.
    fn turn(&mut self, length: usize) -> io::Result<usize>
        ensures { IfOk result (λ count. count ≤ length) }
    {
        let outcome = self.next;
        self.next = self.other;
        self.other = outcome;
        match outcome {
            Outcome::All => Ok(length),
            Outcome::Half => Ok(length / 2),
            Outcome::Nothing => Ok(0),
            Outcome::Fails(kind) => Err(kind.into()),
        }
    }
}

impl Read for ByTurns {
    fn read(&mut self, buffer: &mut [u8]) -> io::Result<usize> {
        self.turn(buffer.len())
    }
}

impl Write for ByTurns {
    fn write(&mut self, piece: &[u8]) -> io::Result<usize> {
        self.turn(piece.len())
    }

    fn flush(&mut self) -> io::Result<()> {
        self.turn(0)?;
        Ok(())
    }
}

fn source(next: Outcome, other: Outcome) -> StdSource<ByTurns> {
    StdSource::new(ByTurns { next, other })
}

fn sink(next: Outcome, other: Outcome) -> StdSink<ByTurns> {
    StdSink::new(ByTurns { next, other })
}

fn expect_one_failure(rt: &impl Abort, kind: ErrorKind) {
    let mut source = source(Outcome::Fails(kind), Outcome::All);
    assert_eq!(rt; source.read(&mut [0; 16]), Err(Failed));
    assert_eq!(rt; source.read(&mut [0; 16]), Ok(16));
    let mut sink = sink(Outcome::Fails(kind), Outcome::All);
    assert!(rt; sink.write(b"abc").is_err());
    assert!(rt; sink.write(b"abc") == Ok(3));
    // A write flushes nothing, so the first flush is still to come.
    assert!(rt; sink.flush().is_err());
    assert!(rt; sink.flush().is_ok());
}

#[test]
fn a_call_that_fails_is_not_tried_again_or_hidden(rt: HostRuntime) {
    for kind in KINDS {
        expect_one_failure(&rt, kind);
    }
}

#[test]
fn a_read_is_one_read_of_all_that_is_asked_for(rt: HostRuntime) {
    let mut source = source(Outcome::Nothing, Outcome::All);
    let mut buffer = vec![in rt.alloc(); 0; 65_536].expect(&rt, "memory");
    // In all 1.3 gigabytes, which are more than a script may have.
    for _ in 0..20_000 {
        assert!(rt; source.read(&mut buffer) == Ok(0));
        assert!(rt; source.read(&mut buffer) == Ok(65_536));
    }
}

#[test]
fn streams_are_handed_all_of_every_size(rt: HostRuntime) {
    let mut source = source(Outcome::All, Outcome::All);
    let mut sink = sink(Outcome::All, Outcome::All);
    for length in [0, 1, 2, 7, 15, 16, 17, 4096, 4097, 65_535, 65_536] {
        let mut bytes = vec![in rt.alloc(); 0; length].expect(&rt, "memory");
        assert!(rt; source.read(&mut bytes) == Ok(length));
        assert!(rt; sink.write(&bytes) == Ok(length));
    }
}

#[test]
fn a_call_is_one_call_of_the_stream(rt: HostRuntime) {
    let mut source = source(Outcome::Half, BREAKS);
    let mut writer = sink(Outcome::Half, BREAKS);
    let mut flusher = sink(Outcome::Half, BREAKS);
    for _ in 0..2 {
        assert_eq!(rt; source.read(&mut [0; 16]), Ok(8));
        assert_eq!(rt; source.read(&mut [0; 16]), Err(Failed));
        assert!(rt; writer.write(b"abcdef") == Ok(3));
        assert!(rt; writer.write(b"abcdef").is_err());
        assert!(rt; flusher.flush().is_ok());
        assert!(rt; flusher.flush().is_err());
    }
}

#[test]
fn a_write_that_takes_nothing_is_a_fault(rt: HostRuntime) {
    let mut sink = sink(Outcome::Nothing, BREAKS);
    assert!(rt; put_all(&mut sink, b"").is_ok());
    assert!(rt; put_all(&mut sink, b"a").is_err());
    assert!(rt; sink.flush().is_err());
}
