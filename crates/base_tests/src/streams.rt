//! Readers of lines over sources in memory.

ghost use Rattle.std.specs.Prelude.{◌<◌, ◌^◌};

use retro_base::Text;
use retro_io::{
    LineReader, Mark, MemorySink, MemorySource, ReadError, Sink, Source, StdSink, StdSource,
    WholeSource, put_all,
};
use std::alloc::Global;
use std::io::pipe;
use std::process::Abort;

/// What a reader answers until the end or an error: a `W` or an `L` before each line, and a `|` after it; then an `E`, or an
/// `F` for a fault and a `T` for an input that is too long.
fn answers<S: Source>(rt: &impl Abort, alloc: Global, source: &mut S, limit: u64) -> Text
    requires { limit < 2 ^ 62 }
{
    let mut reader = LineReader::new(alloc, source, limit).expect(rt, "memory");
    let mut text = Text::new(alloc);
    for _ in 0..u64::MAX {
        match reader.next() {
            Ok(Mark::Whole) => push(rt, &mut text, b"W"),
            Ok(Mark::Long) => push(rt, &mut text, b"L"),
            Ok(Mark::End) => return ended(rt, text, b"E"),
            Err(ReadError::ReadFault) => return ended(rt, text, b"F"),
            Err(ReadError::TooLong) => return ended(rt, text, b"T"),
        }
        push(rt, &mut text, reader.line());
        push(rt, &mut text, b"|");
    }
    text
}

fn push(rt: &impl Abort, text: &mut Text, bytes: &[u8]) {
    text.push_all(bytes).expect(rt, "memory");
}

fn ended(rt: &impl Abort, mut text: Text, mark: &[u8]) -> Text {
    push(rt, &mut text, mark);
    text
}

/// Sees that a reader answers so.
fn expect_answers<S: Source>(
    rt: &impl Abort,
    alloc: Global,
    source: &mut S,
    limit: u64,
    expected: &[u8],
)
    requires { limit < 2 ^ 62 }
{
    let text = answers(rt, alloc, source, limit);
    assert!(rt; text.as_bytes() == expected);
}

#[test]
fn the_limit_is_a_limit(rt: HostRuntime) {
    let table: [(u64, &[u8], usize); 4] = [
        (8, b"Wabc|T", 1),
        (10, b"Wabc|Wdefghi|E", 0),
        (3, b"T", 6),
        (0, b"T", 9),
    ];
    for (limit, expected, left) in table {
        let mut source = WholeSource::new(rt.alloc(), b"abc\ndefghi").expect(&rt, "memory");
        expect_answers(&rt, rt.alloc(), &mut source, limit, expected);
        assert!(rt; source.read(&mut [0; 16]) == Ok(left));
    }
}

#[test]
fn lines_come_in_pieces_of_every_size(rt: HostRuntime) {
    let table: [(&[u8], &[u8]); 6] = [
        (b"", b"E"),
        (b"\n", b"W|E"),
        (b"\r", b"W|E"),
        (b"a\r\n\r\nb\rc\r\r\n\nd", b"Wa|W|Wb\rc\r|W|Wd|E"),
        (b"\r\r\na\r", b"W\r|Wa|E"),
        (b"one line and no end", b"Wone line and no end|E"),
    ];
    for (bytes, expected) in table {
        for piece in 1..20 {
            let mut source = MemorySource::new(rt.alloc(), bytes, piece, &[]).expect(&rt, "memory");
            expect_answers(&rt, rt.alloc(), &mut source, 1 << 30, expected);
        }
    }
}

/// A line of so many bytes, with this end, and a second line.
fn with_line_of(rt: &impl Abort, alloc: Global, length: usize, end: &[u8]) -> Vec<u8> {
    let mut bytes = vec![in alloc; b'x'; length].expect(rt, "memory");
    bytes.extend_from_slice(end).expect(rt, "memory");
    bytes.extend_from_slice(b"\nnext").expect(rt, "memory");
    bytes
}

#[test]
fn a_reader_knows_whether_it_holds_a_line(rt: HostRuntime) {
    let mut source = WholeSource::new(rt.alloc(), b"ab\n\ncd").expect(&rt, "memory");
    let mut reader = LineReader::new(rt.alloc(), &mut source, 1 << 30).expect(&rt, "memory");
    assert!(rt; !reader.holds_line());
    assert!(rt; matches!(reader.next(), Ok(Mark::Whole)));
    assert!(rt; reader.holds_line());
    assert!(rt; matches!(reader.next(), Ok(Mark::Whole)));
    assert!(rt; !reader.holds_line());
    assert!(rt; matches!(reader.next(), Ok(Mark::Whole)));
    assert!(rt; matches!(reader.next(), Ok(Mark::End)));
    assert!(rt; !reader.holds_line());
}

/// Sees that so many bytes of a first line are shown behind its mark, and then a second line.
fn expect_shown(rt: &impl Abort, answers: &[u8], mark: u8, shown: usize) {
    assert!(rt; answers.first() == Some(&mark));
    assert!(rt; answers.len() >= 9 && answers.len() - 9 == shown);
    assert!(rt; answers.ends_with(b"x|Wnext|E"));
}

#[test]
fn long_lines_are_shown_in_part(rt: HostRuntime) {
    let table: [(usize, &[u8], u8, usize); 6] = [
        (4096, b"", b'W', 4096),
        (4096, b"\r", b'W', 4096),
        (4097, b"", b'L', 4096),
        (4096, b"\r\r", b'L', 4096),
        (70_000, b"\r", b'L', 4096),
        (200_000, b"", b'L', 4096),
    ];
    for (length, end, mark, shown) in table {
        let bytes = with_line_of(&rt, rt.alloc(), length, end);
        for piece in [1000, 65_536, 1 << 20] {
            let mut source = MemorySource::new(rt.alloc(), &bytes, piece, &[]).expect(
                &rt, "memory",
            );
            let text = answers(&rt, rt.alloc(), &mut source, 1 << 30);
            expect_shown(&rt, text.as_bytes(), mark, shown);
        }
    }
}

#[test]
fn a_fault_ends_the_reading(rt: HostRuntime) {
    let table: [(u32, u32, &[u8]); 5] = [
        (64, 0, b"F"),
        (64, 1, b"Wab|Wcd|F"),
        (3, 1, b"Wab|F"),
        (4, 1, b"Wab|F"),
        (3, 7, b"Wab|Wcd|Wef|E"),
    ];
    for (piece, failing, expected) in table {
        let mut source = MemorySource::new(rt.alloc(), b"ab\ncd\nef", piece, &[failing]).expect(
            &rt, "memory",
        );
        expect_answers(&rt, rt.alloc(), &mut source, 1 << 30, expected);
    }
}

#[test]
fn all_is_written_or_a_prefix(rt: HostRuntime) {
    let table: [(u32, u32, &[u32], bool, &[u8]); 5] = [
        (64, 1, &[], true, b"abcdef"),
        (64, 4, &[2], true, b"abcdef"),
        (64, 4, &[1], false, b"abcd"),
        (64, 4, &[0], false, b""),
        (5, 2, &[], false, b"abcde"),
    ];
    for (room, piece, failing, is_all, written) in table {
        let mut sink = MemorySink::new(rt.alloc(), room, piece, failing).expect(&rt, "memory");
        assert!(rt; put_all(&mut sink, b"abcdef").is_ok() == is_all);
        assert!(rt; sink.written() == written);
        assert!(rt; sink.flush().is_ok());
    }
}

#[test]
fn std_streams_pass_bytes_on(rt: HostRuntime) {
    let (reader, writer) = pipe(&rt).expect(&rt, "a pipe");
    let mut sink = StdSink::new(writer);
    assert!(rt; put_all(&mut sink, b"ab\ncd").is_ok());
    assert!(rt; sink.flush().is_ok());
    drop(sink);
    let mut source = StdSource::new(reader);
    expect_answers(&rt, rt.alloc(), &mut source, 1 << 30, b"Wab|Wcd|E");
}
