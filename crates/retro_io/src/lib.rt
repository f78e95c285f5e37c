//! Bytes in and bytes out: where they come from, the lines that they make, and where they go.
//!
//! A [`Source`] gives bytes in pieces of any size, and a [`Sink`] takes them in pieces of any size; both may fail. A
//! [`LineReader`] makes lines of what a source gives, and [`put_all`] writes a list of bytes whole. The layer above may
//! rely on this: whatever the pieces, the lines read are the lines of the bytes taken, as `lines` in `specs/Lines.antt`
//! defines them, and the bytes written are those that were to be written, or a prefix of them at a fault. Each write is
//! handed all that is left, and no read offers a needlessly small buffer. A fault is answered only where the source's or the
//! sink's own count of faults rose.
//!
//! The reader holds its bytes in one buffer of a fixed size, which is reserved when the reader is made. Each byte is
//! searched once for a line feed; of a line that is too long no more is kept than is shown, so that reading takes no memory.
//!
//! An [`Outbox`] is a sink before another one: what was written to it is what that one got and what waits. Whoever writes
//! to it sends it where an answer is waited for: it is a [`SendingSink`], and so is any sink behind a [`DirectSink`], where
//! nothing ever waits.
//!
//! - `source`, `sink`: the two traits, and `put_all`.
//! - `line_reader`, `line_buffer`, `mark`: the reader, the buffer that it cuts lines from, and what it answers.
//! - `memory_source`, `whole_source`, `memory_sink`, `stock`: sources and a sink in memory, which tell their bytes, and
//!   of which chosen calls fail.
//! - `sending_sink`, `outbox`, `direct_sink`: sinks at which bytes may wait; one that gathers what is written, and sends it to
//!   another one; and any sink, as one at which nothing waits.
//! - `std_source`, `std_sink`: those over std's readers and writers. Nothing is known of what such a reader gives or such
//!   a writer does with what it takes.
#![tactic(auto)]

mod direct_sink;
mod line_buffer;
mod line_reader;
mod mark;
mod memory_sink;
mod memory_source;
mod outbox;
mod sending_sink;
mod sink;
mod source;
mod std_sink;
mod std_source;
mod stock;
mod whole_source;

pub use direct_sink::DirectSink;
pub use line_buffer::LineBuffer;
pub use line_reader::LineReader;
pub use mark::{Mark, ReadError};
pub use memory_sink::MemorySink;
pub use memory_source::MemorySource;
pub use outbox::Outbox;
pub use sending_sink::SendingSink;
pub use sink::{Sink, WriteFault, put_all};
pub use source::{Failed, Source};
pub use std_sink::StdSink;
pub use std_source::StdSource;
pub use whole_source::WholeSource;
