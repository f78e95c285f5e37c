//! Lines that open a block.

ghost use Rattle.std.specs.Prelude.{◌≡◌};
ghost use Rattle.script_grammar.specs.Command.{header_count, header_end, header_kind, header_next, header_of, header_rows};

use crate::Command;
use crate::line::kind_of_word;
use crate::numbers::{read_count, read_next};
use crate::words::Words;
use retro_base::{Kind, Name};

/// The rest of a line that opens a block.
pub fn read_header(mut words: Words) -> Option<Command>
    ensures { result ≡ header_of words.entry }
{
    let name = Name::read(words.next_word()?)?;
    read_header_kind(name, words)
}

fn read_header_kind(name: Name, mut words: Words) -> Option<Command>
    ensures { result ≡ header_kind name words.entry }
{
    let kind = kind_of_word(words.next_word()?)?;
    read_header_end(name, kind, words)
}

fn read_header_end(name: Name, kind: Kind, mut words: Words) -> Option<Command>
    ensures { result ≡ header_end name kind words.entry }
{
    if words.next_word()? == b"next".as_slice() {
        read_header_next(name, kind, words)
    } else {
        None
    }
}

fn read_header_next(name: Name, kind: Kind, mut words: Words) -> Option<Command>
    ensures { result ≡ header_next name kind words.entry }
{
    let next = read_next(words.next_word()?)?;
    read_header_rows(name, kind, next, words)
}

fn read_header_rows(name: Name, kind: Kind, next: u32, mut words: Words) -> Option<Command>
    ensures { result ≡ header_rows name kind next words.entry }
{
    match words.next_word() {
        None => {
            let rows = None;
            Some(Command::Header {
                name,
                kind,
                next,
                rows,
            })
        }
        Some(word) => {
            if word == b"rows".as_slice() {
                read_header_count(name, kind, next, words)
            } else {
                None
            }
        }
    }
}

fn read_header_count(name: Name, kind: Kind, next: u32, mut words: Words) -> Option<Command>
    ensures { result ≡ header_count name kind next words.entry }
{
    let rows = Some(read_count(words.next_word()?)?);
    words.is_empty().then_some(Command::Header {
        name,
        kind,
        next,
        rows,
    })
}
