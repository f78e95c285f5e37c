//! Lines that put a row at another time, or another operation into it.

ghost use Rattle.std.specs.Prelude.{◌≡◌};
ghost use Rattle.script_grammar.specs.Command.{change_of, move_at, move_of, move_time};

use crate::Command;
use crate::numbers::{read_row_number, read_time};
use crate::operation::read_op;
use crate::words::Words;
use retro_base::Name;

/// The rest of a line that puts a row at another time.
pub fn read_move(name: Name, mut words: Words) -> Option<Command>
    ensures { result ≡ move_of name words.entry }
{
    let number = read_row_number(words.next_word()?)?;
    read_move_at(name, number, words)
}

fn read_move_at(name: Name, number: u32, mut words: Words) -> Option<Command>
    ensures { result ≡ move_at name number words.entry }
{
    if words.next_word()? == b"at".as_slice() {
        read_move_time(name, number, words)
    } else {
        None
    }
}

fn read_move_time(name: Name, number: u32, mut words: Words) -> Option<Command>
    ensures { result ≡ move_time name number words.entry }
{
    let time = read_time(words.next_word()?)?;
    words
        .is_empty()
        .then_some(Command::Move { name, number, time })
}

/// The rest of a line that gives a row another operation.
pub fn read_change(name: Name, mut words: Words) -> Option<Command>
    ensures { result ≡ change_of name words.entry }
{
    let number = read_row_number(words.next_word()?)?;
    let op = read_op(words)?;
    Some(Command::Change { name, number, op })
}
