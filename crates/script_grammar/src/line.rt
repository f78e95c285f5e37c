//! The command of a line.

ghost use Rattle.std.specs.Prelude.{◌≡◌, ◌≤◌, ◌∷◌, length, true, false, IsTrue, IfOk, Err, if◌then◌else◌};
ghost use Rattle.retro_base.specs.Limits.{longest_line};
ghost use Rattle.script_grammar.specs.Operands.{alone};
ghost use Rattle.script_grammar.specs.declared.command.Command.TheVariants.{New, Undo, Redo};
ghost use Rattle.script_grammar.specs.Command.{about, begins_comment, command, command_of, delete_of, fate_of, insert_of, kind_of_word, mute_of, new_kind, new_of, save_of, IsProper};

use crate::ask::read_ask;
use crate::correction::{read_change, read_move};
use crate::header::read_header;
use crate::numbers::{read_follower, read_row_number};
use crate::operation::read_op;
use crate::spot::read_spot;
use crate::words::Words;
use crate::{Command, LineError};
use retro_base::{Kind, Name};

/// The command of a line. Of a line that is too long its first bytes are given, as many as a line may
/// have, and `long` says that it has more.
#[tactic(auto, unfolding(crate::specs::Command::command))]
pub fn read_line(line: &[u8], long: bool) -> Result<Command, LineError>
    requires within { length line.now ≤ longest_line }
    requires full { IsTrue long → length line.now ≡ longest_line }
    ensures exact { result ≡ (if long then Err LineError.Long else command line.now) }
    ensures proper { IfOk result IsProper }
{
    if long {
        return Err(LineError::Long);
    }
    read_command(Words::new(line)).ok_or(LineError::Syntax)
}

fn read_command(mut words: Words) -> Option<Command>
    ensures { result ≡ command_of words.entry }
{
    match words.next_word() {
        None => Some(Command::Nothing),
        Some(word) => read_form(word, words),
    }
}

fn read_form(word: &[u8], words: Words) -> Option<Command>
    ensures { result ≡ command_of (word.now ∷ words.entry) }
{
    if begins_comment(word) {
        return Some(Command::Nothing);
    }
    if word == b"new".as_slice() {
        return read_new(words);
    }
    if word == b"save".as_slice() {
        return read_save(words);
    }
    if word == b"timeline".as_slice() {
        return read_header(words);
    }
    if word == b"mute".as_slice() {
        return read_mute(words);
    }
    read_about(Name::read(word)?, words)
}

/// Whether a word begins a comment.
pub fn begins_comment(word: &[u8]) -> bool
    ensures { result ≡ begins_comment word.now }
{
    match word {
        [first, ..] => *first == b';',
        [] => false,
    }
}

fn read_new(mut words: Words) -> Option<Command>
    ensures { result ≡ new_of words.entry }
{
    let name = Name::read(words.next_word()?)?;
    read_new_kind(name, words)
}

fn read_new_kind(name: Name, mut words: Words) -> Option<Command>
    ensures { result ≡ new_kind name words.entry }
{
    let word = words.next_word()?;
    if word == b"pqf".as_slice() {
        read_fused(name, words)
    } else {
        read_unfused(name, kind_of_word(word)?, words)
    }
}

fn read_fused(name: Name, words: Words) -> Option<Command>
    ensures { result ≡ alone (New name Kind.Pq true) words.entry }
{
    let kind = Kind::Pq;
    let fused = true;
    words
        .is_empty()
        .then_some(Command::New { name, kind, fused })
}

fn read_unfused(name: Name, kind: Kind, words: Words) -> Option<Command>
    ensures { result ≡ alone (New name kind false) words.entry }
{
    let fused = false;
    words
        .is_empty()
        .then_some(Command::New { name, kind, fused })
}

/// The kind that a word names.
pub fn kind_of_word(word: &[u8]) -> Option<Kind>
    ensures { result ≡ kind_of_word word.now }
{
    if word == b"queue".as_slice() {
        Some(Kind::Queue)
    } else if word == b"stack".as_slice() {
        Some(Kind::Stack)
    } else if word == b"deque".as_slice() {
        Some(Kind::Deque)
    } else if word == b"dict".as_slice() {
        Some(Kind::Dict)
    } else if word == b"pq".as_slice() {
        Some(Kind::Pq)
    } else {
        None
    }
}

fn read_save(mut words: Words) -> Option<Command>
    ensures { result ≡ save_of words.entry }
{
    let name = Name::read(words.next_word()?)?;
    words.is_empty().then_some(Command::Save { name })
}

fn read_mute(mut words: Words) -> Option<Command>
    ensures { result ≡ mute_of words.entry }
{
    let index = read_follower(words.next_word()?)?;
    words.is_empty().then_some(Command::Mute { index })
}

fn read_about(name: Name, mut words: Words) -> Option<Command>
    ensures { result ≡ about name words.entry }
{
    let word = words.next_word()?;
    if word == b"ask".as_slice() {
        read_ask(name, words)
    } else if word == b"delete".as_slice() {
        read_delete(name, words)
    } else if word == b"move".as_slice() {
        read_move(name, words)
    } else if word == b"change".as_slice() {
        read_change(name, words)
    } else if word == b"fate".as_slice() {
        read_fate(name, words)
    } else if word == b"undo".as_slice() {
        read_undo(name, words)
    } else if word == b"redo".as_slice() {
        read_redo(name, words)
    } else {
        read_insert(name, word, words)
    }
}

fn read_delete(name: Name, mut words: Words) -> Option<Command>
    ensures { result ≡ delete_of name words.entry }
{
    let number = read_row_number(words.next_word()?)?;
    words.is_empty().then_some(Command::Delete { name, number })
}

fn read_fate(name: Name, mut words: Words) -> Option<Command>
    ensures { result ≡ fate_of name words.entry }
{
    let number = read_row_number(words.next_word()?)?;
    words.is_empty().then_some(Command::Fate { name, number })
}

fn read_undo(name: Name, words: Words) -> Option<Command>
    ensures { result ≡ alone (Undo name) words.entry }
{
    words.is_empty().then_some(Command::Undo { name })
}

fn read_redo(name: Name, words: Words) -> Option<Command>
    ensures { result ≡ alone (Redo name) words.entry }
{
    words.is_empty().then_some(Command::Redo { name })
}

fn read_insert(name: Name, word: &[u8], mut words: Words) -> Option<Command>
    ensures { result ≡ insert_of name word.now words.entry }
{
    let spot = read_spot(word, words.next_word()?)?;
    let op = read_op(words)?;
    Some(Command::Insert { name, spot, op })
}
