//! What the words of a command line ask for.

ghost use Rattle.std.specs.Prelude.{◌≡◌};
ghost use Rattle.retro_cli.specs.Forms.{form_of, form_of_word, form_of_words, generation, is_follow};

use crate::Words;
use retro_base::{Kind, Name};
use script_grammar::{kind_of_word, read_natural_up_to};

/// The most lines that a generated script has after its first one.
const MAX_GENERATED: u64 = 1_000_000;

/// What the words of a command line ask for.
#[derive(Clone, Copy)]
pub(crate) enum Form {
    /// `run`: a script is answered.
    Run,
    /// `check`: evidence is judged.
    Check,
    /// `gen KIND N START`: a generated script of N lines after its first one is answered and summed up.
    Gen { kind: Kind, lines: u32, start: u64 },
}

/// The form of the words, if they have one.
pub(crate) fn form_of(words: &Words) -> Option<Form>
    ensures { result ≡ form_of words.now }
{
    match words.len() {
        1 => form_of_word(words.word(0)),
        4 => form_of_words(words.word(0), words.word(1), words.word(2), words.word(3)),
        _ => None,
    }
}

/// `run`, or `check`.
fn form_of_word(word: &[u8]) -> Option<Form>
    ensures { result ≡ form_of_word word.now }
{
    if word == b"run".as_slice() {
        Some(Form::Run)
    } else if word == b"check".as_slice() {
        Some(Form::Check)
    } else {
        None
    }
}

/// `gen KIND N START`.
fn form_of_words(word: &[u8], kind: &[u8], lines: &[u8], start: &[u8]) -> Option<Form>
    ensures { result ≡ form_of_words word.now kind.now lines.now start.now }
{
    if word == b"gen".as_slice() {
        generation(kind, lines, start)
    } else {
        None
    }
}

/// `KIND N START`.
fn generation(kind: &[u8], lines: &[u8], start: &[u8]) -> Option<Form>
    ensures { result ≡ generation kind.now lines.now start.now }
{
    let kind = kind_of_word(kind)?;
    let lines = read_natural_up_to(lines, MAX_GENERATED)? as u32;
    let start = read_natural_up_to(start, u64::MAX)?;
    Some(Form::Gen { kind, lines, start })
}

/// Whether the words are `follow` or `follow NAME`, which are forms of a followed run alone.
pub(crate) fn is_follow(words: &Words) -> bool
    ensures { result ≡ is_follow words.now }
{
    match words.len() {
        1 => words.word(0) == b"follow".as_slice(),
        2 => words.word(0) == b"follow".as_slice() && Name::read(words.word(1)).is_some(),
        _ => false,
    }
}
