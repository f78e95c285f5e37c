//! Words that spell a question.

ghost use Rattle.std.specs.Prelude.{◌≡◌};
ghost use Rattle.script_grammar.specs.Queries.{bare_question, binary_question, nth_of, query_of, question_of, question_with, unary_question};

use crate::Query;
use crate::numbers::read_index;
use crate::operands::{Operands, read_operands};
use crate::words::Words;
use retro_base::Question;

/// What is asked for by a word and the words left after it.
pub fn read_query(word: &[u8], words: Words) -> Option<Query>
    ensures { result ≡ query_of word.now words.entry }
{
    if word == b"all".as_slice() {
        return words.is_empty().then_some(Query::All);
    }
    let question = read_question(word, words)?;
    Some(Query::One { question })
}

fn read_question(word: &[u8], words: Words) -> Option<Question>
    ensures { result ≡ question_of word.now words.entry }
{
    if word == b"nth".as_slice() {
        return read_nth(words);
    }
    question_with(word, read_operands(words)?)
}

fn read_nth(mut words: Words) -> Option<Question>
    ensures { result ≡ nth_of words.entry }
{
    let index = read_index(words.next_word()?)?;
    words.is_empty().then_some(Question::Nth { index })
}

fn question_with(word: &[u8], operands: Operands) -> Option<Question>
    ensures { result ≡ question_with word.now operands }
{
    match operands {
        Operands::Bare => bare_question(word),
        Operands::Unary { value } => unary_question(word, value),
        Operands::Binary { first, second } => binary_question(word, first, second),
    }
}

fn bare_question(word: &[u8]) -> Option<Question>
    ensures { result ≡ bare_question word.now }
{
    if word == b"size".as_slice() {
        Some(Question::Size)
    } else if word == b"front".as_slice() {
        Some(Question::Front)
    } else if word == b"back".as_slice() {
        Some(Question::Back)
    } else if word == b"top".as_slice() {
        Some(Question::Top)
    } else if word == b"left".as_slice() {
        Some(Question::Left)
    } else if word == b"right".as_slice() {
        Some(Question::Right)
    } else if word == b"min".as_slice() {
        Some(Question::Min)
    } else {
        None
    }
}

fn unary_question(word: &[u8], key: i64) -> Option<Question>
    ensures { result ≡ unary_question word.now key }
{
    if word == b"get".as_slice() {
        Some(Question::Get { key })
    } else if word == b"succ".as_slice() {
        Some(Question::Succ { key })
    } else if word == b"pred".as_slice() {
        Some(Question::Pred { key })
    } else {
        None
    }
}

fn binary_question(word: &[u8], low: i64, high: i64) -> Option<Question>
    ensures { result ≡ binary_question word.now low high }
{
    if word == b"count".as_slice() {
        Some(Question::Count { low, high })
    } else if word == b"sum".as_slice() {
        Some(Question::Sum { low, high })
    } else {
        None
    }
}
