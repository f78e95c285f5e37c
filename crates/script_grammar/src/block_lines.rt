//! Lines within a block: its end, what is passed over, and rows.

ghost use Rattle.std.specs.Prelude.{◌≡◌, ◌<◌, ◌≤◌, IfSome};
ghost use Rattle.retro_base.specs.Limits.{next_limit};
ghost use Rattle.script_grammar.specs.BlockLines.{are_end, are_passed_over, is_end, is_passed_over, row_read, row_spelled, row_with};

use crate::line::begins_comment;
use crate::numbers::{read_row_number, read_time};
use crate::operation::read_op;
use crate::words::Words;
use retro_base::Row;

/// Whether a line ends a block: its one word is `end`.
#[tactic(auto, unfolding(crate::specs::BlockLines::is_end))]
pub fn is_end(line: &[u8]) -> bool
    ensures { result ≡ is_end line.now }
{
    are_end(Words::new(line))
}

fn are_end(mut words: Words) -> bool
    ensures { result ≡ are_end words.entry }
{
    match words.next_word() {
        None => false,
        Some(word) => words.is_empty() && word == b"end".as_slice(),
    }
}

/// Whether a line is passed over: it has no words, or is a comment.
#[tactic(auto, unfolding(crate::specs::BlockLines::is_passed_over))]
pub fn is_passed_over(line: &[u8]) -> bool
    ensures { result ≡ is_passed_over line.now }
{
    are_passed_over(Words::new(line))
}

fn are_passed_over(mut words: Words) -> bool
    ensures { result ≡ are_passed_over words.entry }
{
    match words.next_word() {
        None => true,
        Some(word) => begins_comment(word),
    }
}

/// The row of a row line, if the line has its form.
#[tactic(auto, unfolding(crate::specs::BlockLines::row_read))]
pub fn read_row(line: &[u8]) -> Option<Row>
    ensures exact { result ≡ row_read line.now }
    ensures numbered { IfSome result (λ row. (1 ≤ row.number) × (row.number < next_limit)) }
{
    read_numbered(Words::new(line))
}

fn read_numbered(mut words: Words) -> Option<Row>
    ensures exact { result ≡ row_spelled words.entry }
    ensures numbered { IfSome result (λ row. (1 ≤ row.number) × (row.number < next_limit)) }
{
    let number = read_row_number(words.next_word()?)?;
    read_row_with(number, words)
}

/// The row with this number that the words left spell.
fn read_row_with(number: u32, mut words: Words) -> Option<Row>
    ensures exact { result ≡ row_with number words.entry }
    ensures number { IfSome result (λ row. row.number ≡ number) }
{
    let time = read_time(words.next_word()?)?;
    let op = read_op(words)?;
    Some(Row { number, time, op })
}
