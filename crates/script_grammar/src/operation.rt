//! Words that spell an operation.

ghost use Rattle.std.specs.Prelude.{◌≡◌};
ghost use Rattle.script_grammar.specs.Operations.{bare_op, binary_op, op_of, op_with, unary_op};

use crate::operands::{Operands, read_operands};
use crate::words::Words;
use retro_base::Op;

/// The operation that the words left spell.
pub fn read_op(mut words: Words) -> Option<Op>
    ensures { result ≡ op_of words.entry }
{
    let word = words.next_word()?;
    op_with(word, read_operands(words)?)
}

fn op_with(word: &[u8], operands: Operands) -> Option<Op>
    ensures { result ≡ op_with word.now operands }
{
    match operands {
        Operands::Bare => bare_op(word),
        Operands::Unary { value } => unary_op(word, value),
        Operands::Binary { first, second } => binary_op(word, first, second),
    }
}

fn bare_op(word: &[u8]) -> Option<Op>
    ensures { result ≡ bare_op word.now }
{
    if word == b"deq".as_slice() {
        Some(Op::Deq)
    } else if word == b"pop".as_slice() {
        Some(Op::Pop)
    } else if word == b"popl".as_slice() {
        Some(Op::PopL)
    } else if word == b"popr".as_slice() {
        Some(Op::PopR)
    } else if word == b"delmin".as_slice() {
        Some(Op::DelMin)
    } else {
        None
    }
}

fn unary_op(word: &[u8], value: i64) -> Option<Op>
    ensures { result ≡ unary_op word.now value }
{
    if word == b"enq".as_slice() {
        Some(Op::Enq { value })
    } else if word == b"push".as_slice() {
        Some(Op::Push { value })
    } else if word == b"pushl".as_slice() {
        Some(Op::PushL { value })
    } else if word == b"pushr".as_slice() {
        Some(Op::PushR { value })
    } else if word == b"del".as_slice() {
        Some(Op::Del { key: value })
    } else if word == b"ins".as_slice() {
        Some(Op::Ins { key: value })
    } else {
        None
    }
}

fn binary_op(word: &[u8], key: i64, value: i64) -> Option<Op>
    ensures { result ≡ binary_op word.now key value }
{
    if word == b"put".as_slice() {
        Some(Op::Put { key, value })
    } else {
        None
    }
}
