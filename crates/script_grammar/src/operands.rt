//! The values after the word of an operation or a question.

ghost use Rattle.std.specs.Prelude.{◌≡◌};
ghost use Rattle.script_grammar.specs.Operands.{operands_after, operands_of};

use crate::numbers::read_value;
use crate::words::Words;

/// The values after the word of an operation or a question.
#[derive(Clone, Copy)]
pub enum Operands {
    /// None.
    Bare,
    /// One.
    Unary { value: i64 },
    /// Two.
    Binary { first: i64, second: i64 },
}

/// The values that the words left spell, if there are two of them at the most.
pub fn read_operands(mut words: Words) -> Option<Operands>
    ensures { result ≡ operands_of words.entry }
{
    match words.next_word() {
        None => Some(Operands::Bare),
        Some(word) => read_operands_after(read_value(word)?, words),
    }
}

fn read_operands_after(first: i64, mut words: Words) -> Option<Operands>
    ensures { result ≡ operands_after first words.entry }
{
    match words.next_word() {
        None => Some(Operands::Unary { value: first }),
        Some(word) => {
            let second = read_value(word)?;
            words
                .is_empty()
                .then_some(Operands::Binary { first, second })
        }
    }
}
