//! Words that spell numbers.

ghost use Rattle.std.specs.Prelude.{◌≡◌};
ghost use Rattle.evidence.specs.Reading.{if_row_number, key_of, number_of, row_number_of};

use itoa::Buffer;
use retro_base::MAX_NEXT;

/// The number that a word spells: the one of which it is the text.
pub fn read_number(word: &[u8]) -> Option<u32>
    ensures { result ≡ number_of word.now }
{
    match std::str::from_utf8(word) {
        Ok(text) => parse_number(text),
        Err(_) => None,
    }
}

fn parse_number(text: &str) -> Option<u32>
    ensures { result ≡ number_of text.now }
{
    match text.parse::<u32>() {
        Ok(number) => (Buffer::new().format(number) == text).then_some(number),
        Err(_) => None,
    }
}

/// The number of a row that a word spells.
pub fn read_row_number(word: &[u8]) -> Option<u32>
    ensures { result ≡ row_number_of word.now }
{
    match word {
        [b'#', digits @ ..] => if_row_number(read_number(digits)?),
        _ => None,
    }
}

/// The number, if a row can have it.
fn if_row_number(number: u32) -> Option<u32>
    ensures { result ≡ if_row_number number }
{
    if 1 <= number && number < MAX_NEXT {
        Some(number)
    } else {
        None
    }
}

/// The key that a word spells: the one of which it is the text.
pub fn read_key(word: &[u8]) -> Option<i64>
    ensures { result ≡ key_of word.now }
{
    match std::str::from_utf8(word) {
        Ok(text) => parse_key(text),
        Err(_) => None,
    }
}

fn parse_key(text: &str) -> Option<i64>
    ensures { result ≡ key_of text.now }
{
    match text.parse::<i64>() {
        Ok(key) => (Buffer::new().format(key) == text).then_some(key),
        Err(_) => None,
    }
}
