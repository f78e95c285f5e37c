//! Words that spell moments, indexes and other numbers.

ghost use Rattle.std.specs.Prelude.{◌≡◌, ◌+◌, ◌-◌, ◌*◌, ◌^◌, ◌<◌, ◌≤◌, IfSome, option_and_then};
ghost use Rattle.retro_base.specs.Limits.{most_rows, next_limit};
ghost use Rattle.script_grammar.specs.Numbers.{between, count_of, follower_of, index_of, natural_of, natural_up_to, next_of, row_number_of, time_of, up_to, value_of};

use retro_base::{MAX_NEXT, MAX_ROWS};

/// The moment that a word spells.
#[tactic(auto, unfolding(crate::specs::Numbers::time_of))]
pub fn read_time(word: &[u8]) -> Option<u64>
    ensures { result ≡ time_of word.now }
{
    read_natural(word)
}

/// The index that a word spells.
#[tactic(auto, unfolding(crate::specs::Numbers::index_of))]
pub fn read_index(word: &[u8]) -> Option<u64>
    ensures { result ≡ index_of word.now }
{
    read_natural(word)
}

/// The number of a row that a word spells.
#[tactic(auto, unfolding(crate::specs::Numbers::row_number_of))]
pub fn read_row_number(word: &[u8]) -> Option<u32>
    ensures exact { result ≡ row_number_of word.now }
    ensures range { IfSome result (λ number. (1 ≤ number) × (number < next_limit)) }
{
    match word {
        [b'#', digits @ ..] => row_number(read_natural(digits)?),
        _ => None,
    }
}

/// The number that a timeline draws next, as a word spells it.
#[tactic(auto, unfolding(crate::specs::Numbers::next_of))]
pub fn read_next(word: &[u8]) -> Option<u32>
    ensures exact { result ≡ next_of word.now }
    ensures range { IfSome result (λ next. (1 ≤ next) × (next ≤ next_limit)) }
{
    next_number(read_natural(word)?)
}

/// The number of row lines that a word spells.
#[tactic(auto, unfolding(crate::specs::Numbers::count_of))]
pub fn read_count(word: &[u8]) -> Option<u32>
    ensures { result ≡ count_of word.now }
{
    row_count(read_natural(word)?)
}

/// The number of a follower that a word spells.
#[tactic(auto, unfolding(crate::specs::Numbers::follower_of))]
pub fn read_follower(word: &[u8]) -> Option<u32>
    ensures { result ≡ follower_of word.now }
{
    follower_number(read_natural(word)?)
}

/// The value that a word spells.
#[tactic(auto, unfolding(crate::specs::Numbers::value_of))]
pub fn read_value(word: &[u8]) -> Option<i64>
    ensures { result ≡ value_of word.now }
{
    match word {
        [b'-', digits @ ..] => 0i64.checked_sub_unsigned(read_natural(digits)?),
        digits => i64::try_from(read_natural(digits)?).ok(),
    }
}

/// The number of a row, if a row can have it.
fn row_number(number: u64) -> Option<u32>
    ensures exact { result ≡ between 1 (next_limit - 1) number }
    ensures range { IfSome result (λ number. (1 ≤ number) × (number < next_limit)) }
{
    if 1 <= number && number < u64::from(MAX_NEXT) {
        u32::try_from(number).ok()
    } else {
        None
    }
}

/// A number that a timeline can draw next.
fn next_number(number: u64) -> Option<u32>
    ensures exact { result ≡ between 1 next_limit number }
    ensures range { IfSome result (λ next. (1 ≤ next) × (next ≤ next_limit)) }
{
    if 1 <= number && number <= u64::from(MAX_NEXT) {
        u32::try_from(number).ok()
    } else {
        None
    }
}

/// A number of rows that a timeline may have.
fn row_count(number: u64) -> Option<u32>
    ensures { result ≡ up_to most_rows number }
{
    if number <= u64::from(MAX_ROWS) {
        u32::try_from(number).ok()
    } else {
        None
    }
}

/// A number of 32 bits.
fn follower_number(number: u64) -> Option<u32>
    ensures { result ≡ up_to (2 ^ 32 - 1) number }
{
    if number <= u64::from(u32::MAX) {
        u32::try_from(number).ok()
    } else {
        None
    }
}

/// The number up to a greatest one that a word spells with digits alone.
pub fn read_natural_up_to(word: &[u8], most: u64) -> Option<u64>
    ensures exact { result ≡ natural_up_to most word.now }
    ensures range { IfSome result (λ number. number ≤ most) }
{
    up_to(most, read_natural(word)?)
}

/// A number, if it is in range.
fn up_to(most: u64, number: u64) -> Option<u64>
    ensures exact { result ≡ up_to most number }
    ensures range { IfSome result (λ number. number ≤ most) }
{
    if number <= most { Some(number) } else { None }
}

fn read_natural(digits: &[u8]) -> Option<u64>
    ensures { result ≡ option_and_then (up_to (2 ^ 64 - 1)) (natural_of digits.now) }
{
    if digits.is_empty() {
        return None;
    }
    let mut value = 0u64;
    for digit in digits {
        if !digit.is_ascii_digit() {
            return None;
        }
        value = with_digit(value, *digit)?;
    }
    Some(value)
}

/// The number with one digit more, if it is in range.
fn with_digit(value: u64, digit: u8) -> Option<u64>
    requires { 48 ≤ digit }
    ensures { result ≡ up_to (2 ^ 64 - 1) (10 * value + (digit - 48)) }
{
    value.checked_mul(10)?.checked_add(u64::from(digit - b'0'))
}
