//! Questions, by what is found of a range of keys, and one about a single key by the last row on it.

ghost use Rattle.std.specs.Prelude.{◌≡◌, ◌≤◌, length};
ghost use Rattle.std.specs.Option.{option_and_then, option_map};
ghost use Rattle.order_labels.specs.Labels.{AreLabels};
ghost use Rattle.retro_base.specs.Answers.{number_of, pair_of};
ghost use Rattle.retro_dictionary.specs.Asked.{range_of, keys_from, answer_from, found_at, value_at, value_put};

use crate::pairs::{Found, KeyPair, KeyRange};
use crate::search::PairSearch;
use key_index::KeyIndex;
use lifetime_segments::{Decomposable, Segments};
use order_labels::Labels;
use retro_base::{Answer, Op, Question};

/// The keys that a question asks of. What a key has is found so too, but the index tells it sooner (`value_at`).
pub(crate) fn range_of(question: Question) -> KeyRange
    ensures { result ≡ range_of question }
{
    match question {
        Question::Get { key } => keys_from(key, key),
        Question::Succ { key } => keys_from(key, i64::MAX),
        Question::Pred { key } => keys_from(i64::MIN, key),
        Question::Count { low, high } => keys_from(low, high),
        Question::Sum { low, high } => keys_from(low, high),
        _ => keys_from(i64::MIN, i64::MAX),
    }
}

/// The keys from low to high.
fn keys_from(low: i64, high: i64) -> KeyRange
    ensures { result ≡ keys_from low high }
{
    KeyRange { low, high }
}

/// The answer to a question, by what is found of the pairs in its range.
pub(crate) fn answer_from(question: Question, found: &Found) -> Answer
    ensures { result ≡ answer_from question found.now }
{
    match question {
        Question::Size | Question::Count { .. } => Answer::Number {
            value: i128::from(found.count),
        },
        Question::Get { .. } => number_of(value_of(found.least)),
        Question::Succ { .. } => pair_of(found.least),
        Question::Pred { .. } => pair_of(found.greatest),
        Question::Sum { .. } => Answer::Number { value: found.sum },
        _ => Answer::Nothing,
    }
}

/// The value of a pair, where there is one.
fn value_of(pair: Option<KeyPair>) -> Option<i64>
    ensures { result ≡ option_map (λ pair. pair.1) pair }
{
    match pair {
        Some(pair) => Some(pair.value),
        None => None,
    }
}

/// The pair, or nothing.
fn pair_of(pair: Option<KeyPair>) -> Answer
    ensures { result ≡ pair_of pair }
{
    match pair {
        Some(pair) => Answer::Pair {
            key: pair.key,
            value: pair.value,
        },
        None => Answer::Nothing,
    }
}

/// What is found at a place.
pub(crate) fn found_at(
    labels: &Labels,
    segments: &Segments<PairSearch>,
    place: u32,
    range: KeyRange,
) -> Found
    requires within { place ≤ length labels.now }
    requires labels { AreLabels labels.now }
    ensures { result ≡ found_at labels.now segments.now place range }
{
    if place == 0 {
        return PairSearch::empty();
    }
    segments.ask(labels.label_at(place - 1), range)
}

/// The value of a key at a place: what the last row on it up to there puts. It needs no search of the lifetimes.
pub(crate) fn value_at(labels: &Labels, index: &KeyIndex, place: u32, key: i64) -> Option<i64>
    requires within { place ≤ length labels.now }
    ensures { result ≡ value_at labels.now index.now place key }
{
    if place == 0 {
        return None;
    }
    let label = labels.label_at(place - 1);
    value_of_row(index.last_up_to(key, label))
}

/// The value that a row puts, where there is a row and it puts one.
fn value_of_row(row: Option<(u64, Op)>) -> Option<i64>
    ensures { result ≡ option_and_then (λ row. value_put row.1) row }
{
    match row {
        Some((_, Op::Put { value, .. })) => Some(value),
        _ => None,
    }
}

/// The number, or nothing.
pub(crate) fn number_of(value: Option<i64>) -> Answer
    ensures { result ≡ number_of value }
{
    match value {
        Some(value) => Answer::Number {
            value: i128::from(value),
        },
        None => Answer::Nothing,
    }
}
