//! A row performed on the pairs of a dictionary, and what is asked of them.

ghost use Rattle.std.specs.Prelude.{◌≡◌, ◌^◌, ◌<◌, length, reverse, map, ◌&&◌, int_le, Some, IsSome, IfOk, OnOk, OnErr};
ghost use Rattle.std.specs.List.{find};
ghost use Rattle.std.specs.Option.{option_copied};
ghost use Rattle.retro_base.specs.declared.question.Item.TheVariants.{Pair};
ghost use Rattle.retro_base.specs.State.{pairs, step};
ghost use Rattle.retro_base.specs.Answers.{answer_of, number_of, pair_of, pairs_between, sum_of_values};

use crate::{Answer, Item, Listing, NoMemory, Op, Question, Row};
use std::alloc::Global;
use std::collections::BTreeMap;

/// Performs one more row on pairs. After `NoMemory` all is as before.
pub(crate) fn perform_on_pairs(held: &mut BTreeMap<i64, i64>, row: Row) -> Result<(), NoMemory>
    requires { IsSome (step row (pairs held.old.entries)) }
    ensures ok { OnOk result (step row (pairs held.old.entries) ≡ Some (pairs held.new.entries)) }
    ensures err { OnErr result (held.new.entries ≡ held.old.entries) }
{
    match row.op {
        Op::Put { key, value } => {
            held.insert(key, value)?;
        }
        Op::Del { key } => {
            held.remove(&key);
        }
        _ => unreachable!(),
    }
    Ok(())
}

/// The pair of the least key from this one on.
fn least_from(held: &BTreeMap<i64, i64>, key: i64) -> Option<(i64, i64)>
    ensures { result ≡ find (λ pair. int_le key pair.0) held.now.entries }
{
    for (other, value) in held.iter() {
        if key <= *other {
            return Some((*other, *value));
        }
    }
    None
}

/// The pair of the greatest key up to this one.
fn greatest_up_to(held: &BTreeMap<i64, i64>, key: i64) -> Option<(i64, i64)>
    ensures { result ≡ find (λ pair. int_le pair.0 key) (reverse held.now.entries) }
{
    let mut greatest = None;
    for (other, value) in held.iter() {
        if *other <= key {
            greatest = Some((*other, *value));
        }
    }
    greatest
}

/// Whether a key lies from `low` to `high`, both included.
fn lies_between(key: i64, low: i64, high: i64) -> bool
    ensures { result ≡ (int_le low key && int_le key high) }
{
    low <= key && key <= high
}

/// How many keys lie from `low` to `high`, both included.
fn count_between(held: &BTreeMap<i64, i64>, low: i64, high: i64) -> usize
    ensures { result ≡ length (pairs_between low high held.now.entries) }
{
    let mut count = 0;
    for (key, _) in held.iter() {
        if lies_between(*key, low, high) {
            count += 1;
        }
    }
    count
}

/// The sum of the values of the keys from `low` to `high`, both included.
fn sum_between(held: &BTreeMap<i64, i64>, low: i64, high: i64) -> i128
    ensures { result ≡ sum_of_values (pairs_between low high held.now.entries) }
{
    let mut sum = 0;
    for (key, value) in held.iter() {
        if lies_between(*key, low, high) {
            sum += i128::from(*value);
        }
    }
    sum
}

/// The answer that is this value, where there is one.
fn number_answer(value: Option<&i64>) -> Answer
    ensures { result ≡ number_of (option_copied value.entry) }
{
    match value {
        Some(value) => Answer::Number {
            value: i128::from(*value),
        },
        None => Answer::Nothing,
    }
}

/// The answer that is this pair, where there is one.
fn pair_answer(pair: Option<(i64, i64)>) -> Answer
    ensures { result ≡ pair_of pair }
{
    match pair {
        Some((key, value)) => Answer::Pair { key, value },
        None => Answer::Nothing,
    }
}

/// The answer of pairs.
pub(crate) fn answer_from_pairs(held: &BTreeMap<i64, i64>, question: Question) -> Answer
    ensures { result ≡ answer_of (pairs held.now.entries) question }
{
    match question {
        Question::Size => Answer::Number {
            value: held.len() as i128,
        },
        Question::Get { key } => number_answer(held.get(&key)),
        Question::Succ { key } => pair_answer(least_from(held, key)),
        Question::Pred { key } => pair_answer(greatest_up_to(held, key)),
        Question::Count { low, high } => Answer::Number {
            value: count_between(held, low, high) as i128,
        },
        Question::Sum { low, high } => Answer::Number {
            value: sum_between(held, low, high),
        },
        Question::Front
        | Question::Back
        | Question::Top
        | Question::Left
        | Question::Right
        | Question::Min
        | Question::Nth { .. } => Answer::Nothing,
    }
}

/// All pairs, their keys rising.
pub(crate) fn listing_of_pairs(
    alloc: Global,
    held: &BTreeMap<i64, i64>,
) -> Result<Listing, NoMemory>
    requires { length held.now.entries < 2 ^ 32 }
    ensures { IfOk result (λ listing. listing ≡ map (λ pair. Pair pair.0 pair.1) held.now.entries) }
{
    let mut listing = Listing::new(alloc);
    for (key, value) in held.iter() {
        listing.push(Item::Pair {
            key: *key,
            value: *value,
        })?;
    }
    Ok(listing)
}
