//! A row performed on a line of items, and what is asked of it.

ghost use Rattle.std.specs.Prelude.{◌≡◌, ◌^◌, ◌<◌, length, slice_get, map, Some, IsSome, IfOk, OnOk, OnErr};
ghost use Rattle.retro_base.specs.declared.question.Item.TheVariants.{Single};
ghost use Rattle.retro_base.specs.State.{items, step};
ghost use Rattle.retro_base.specs.Answers.{answer_of, number_of};

use crate::{Answer, Item, Listing, NoMemory, Op, Question, Row};
use std::alloc::Global;
use std::collections::VecDeque;

/// Performs one more row on a line of items. After `NoMemory` all is as before.
pub(crate) fn perform_on_line(line: &mut VecDeque<i64>, row: Row) -> Result<(), NoMemory>
    requires { IsSome (step row (items line.old.items)) }
    ensures ok { OnOk result (step row (items line.old.items) ≡ Some (items line.new.items)) }
    ensures err { OnErr result (line.new.items ≡ line.old.items) }
{
    match row.op {
        Op::Enq { value } => line.push_back(value)?,
        Op::PushR { value } => line.push_back(value)?,
        Op::Push { value } => line.push_front(value)?,
        Op::PushL { value } => line.push_front(value)?,
        Op::Deq | Op::Pop | Op::PopL => {
            line.pop_front();
        }
        Op::PopR => {
            line.pop_back();
        }
        Op::Put { .. } | Op::Del { .. } | Op::Ins { .. } | Op::DelMin => unreachable!(),
    }
    Ok(())
}

/// The answer that is the item at this index, where there is one.
fn item_at(line: &VecDeque<i64>, index: usize) -> Answer
    ensures { result ≡ number_of (slice_get line.now.items index) }
{
    match line.get(index) {
        Some(value) => Answer::Number {
            value: i128::from(*value),
        },
        None => Answer::Nothing,
    }
}

/// The answer of a line of items.
pub(crate) fn answer_from_line(line: &VecDeque<i64>, question: Question) -> Answer
    ensures { result ≡ answer_of (items line.now.items) question }
{
    match question {
        Question::Size => Answer::Number {
            value: line.len() as i128,
        },
        Question::Front | Question::Top | Question::Left => item_at(line, 0),
        Question::Back | Question::Right => item_at(line, line.len().saturating_sub(1)),
        Question::Nth { index } => item_at(line, index as usize),
        Question::Min
        | Question::Get { .. }
        | Question::Succ { .. }
        | Question::Pred { .. }
        | Question::Count { .. }
        | Question::Sum { .. } => Answer::Nothing,
    }
}

/// All items of a line.
pub(crate) fn listing_of_line(alloc: Global, line: &VecDeque<i64>) -> Result<Listing, NoMemory>
    requires { length line.now.items < 2 ^ 32 }
    ensures { IfOk result (λ listing. listing ≡ map (λ x. Single x) line.now.items) }
{
    let mut listing = Listing::new(alloc);
    for value in line {
        listing.push(Item::Single { value: *value })?;
    }
    Ok(listing)
}
