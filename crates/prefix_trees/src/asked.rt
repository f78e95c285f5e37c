//! What a question asks for of a line of items.

ghost use Rattle.std.specs.Prelude.{◌-◌};
ghost use Rattle.prefix_trees.specs.Asked.{AsksOf, IsItemAt};

use retro_base::Question;

/// What of a line of items a question asks for.
#[derive(Clone, Copy)]
pub(crate) enum Asked {
    /// How many items there are.
    Size,
    /// The item at this index from the left.
    Item { index: u32 },
    /// An item that is not there.
    Nothing,
}

/// The item at an index, where there is one.
fn item(index: u64, size: u32) -> Asked
    ensures { IsItemAt index size result }
{
    if index < u64::from(size) {
        Asked::Item {
            index: index as u32,
        }
    } else {
        Asked::Nothing
    }
}

/// What the question asks for of a line of this size.
#[tactic(auto, unfolding(retro_base::specs::Answers::answer_of))]
pub(crate) fn asked_of(question: Question, size: u32) -> Asked
    ensures { AsksOf question size result }
{
    match question {
        Question::Size => Asked::Size,
        Question::Front => item(0, size),
        Question::Top => item(0, size),
        Question::Left => item(0, size),
        Question::Nth { index } => item(index, size),
        Question::Back => last(size),
        Question::Right => last(size),
        Question::Min => Asked::Nothing,
        Question::Get { .. } => Asked::Nothing,
        Question::Succ { .. } => Asked::Nothing,
        Question::Pred { .. } => Asked::Nothing,
        Question::Count { .. } => Asked::Nothing,
        Question::Sum { .. } => Asked::Nothing,
    }
}

/// The last item, where there is one.
fn last(size: u32) -> Asked
    ensures { IsItemAt (size - 1) size result }
{
    if size == 0 {
        Asked::Nothing
    } else {
        Asked::Item { index: size - 1 }
    }
}
