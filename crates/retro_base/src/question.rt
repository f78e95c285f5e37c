//! Questions about the content of a structure, and their answers.

ghost use Rattle.std.specs.Prelude.{◌≡◌};
ghost use Rattle.retro_base.specs.Questions.{suits};

use crate::Kind;

/// What may be asked of the content of a structure.
#[derive(Clone, Copy, Debug, PartialEq, Eq)]
pub enum Question {
    /// How many items, pairs or entries there are.
    Size,
    /// The front of a queue.
    Front,
    /// The back of a queue.
    Back,
    /// The top of a stack.
    Top,
    /// The left end of a deque.
    Left,
    /// The right end of a deque.
    Right,
    /// The key of the least entry of a priority queue.
    Min,
    /// The item at this index from the front, the top or the left, from 0; of a priority queue the key
    /// of the entry that is so many places above the least one.
    Nth { index: u64 },
    /// The value of this key of a dictionary.
    Get { key: i64 },
    /// The pair of the least key from this one on.
    Succ { key: i64 },
    /// The pair of the greatest key up to this one.
    Pred { key: i64 },
    /// How many keys there are from `low` to `high`, both included.
    Count { low: i64, high: i64 },
    /// The sum of the values of the keys from `low` to `high`, both included.
    Sum { low: i64, high: i64 },
}

impl Question {
    /// Whether the question can be asked of a structure of the kind.
    pub fn suits(self, kind: Kind) -> bool
        ensures { result ≡ suits self kind }
    {
        match self {
            Question::Size => true,
            Question::Front | Question::Back => kind == Kind::Queue,
            Question::Top => kind == Kind::Stack,
            Question::Left | Question::Right => kind == Kind::Deque,
            Question::Min => kind == Kind::Pq,
            Question::Nth { .. } => kind != Kind::Dict,
            Question::Get { .. }
            | Question::Succ { .. }
            | Question::Pred { .. }
            | Question::Count { .. }
            | Question::Sum { .. } => kind == Kind::Dict,
        }
    }
}

/// The answer to a `Question`.
#[derive(Clone, Copy, Debug, PartialEq, Eq)]
pub enum Answer {
    /// A number, a value, a key or a sum.
    Number { value: i128 },
    /// A key of a dictionary with its value.
    Pair { key: i64, value: i64 },
    /// There is no such item, pair or entry.
    Nothing,
}

/// One item of the whole content of a structure.
#[derive(Clone, Copy, Debug, PartialEq, Eq)]
pub enum Item {
    /// An item of a queue, a stack or a deque, or the key of an entry.
    Single { value: i64 },
    /// A key of a dictionary with its value.
    Pair { key: i64, value: i64 },
}
