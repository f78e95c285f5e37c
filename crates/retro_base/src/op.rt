//! The operations that rows perform.

ghost use Rattle.std.specs.Prelude.{◌≡◌};
ghost use Rattle.retro_base.specs.Kind.{adds, kind_of};

use crate::Kind;

/// An operation of a structure, as a row of a timeline performs it.
#[derive(Clone, Copy, Debug, PartialEq, Eq)]
pub enum Op {
    /// Puts a value at the back of a queue.
    Enq { value: i64 },
    /// Takes the front of a queue.
    Deq,
    /// Puts a value on top of a stack.
    Push { value: i64 },
    /// Takes the top of a stack.
    Pop,
    /// Puts a value at the left end of a deque.
    PushL { value: i64 },
    /// Puts a value at the right end of a deque.
    PushR { value: i64 },
    /// Takes the left end of a deque.
    PopL,
    /// Takes the right end of a deque.
    PopR,
    /// Gives a key of a dictionary this value, whatever it had before.
    Put { key: i64, value: i64 },
    /// Takes a key out of a dictionary.
    Del { key: i64 },
    /// Adds an entry with this key to a priority queue.
    Ins { key: i64 },
    /// Takes the least entry of a priority queue.
    DelMin,
}

impl Op {
    /// The kind of structure that can perform the operation.
    pub fn kind(self) -> Kind
        ensures { result ≡ kind_of self }
    {
        match self {
            Op::Enq { .. } | Op::Deq => Kind::Queue,
            Op::Push { .. } | Op::Pop => Kind::Stack,
            Op::PushL { .. } | Op::PushR { .. } | Op::PopL | Op::PopR => Kind::Deque,
            Op::Put { .. } | Op::Del { .. } => Kind::Dict,
            Op::Ins { .. } | Op::DelMin => Kind::Pq,
        }
    }

    /// Whether the operation puts something in, as `enq`, `push`, `put` and `ins` do, and takes nothing out.
    pub fn adds(self) -> bool
        ensures { result ≡ adds self }
    {
        match self {
            Op::Enq { .. } | Op::Push { .. } | Op::PushL { .. } | Op::PushR { .. } => true,
            Op::Put { .. } | Op::Ins { .. } => true,
            Op::Deq | Op::Pop | Op::PopL | Op::PopR | Op::Del { .. } | Op::DelMin => false,
        }
    }
}
