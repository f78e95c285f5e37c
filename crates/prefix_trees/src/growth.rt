//! The ends of a line of items, and how operations let it grow there.

ghost use Rattle.std.specs.Prelude.{◌≡◌};
ghost use Rattle.monoid_laws.specs.Walk.{IsSign};
ghost use Rattle.prefix_trees.specs.Growth.{sign_of, value_of, left_growth, right_growth};

use retro_base::Op;

/// An end of a line of items.
#[derive(Clone, Copy)]
pub enum End {
    Left,
    Right,
}

/// By how much an operation lets a line of items grow: 1, 0 or -1.
pub(crate) fn sign_of(op: Op) -> i8
    ensures value { result ≡ sign_of op }
    ensures sign { IsSign result }
{
    match op {
        Op::Enq { .. } | Op::Push { .. } | Op::PushL { .. } | Op::PushR { .. } => 1,
        Op::Deq | Op::Pop | Op::PopL | Op::PopR => -1,
        Op::Put { .. } | Op::Del { .. } | Op::Ins { .. } | Op::DelMin => 0,
    }
}

/// By how much it lets the line grow at its left end.
pub(crate) fn left_growth(op: Op) -> i8
    ensures value { result ≡ left_growth op }
    ensures sign { IsSign result }
{
    match op {
        Op::Push { .. } | Op::PushL { .. } => 1,
        Op::Deq | Op::Pop | Op::PopL => -1,
        Op::Enq { .. } | Op::PushR { .. } | Op::PopR => 0,
        Op::Put { .. } | Op::Del { .. } | Op::Ins { .. } | Op::DelMin => 0,
    }
}

/// By how much it lets the line grow at its right end.
pub(crate) fn right_growth(op: Op) -> i8
    ensures value { result ≡ right_growth op }
    ensures sign { IsSign result }
{
    match op {
        Op::Enq { .. } | Op::PushR { .. } => 1,
        Op::PopR => -1,
        Op::Deq | Op::Push { .. } | Op::Pop | Op::PushL { .. } | Op::PopL => 0,
        Op::Put { .. } | Op::Del { .. } | Op::Ins { .. } | Op::DelMin => 0,
    }
}

/// The item that the operation adds, where it adds one to a line.
pub(crate) fn value_of(op: Op) -> Option<i64>
    ensures { result ≡ value_of op }
{
    match op {
        Op::Enq { value } => Some(value),
        Op::Push { value } => Some(value),
        Op::PushL { value } => Some(value),
        Op::PushR { value } => Some(value),
        Op::Deq | Op::Pop | Op::PopL | Op::PopR => None,
        Op::Put { .. } | Op::Del { .. } | Op::Ins { .. } | Op::DelMin => None,
    }
}
