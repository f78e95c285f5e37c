//! What is counted along the rows to find the first one that cannot be performed.

ghost use Rattle.std.specs.Prelude.{◌≡◌, ◌+◌, ◌^◌, ◌<◌, ◌≤◌, length, slice_get, Some, IfSome};
ghost use Rattle.std.specs.List.{insert, remove};
ghost use Rattle.std.specs.Result.{result_err};
ghost use Rattle.retro_base.specs.declared.row.Row.{Row};
ghost use Rattle.retro_base.specs.Limits.{most_rows};
ghost use Rattle.retro_base.specs.Counting.{size_after, pair_after, quantity_of, quantity_after, counted};

use crate::{Op, Row};

/// What is counted along the rows, to find the first one that cannot be performed.
#[derive(Clone, Copy)]
pub(crate) enum Quantity {
    /// The items of a queue, a stack or a deque, or the entries of a priority queue.
    Items,
    /// The pair of this key of a dictionary: 1 where it is there, and else 0.
    Key { key: i64 },
}

/// What decides on an edit of a row with this operation.
fn quantity_of(op: Op) -> Quantity
    ensures { result ≡ quantity_of op }
{
    match op {
        Op::Put { key, .. } | Op::Del { key } => Quantity::Key { key },
        Op::Enq { .. }
        | Op::Deq
        | Op::Push { .. }
        | Op::Pop
        | Op::PushL { .. }
        | Op::PushR { .. }
        | Op::PopL
        | Op::PopR
        | Op::Ins { .. }
        | Op::DelMin => Quantity::Items,
    }
}

/// How many items there are after an operation, where there is one to take.
fn size_after(op: Op, size: u32) -> Option<u32>
    requires { size + 1 < 2 ^ 32 }
    ensures { result ≡ size_after op size }
{
    match op {
        Op::Enq { .. }
        | Op::Push { .. }
        | Op::PushL { .. }
        | Op::PushR { .. }
        | Op::Put { .. }
        | Op::Ins { .. } => Some(size + 1),
        Op::Deq | Op::Pop | Op::PopL | Op::PopR | Op::Del { .. } | Op::DelMin => {
            size.checked_sub(1)
        }
    }
}

/// How many pairs of the key there are after an operation, where there is one to take.
fn pair_after(key: i64, op: Op, size: u32) -> Option<u32>
    ensures { result ≡ pair_after key op size }
{
    match op {
        Op::Put { key: other, .. } if key == other => Some(1),
        Op::Del { key: other } if key == other => size.checked_sub(1),
        _ => Some(size),
    }
}

/// How many are counted after an operation, where there is one to take.
fn counted_after(quantity: Quantity, op: Op, size: u32) -> Option<u32>
    requires { size + 1 < 2 ^ 32 }
    ensures { result ≡ quantity_after quantity op size }
{
    match quantity {
        Quantity::Items => size_after(op, size),
        Quantity::Key { key } => pair_after(key, op, size),
    }
}

/// How many are counted after these rows, or the index of the first one that finds nothing.
fn count(quantity: Quantity, rows: &[Row], size: u32) -> Result<u32, u32>
    requires { size + length rows.now < 2 ^ 32 }
    ensures { result ≡ counted quantity rows.now size }
{
    let mut size = size;
    for (index, row) in rows.iter().enumerate() {
        size = match counted_after(quantity, row.op, size) {
            Some(next) => next,
            None => return Err(index as u32),
        };
    }
    Ok(size)
}

/// The index of the first row that finds nothing to take, were a row with this operation put in.
pub(crate) fn first_failure_with(rows: &[Row], place: usize, op: Op) -> Option<u32>
    requires within { place ≤ length rows.now }
    requires few { length rows.now ≤ most_rows }
    ensures first { (row : Row)
        → row.op ≡ op → result ≡ result_err (counted (quantity_of op) (insert rows.now place row) 0) }
    ensures index { IfSome result (λ index. index ≤ length rows.now) }
{
    let quantity = quantity_of(op);
    let (before, after) = rows.split_at(place);
    let size = match count(quantity, before, 0) {
        Ok(size) => size,
        Err(index) => return Some(index),
    };
    let Some(next) = counted_after(quantity, op, size) else {
        return Some(place as u32);
    };
    match count(quantity, after, next) {
        Ok(_) => None,
        Err(index) => Some(place as u32 + 1 + index),
    }
}

/// The index of the first row that finds nothing to take, were the row at the place taken out.
pub(crate) fn first_failure_without(rows: &[Row], place: usize) -> Option<u32>
    requires within { place < length rows.now }
    requires few { length rows.now ≤ most_rows }
    ensures first { (row : Row)
        → slice_get rows.now place ≡ Some row
        → result ≡ result_err (counted (quantity_of row.op) (remove rows.now place) 0) }
    ensures index { IfSome result (λ index. index + 1 < length rows.now) }
{
    let quantity = quantity_of(rows[place].op);
    let (before, _) = rows.split_at(place);
    let (_, after) = rows.split_at(place + 1);
    let size = match count(quantity, before, 0) {
        Ok(size) => size,
        Err(index) => return Some(index),
    };
    match count(quantity, after, size) {
        Ok(_) => None,
        Err(index) => Some(place as u32 + index),
    }
}
