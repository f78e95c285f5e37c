//! What the calls do to the tree of rows.

ghost use Rattle.std.specs.Prelude.{◌≡◌, ◌≤◌, length, slice_get, take, None, Some, OnOk, OnErr, IfOk};
ghost use Rattle.std.specs.List.{filter};
ghost use Rattle.std.specs.Option.{option_and_then};
ghost use Rattle.retro_base.specs.declared.kind.Kind.TheVariants.{Dict};
ghost use Rattle.retro_base.specs.Kind.{kind_of};
ghost use Rattle.key_index.specs.RowsBeside.{around, beside, last_up_to};
ghost use Rattle.key_index.specs.KeyRows.{first_after, key_of, last_before, last_of, op_at, with_row, without};
ghost use Rattle.key_index.specs.Ordered.{AreByKey, IsIndex, by_label, if_on, reaches};
ghost use Rattle.key_index.specs.Relabelled.{Rise, HoldsLabels, relabelled};

use crate::labels::Labels2;
use crate::row::{KeyRow, key_of};
use crate::rows_beside::RowsBeside;
use crate::search::count_up_to;
use retro_base::{NoMemory, Op};
use weighted_tree::{Tree, uncounted};

/// How many rows an index has at most: as many as a tree takes.
const MOST_ROWS: u32 = 1 << 31;

/// The row, if it is on the key.
fn on_key(key: i64, row: KeyRow) -> Option<(u64, Op)>
    ensures { result ≡ if_on key row }
{
    if key_of(row.op()) == key {
        Some((row.label(), row.op()))
    } else {
        None
    }
}

/// The last of so many rows, if it is on the key.
fn last_on(by_key: &Tree<KeyRow>, key: i64, count: u32) -> Option<(u64, Op)>
    requires { count ≤ length by_key.now }
    ensures { result ≡ option_and_then (if_on key) (last_of (take count by_key.now)) }
{
    if count == 0 {
        return None;
    }
    on_key(key, uncounted::get(by_key, count - 1))
}

/// The row after so many, if it is on the key.
fn next_on(by_key: &Tree<KeyRow>, key: i64, count: u32) -> Option<(u64, Op)>
    requires { count ≤ length by_key.now }
    ensures { result ≡ option_and_then (if_on key) (slice_get by_key.now count) }
{
    if count == by_key.len() {
        return None;
    }
    on_key(key, uncounted::get(by_key, count))
}

/// The last row on a key below a label, where so many rows stand up to it.
fn last_below(by_key: &Tree<KeyRow>, key: i64, label: u64, count: u32) -> Option<(u64, Op)>
    requires ordered { AreByKey by_key.now }
    requires front { take count by_key.now ≡ filter (reaches key label) by_key.now }
    requires within { count ≤ length by_key.now }
    ensures { result ≡ last_before key label by_key.now }
{
    let (at, op) = last_on(by_key, key, count)?;
    if at == label {
        return last_on(by_key, key, count - 1);
    }
    Some((at, op))
}

/// The rows on a key next to a label.
pub(crate) fn beside(by_key: &Tree<KeyRow>, key: i64, label: u64) -> RowsBeside
    requires ordered { AreByKey by_key.now }
    ensures { result ≡ beside key label by_key.now }
{
    let count = count_up_to(by_key, key, label);
    RowsBeside {
        before: last_below(by_key, key, label, count),
        after: next_on(by_key, key, count),
    }
}

/// The last row on a key up to a label.
pub(crate) fn last_up_to(by_key: &Tree<KeyRow>, key: i64, label: u64) -> Option<(u64, Op)>
    requires ordered { AreByKey by_key.now }
    ensures { result ≡ last_up_to key label by_key.now }
{
    let count = count_up_to(by_key, key, label);
    last_on(by_key, key, count)
}

/// The last row on a key up to a label, and the first one above it.
pub(crate) fn around(by_key: &Tree<KeyRow>, key: i64, label: u64) -> RowsBeside
    requires ordered { AreByKey by_key.now }
    ensures { result ≡ around key label by_key.now }
{
    let count = count_up_to(by_key, key, label);
    RowsBeside {
        before: last_on(by_key, key, count),
        after: next_on(by_key, key, count),
    }
}

/// The first row on a key above a label.
pub(crate) fn first_above(by_key: &Tree<KeyRow>, key: i64, label: u64) -> Option<(u64, Op)>
    requires ordered { AreByKey by_key.now }
    ensures { result ≡ first_after key label by_key.now }
{
    let count = count_up_to(by_key, key, label);
    next_on(by_key, key, count)
}

/// The operation of the row with a label, where there is one. The rows are not in the order of their labels, so all are looked at.
pub(crate) fn op_of(by_key: &Tree<KeyRow>, label: u64) -> Option<Op>
    ensures { result ≡ op_at label by_key.now }
{
    let count = by_key.len();
    for place in 0..count {
        let row = uncounted::get(by_key, place);
        if row.label() == label {
            return Some(row.op());
        }
    }
    None
}

/// Puts a row in, and gives the rows beside it on its key.
pub(crate) fn insert_key_row(
    by_key: &mut Tree<KeyRow>,
    label: u64,
    op: Op,
) -> Result<RowsBeside, NoMemory>
    requires index { IsIndex by_key.old }
    requires fresh { op_at label (by_label by_key.old) ≡ None }
    requires dict { kind_of op ≡ Dict }
    ensures index { IsIndex by_key.new }
    ensures ok { OnOk result (by_label by_key.new ≡ with_row label op (by_label by_key.old)) }
    ensures beside { IfOk result (λ rows. rows ≡ beside (key_of op) label (by_label by_key.old)) }
    ensures err { OnErr result (by_key.new ≡ by_key.old) }
{
    if by_key.len() >= MOST_ROWS {
        return Err(NoMemory);
    }
    let key = key_of(op);
    let place = count_up_to(by_key, key, label);
    let before = last_on(by_key, key, place);
    let after = next_on(by_key, key, place);
    uncounted::insert(by_key, place, KeyRow::new(label, op))?;
    Ok(RowsBeside { before, after })
}

/// Takes the row with a label and this operation out.
pub(crate) fn remove_key_row(by_key: &mut Tree<KeyRow>, label: u64, op: Op)
    requires index { IsIndex by_key.old }
    requires there { op_at label (by_label by_key.old) ≡ Some op }
    ensures index { IsIndex by_key.new }
    ensures rows { by_label by_key.new ≡ without label (by_label by_key.old) }
{
    let count = count_up_to(by_key, key_of(op), label);
    uncounted::remove(by_key, count - 1);
}

/// Gives each row the counterpart of its label.
pub(crate) fn relabel(by_key: &mut Tree<KeyRow>, former: &Labels2, fresh: &Labels2)
    requires rise { Rise former.now }
    requires as_many { length fresh.now ≡ length former.now }
    requires all { HoldsLabels former.now by_key.old }
    ensures { by_key.new ≡ relabelled former.now fresh.now by_key.old }
{
    for place in 0..by_key.len() {
        let row = uncounted::get(by_key, place);
        let label = former.counterpart(fresh, row.label());
        uncounted::replace(by_key, place, KeyRow::new(label, row.op()));
    }
}
