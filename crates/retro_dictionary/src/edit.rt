//! A row with a label comes in or goes, with the lifetimes that it begins and ends.

ghost use Rattle.std.specs.Prelude.{◌≡◌, ◌<◌, ◌≤◌, length, slice_get, Some, None, OnOk, OnErr, IfOk};
ghost use Rattle.std.specs.List.{insert, remove};
ghost use Rattle.key_index.specs.KeyRows.{op_at, with_row, without};
ghost use Rattle.order_labels.specs.Labels.{inserted_by};
ghost use Rattle.retro_base.specs.declared.kind.Kind.TheVariants.{Dict};
ghost use Rattle.retro_base.specs.Kind.{kind_of};
ghost use Rattle.retro_base.specs.Limits.{most_rows};
ghost use Rattle.retro_dictionary.specs.Edited.{CanPut, CanEnd, CanRemove, IsBetween, left_of, next_of, ended_by, joined_by};
ghost use Rattle.retro_dictionary.specs.Ready.{IsLabelled, IsReadyFor};
ghost use Rattle.retro_dictionary.specs.RelabellingLaw.{counted_by, one_more};
ghost use Rattle.retro_dictionary.specs.RowLabels.{recent_beside, row_rule};

use crate::free_label::{free_label, one_more};
use crate::labelled_rows::LabelledRows;
use crate::lifetimes::{end_at, join, key_of, label_or_end, placed_by, put_by};
use crate::recent::RecentNeighbour;
use crate::relabel::put_relabelled;
use crate::search::PairSearch;
use key_index::KeyIndex;
use lifetime_segments::Segments;
use monoid_laws::Counted;
use order_labels::Labels;
use retro_base::{NoMemory, Op, PackedRow, Row};
use weighted_tree::{Tree, uncounted};

/// Puts a row in at a label, and ends and begins lifetimes by it. After `NoMemory` all is as before.
fn put_labelled(
    index: &mut KeyIndex,
    segments: &mut Segments<PairSearch>,
    label: u64,
    op: Op,
) -> Result<(), NoMemory>
    requires fresh { op_at label index.old ≡ None }
    requires undone { without label (with_row label op index.old) ≡ index.old }
    requires dict { kind_of op ≡ Dict }
    requires can { CanEnd (left_of index.old label op) label (next_of index.old label op) segments.old }
    ensures index_ok { OnOk result (index.new ≡ with_row label op index.old) }
    ensures segments_ok { OnOk result (segments.new ≡ ended_by label op index.old segments.old) }
    ensures index_err { OnErr result (index.new ≡ index.old) }
    ensures segments_err { OnErr result (segments.new ≡ segments.old) }
{
    let beside = index.insert_beside(label, op)?;
    let left = placed_by(beside.before);
    let next = label_or_end(beside.after);
    let put = put_by(op);
    if end_at(segments, &left, label, &put, next).is_err() {
        index.remove_row(label, op);
        return Err(NoMemory);
    }
    Ok(())
}

/// Takes the row at a label out, and the lifetime that it began, and lengthens the one that it ended. After `NoMemory` all
/// is as before.
fn take_labelled(
    index: &mut KeyIndex,
    segments: &mut Segments<PairSearch>,
    label: u64,
    op: Op,
) -> Result<(), NoMemory>
    requires there { op_at label index.old ≡ Some op }
    requires can { CanPut (left_of index.old label op) (next_of index.old label op) segments.old }
    ensures index_ok { OnOk result (index.new ≡ without label index.old) }
    ensures segments_ok { OnOk result (segments.new ≡ joined_by label op index.old segments.old) }
    ensures index_err { OnErr result (index.new ≡ index.old) }
    ensures segments_err { OnErr result (segments.new ≡ segments.old) }
{
    let beside = index.beside(key_of(op), label);
    let left = placed_by(beside.before);
    let next = label_or_end(beside.after);
    let put = put_by(op);
    join(segments, &left, label, &put, next)?;
    index.remove_row(label, op);
    Ok(())
}

/// Puts a row and its label in at a place. After `NoMemory` both are as before.
fn put_row(
    rows: &mut Tree<Counted<PackedRow>>,
    labels: &mut Labels,
    place: u32,
    label: u64,
    row: Row,
) -> Result<(), NoMemory>
    requires within { place ≤ length rows.old }
    requires room { length rows.old < most_rows }
    requires as_many { length labels.old ≡ length rows.old }
    requires between { IsBetween labels.old place label }
    ensures rows_ok { OnOk result (rows.new ≡ insert rows.old place row) }
    ensures labels_ok { OnOk result (labels.new ≡ insert labels.old place label) }
    ensures rows_err { OnErr result (rows.new ≡ rows.old) }
    ensures labels_err { OnErr result (labels.new ≡ labels.old) }
{
    labels.insert_labelled(place, label)?;
    if uncounted::insert(rows, place, Counted::new(PackedRow::new(row))).is_err() {
        labels.remove(place);
        return Err(NoMemory);
    }
    Ok(())
}

/// Puts a row in at a place, at a label that is left there. After `NoMemory` all is as before.
fn put_between(kept: &mut LabelledRows, place: u32, label: u64, row: Row) -> Result<(), NoMemory>
    requires ready { IsReadyFor kept.old place row }
    requires between { IsBetween kept.old.labels place label }
    ensures rows { OnOk result (kept.new.rows ≡ insert kept.old.rows place row) }
    ensures labels { OnOk result (kept.new.labels ≡ insert kept.old.labels place label) }
    ensures insertions_since_relabel { OnOk result (kept.new.insertions_since_relabel ≡ one_more kept.old.insertions_since_relabel) }
    ensures kept { OnOk result (IsLabelled kept.new) }
    ensures err { OnErr result (kept.new ≡ kept.old) }
{
    put_row(&mut kept.rows, &mut kept.labels, place, label, row)?;
    if put_labelled(&mut kept.index, &mut kept.segments, label, row.op).is_err() {
        uncounted::remove(&mut kept.rows, place);
        kept.labels.remove(place);
        return Err(NoMemory);
    }
    kept.insertions_since_relabel = one_more(kept.insertions_since_relabel);
    Ok(())
}

/// Puts a row in at a place, where it gets its label by the rule. After `NoMemory` all is as before.
pub(crate) fn put(
    kept: &mut LabelledRows,
    place: u32,
    row: Row,
    recent: RecentNeighbour,
) -> Result<(), NoMemory>
    requires ready { IsReadyFor kept.old place row }
    requires recent { recent ≡ recent_beside kept.old.rows place row.number }
    ensures rows { OnOk result (kept.new.rows ≡ insert kept.old.rows place row) }
    ensures labels { OnOk result (kept.new.labels ≡ inserted_by (row_rule recent kept.old.insertions_since_relabel) kept.old.labels place) }
    ensures insertions_since_relabel { OnOk result (kept.new.insertions_since_relabel ≡ counted_by (row_rule recent) kept.old.insertions_since_relabel kept.old.labels place) }
    ensures kept { OnOk result (IsLabelled kept.new) }
    ensures err { OnErr result (kept.new ≡ kept.old) }
{
    match free_label(&kept.labels, recent, kept.insertions_since_relabel, place) {
        Some(label) => put_between(kept, place, label, row),
        None => put_relabelled(kept, place, row),
    }
}

/// Takes the row at a place out. After `NoMemory` all is as before.
pub(crate) fn remove_row_at(kept: &mut LabelledRows, place: u32) -> Result<Row, NoMemory>
    requires kept { IsLabelled kept.old }
    requires can { CanRemove kept.old.rows place }
    ensures row { IfOk result (λ row. slice_get kept.old.rows place ≡ Some row) }
    ensures rows { OnOk result (kept.new.rows ≡ remove kept.old.rows place) }
    ensures labels { OnOk result (kept.new.labels ≡ remove kept.old.labels place) }
    ensures insertions_since_relabel { kept.new.insertions_since_relabel ≡ kept.old.insertions_since_relabel }
    ensures kept { OnOk result (IsLabelled kept.new) }
    ensures err { OnErr result (kept.new ≡ kept.old) }
{
    let row = uncounted::get(&kept.rows, place).value().row();
    let label = kept.labels.label_at(place);
    take_labelled(&mut kept.index, &mut kept.segments, label, row.op)?;
    kept.labels.remove(place);
    uncounted::remove(&mut kept.rows, place);
    Ok(row)
}
