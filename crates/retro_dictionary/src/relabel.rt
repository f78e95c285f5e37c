//! All rows get labels anew, where none is left between two.

ghost use Rattle.std.specs.Prelude.{◌≡◌, ◌+◌, ◌*◌, ◌^◌, ◌<◌, ◌≤◌, ◌++◌, length, drop, false, OnOk, OnErr, IfOk};
ghost use Rattle.std.specs.List.{insert};
ghost use Rattle.order_labels.specs.Labels.{has_room, label_limit, multiples, spread};
ghost use Rattle.retro_base.specs.declared.kind.Kind.TheVariants.{Dict};
ghost use Rattle.retro_base.specs.Kind.{kind_of};
ghost use Rattle.retro_base.specs.Limits.{most_rows};
ghost use Rattle.retro_dictionary.specs.Edited.{CanPut, next_of, placed_at};
ghost use Rattle.retro_dictionary.specs.LabelledRows.{ordered};
ghost use Rattle.retro_dictionary.specs.Labelled.{labelled};
ghost use Rattle.retro_dictionary.specs.Lifetimes.{lifetimes_of, put_by};
ghost use Rattle.retro_dictionary.specs.Ready.{IsLabelled, IsReadyFor};
ghost use Rattle.retro_dictionary.specs.Relabelling.{CanRelabel, begun_by, labelled_anew, new_label, other_labels, relabelled_with, with_row_at};

use crate::labelled_rows::LabelledRows;
use crate::lifetimes::{key_of, label_or_end, put_by};
use crate::search::PairSearch;
use key_index::{KeyIndex, Labels2};
use lifetime_segments::Segments;
use monoid_laws::Counted;
use order_labels::{Labels, gap_of};
use retro_base::{NoMemory, Op, PackedRow, Row};
use std::alloc::Global;
use weighted_tree::{Tree, uncounted};

/// The label of the row at a place, where labels stand so far apart.
fn label_of(place: u32, gap: u64) -> u64
    requires { (place + 1) * gap ≤ label_limit }
    ensures { result ≡ (place + 1) * gap }
{
    (u64::from(place) + 1) * gap
}

/// Appends the labels of the places from one to before another, or some of them before `NoMemory`.
fn push_labels(list: &mut Labels2, gap: u64, from: u32, to: u32) -> Result<(), NoMemory>
    requires order { from ≤ to }
    requires fits { to * gap ≤ label_limit }
    requires room { length list.old + to < 2 ^ 32 }
    ensures { OnOk result (list.new ≡ list.old ++ drop from (multiples gap to)) }
{
    for place in from..to {
        list.push(label_of(place, gap))?;
    }
    Ok(())
}

/// The labels of all rows.
fn labels_before(labels: &Labels, alloc: Global) -> Result<Labels2, NoMemory>
    ensures { IfOk result (λ former. former ≡ labels.now) }
{
    let mut former = Labels2::new(alloc);
    for place in 0..labels.len() {
        former.push(labels.label_at(place))?;
    }
    Ok(former)
}

/// The labels that so many rows get where one more is put in at a place.
fn labels_after(count: u32, place: u32, alloc: Global) -> Result<Labels2, NoMemory>
    requires within { place ≤ count }
    requires few { count < most_rows }
    ensures { IfOk result (λ fresh. fresh ≡ other_labels count place) }
{
    let gap = gap_of(count + 1);
    let mut fresh = Labels2::new(alloc);
    push_labels(&mut fresh, gap, 0, place)?;
    push_labels(&mut fresh, gap, place + 1, count + 1)?;
    Ok(fresh)
}

/// The label of the row that is put in.
fn new_label(count: u32, place: u32) -> u64
    requires within { place ≤ count }
    requires few { count < most_rows }
    ensures { result ≡ new_label count place }
{
    label_of(place, gap_of(count + 1))
}

/// Relabels the rows of an index, and puts one more in. After `NoMemory` all is as before.
fn relabel_with(
    index: &mut KeyIndex,
    former: &Labels2,
    fresh: &Labels2,
    label: u64,
    op: Op,
) -> Result<(), NoMemory>
    requires can { CanRelabel former.now fresh.now label index.old }
    requires dict { kind_of op ≡ Dict }
    ensures ok { OnOk result (index.new ≡ relabelled_with former.now fresh.now label op index.old) }
    ensures err { OnErr result (index.new ≡ index.old) }
{
    index.relabel(former, fresh);
    if index.insert(label, op).is_err() {
        index.relabel(fresh, former);
        return Err(NoMemory);
    }
    Ok(())
}

/// Adds the lifetime of the pair that the row at a label puts, where it puts one. After `NoMemory` all is as before.
fn begin(
    segments: &mut Segments<PairSearch>,
    index: &KeyIndex,
    label: u64,
    op: Op,
) -> Result<(), NoMemory>
    requires can { CanPut (placed_at label (put_by op)) (next_of index.now label op) segments.old }
    ensures ok { OnOk result (segments.new ≡ begun_by label op index.now segments.old) }
    ensures err { OnErr result (segments.new ≡ segments.old) }
{
    match put_by(op) {
        Some(pair) => segments.add(label, label_or_end(index.after(key_of(op), label)), pair),
        None => Ok(()),
    }
}

/// The lifetimes of all pairs, where the labels of the rows are spread evenly. They are made from the last row to the first.
fn segments_of(
    rows: &Tree<Counted<PackedRow>>,
    index: &KeyIndex,
) -> Result<Segments<PairSearch>, NoMemory>
    requires few { length rows.now ≤ most_rows }
    requires indexed { index.now ≡ labelled (spread (length rows.now)) rows.now }
    ensures { IfOk result (λ segments. segments ≡ ordered (lifetimes_of index.now)) }
{
    let count = rows.len();
    let gap = gap_of(count);
    let mut segments = Segments::new(rows.alloc());
    for place in (0..count).rev() {
        let op = uncounted::get(rows, place).value().op();
        begin(&mut segments, index, label_of(place, gap), op)?;
    }
    Ok(segments)
}

/// Makes the lifetimes anew, and then labels the rows. After `NoMemory` all is as before.
fn label_anew(kept: &mut LabelledRows, place: u32) -> Result<(), NoMemory>
    requires within { place ≤ length kept.old.labels }
    requires room { length kept.old.labels < most_rows }
    requires few { length kept.old.rows ≤ most_rows }
    requires indexed { kept.old.index ≡ labelled (spread (length kept.old.rows)) kept.old.rows }
    ensures ok { OnOk result (kept.new ≡ labelled_anew place kept.old) }
    ensures err { OnErr result (kept.new ≡ kept.old) }
{
    let segments = segments_of(&kept.rows, &kept.index)?;
    kept.labels.insert(place)?;
    kept.insertions_since_relabel = 0;
    kept.segments = segments;
    Ok(())
}

/// Puts a row in that the index has already. After `NoMemory` all is as before.
fn put_indexed(kept: &mut LabelledRows, place: u32, row: Row) -> Result<(), NoMemory>
    requires within { place ≤ length kept.old.rows }
    requires room { length kept.old.rows < most_rows }
    requires as_many { length kept.old.labels ≡ length kept.old.rows }
    requires indexed { kept.old.index ≡ labelled (spread (length kept.old.rows + 1)) (insert kept.old.rows place row) }
    ensures ok { OnOk result (kept.new ≡ labelled_anew place (with_row_at place row kept.old)) }
    ensures err { OnErr result (kept.new ≡ kept.old) }
{
    uncounted::insert(&mut kept.rows, place, Counted::new(PackedRow::new(row)))?;
    if label_anew(kept, place).is_err() {
        uncounted::remove(&mut kept.rows, place);
        return Err(NoMemory);
    }
    Ok(())
}

/// Puts a row in at a place where no label is left: all rows are relabelled. After `NoMemory` all is as before.
///
/// All that takes memory is made beside what is there, and the labels are written last, since they cannot be taken back.
pub(crate) fn put_relabelled(kept: &mut LabelledRows, place: u32, row: Row) -> Result<(), NoMemory>
    requires ready { IsReadyFor kept.old place row }
    requires full { has_room kept.old.labels place ≡ false }
    ensures rows { OnOk result (kept.new.rows ≡ insert kept.old.rows place row) }
    ensures labels { OnOk result (kept.new.labels ≡ spread (length kept.old.labels + 1)) }
    ensures insertions_since_relabel { OnOk result (kept.new.insertions_since_relabel ≡ 0) }
    ensures kept { OnOk result (IsLabelled kept.new) }
    ensures err { OnErr result (kept.new ≡ kept.old) }
{
    let alloc = kept.rows.alloc();
    let count = kept.rows.len();
    let former = labels_before(&kept.labels, alloc)?;
    let fresh = labels_after(count, place, alloc)?;
    let label = new_label(count, place);
    relabel_with(&mut kept.index, &former, &fresh, label, row.op)?;
    if put_indexed(kept, place, row).is_err() {
        kept.index.remove_row(label, row.op);
        kept.index.relabel(&fresh, &former);
        return Err(NoMemory);
    }
    Ok(())
}
