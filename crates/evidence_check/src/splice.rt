//! Edits of parts that follow one another: one of them changes, and others come or go beside it.

ghost use Rattle.std.specs.Prelude.{◌≡◌, ◌+◌, ◌<◌, ◌≤◌, ◌++◌, length, insert, remove, MatchOption, OnErr, OnOk, IfErr};
ghost use Rattle.std.specs.List.{flat_map};
ghost use Rattle.retro_base.specs.Limits.{most_rows};
ghost use Rattle.evidence_check.specs.declared.error.CheckError.TheVariants as causes;
ghost use Rattle.evidence_check.specs.Parts.{Holds, marked_at};

use crate::CheckError;
use crate::part::Part;
use crate::search::{Held, holding};
use crate::weighed_row::WeighedRow;
use std::alloc::Global;

/// So many parts fill a pack.
const FULL: usize = 32;

/// So many parts there is room for in a pack: those that fill it, and one more until it is divided.
pub(crate) const ROOM: usize = 33;

/// Marks the row at a place.
pub(crate) fn mark_among<P: Part>(parts: &mut Vec<P>, place: u32, alive: bool)
    requires few { length (flat_map P.rows parts.old.items) ≤ most_rows }
    requires within { place < length (flat_map P.rows parts.old.items) }
    ensures { flat_map P.rows parts.new.items ≡ marked_at place alive (flat_map P.rows parts.old.items) }
{
    let held = holding(parts, place);
    let part = &mut parts[held.index];
    part.mark(place - held.before, alive);
}

/// Puts a row in. What no longer fits into its part comes after it, for which there is room first.
pub(crate) fn insert_among<P: Part>(
    parts: &mut Vec<P>,
    place: u32,
    row: WeighedRow,
    alloc: Global,
) -> Result<(), CheckError>
    requires few { length (flat_map P.rows parts.old.items) < most_rows }
    requires within { place ≤ length (flat_map P.rows parts.old.items) }
    ensures ok { OnOk result (flat_map P.rows parts.new.items ≡ insert (flat_map P.rows parts.old.items) place row) }
    ensures err { OnErr result (flat_map P.rows parts.new.items ≡ flat_map P.rows parts.old.items) }
    ensures cause { IfErr result (λ cause. cause ≡ causes.NoMemory) }
{
    parts.reserve(1)?;
    if parts.as_slice().len() == 0 {
        parts.push(P::of_row(row, alloc)?)?;
        return Ok(());
    }
    let held = holding_before(parts, place);
    let part = &mut parts[held.index];
    match part.insert(place - held.before, row, alloc)? {
        None => Ok(()),
        Some(rest) => {
            parts.insert(held.index + 1, rest)?;
            Ok(())
        }
    }
}

/// The part into which a row goes: the one that holds the row before its place.
fn holding_before<P: Part>(parts: &[P], place: u32) -> Held
    requires some { 0 < length parts.now }
    requires within { place ≤ length (flat_map P.rows parts.now) }
    ensures { Holds P.rows parts.now 0 place result }
{
    if place == 0 {
        Held {
            index: 0,
            before: 0,
        }
    } else {
        holding(parts, place - 1)
    }
}

/// Takes out the row at a place. A part of this row alone goes whole.
pub(crate) fn remove_among<P: Part>(parts: &mut Vec<P>, place: u32)
    requires few { length (flat_map P.rows parts.old.items) ≤ most_rows }
    requires within { place < length (flat_map P.rows parts.old.items) }
    ensures { flat_map P.rows parts.new.items ≡ remove (flat_map P.rows parts.old.items) place }
{
    let held = holding(parts, place);
    let part = &mut parts[held.index];
    if part.sums().rows == 1 {
        let _ = parts.remove(held.index);
    } else {
        part.remove(place - held.before);
    }
}

/// What no longer fits into a pack: the later half, or where the row came at the end the new last part, so that a history
/// that grows there fills its packs.
pub(crate) fn spill<P: Part>(parts: &mut Vec<P>, at_end: bool, alloc: Global) -> Option<Vec<P>>
    ensures { MatchOption result (parts.new.items ≡ parts.old.items) (λ rest. parts.new.items ++ rest.items ≡ parts.old.items) }
{
    if parts.as_slice().len() <= FULL {
        None
    } else if at_end {
        split(parts, FULL, alloc)
    } else {
        split(parts, FULL / 2, alloc)
    }
}

/// Takes the parts from an index on. Without memory for them none is taken.
fn split<P: Part>(parts: &mut Vec<P>, at: usize, alloc: Global) -> Option<Vec<P>>
    requires { at ≤ length parts.old.items }
    ensures { MatchOption result (parts.new.items ≡ parts.old.items) (λ rest. parts.new.items ++ rest.items ≡ parts.old.items) }
{
    let count = parts.as_slice().len() - at;
    let room = if count < ROOM { ROOM } else { count };
    let mut rest = match Vec::with_capacity(alloc, room) {
        Err(_) => return None,
        Ok(rest) => rest,
    };
    for moved in 0..count {
        let Some(last) = parts.pop() else {
            unreachable!()
        };
        if rest.insert(0, last).is_err() {
            unreachable!()
        }
    }
    Some(rest)
}
