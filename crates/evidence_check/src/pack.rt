//! A pack of parts, with the sums of its rows.

ghost use Rattle.std.specs.Prelude.{◌≡◌, ◌<◌, ◌≤◌, [], length, insert, remove, OnErr, OnOk, IfErr};
ghost use Rattle.std.specs.List.{flat_map};
ghost use Rattle.retro_base.specs.Limits.{most_rows};
ghost use Rattle.evidence_check.specs.declared.error.CheckError.TheVariants as causes;

use crate::CheckError;
use crate::better::Sought;
use crate::part::Part;
use crate::search::{
    best_among, best_place_among, first_zero_among, last_zero_among, row_among, sums_among,
};
use crate::splice::{ROOM, insert_among, mark_among, remove_among, spill};
use crate::sums::Sums;
use crate::weighed_row::WeighedRow;
use retro_base::Entry;
use std::alloc::Global;
use std::marker::Model;

/// Parts that follow one another. Contracts see their rows.
#[derive(Drop)]
pub(crate) struct Pack<P: Part> {
    parts: Vec<P>,
    sums: Sums,
}

impl<P: Part> Model for Pack<P> {
    ghost use Rattle.std.specs.Prelude.{◌≡◌, List};
    ghost use Rattle.std.specs.List.{flat_map};
    ghost use Rattle.evidence_check.specs.declared.weighed_row.WeighedRow.{WeighedRow};
    ghost use Rattle.evidence_check.specs.Sums.{sums_of};

    ghost Value = { List WeighedRow };

    ghost view = { λ p. flat_map P.rows p.parts.items };

    ghost invariant = { λ p. p.sums ≡ sums_of (flat_map P.rows p.parts.items) };
}

impl<P: Part> Pack<P> {
    /// A pack of no part.
    pub(crate) fn new(alloc: Global) -> Pack<P>
        ensures { result ≡ [] }
    {
        Pack {
            parts: Vec::new(alloc),
            sums: Sums::none(),
        }
    }

    /// A pack of these parts.
    fn of_parts(parts: Vec<P>) -> Pack<P>
        requires { length (flat_map P.rows parts.items) ≤ most_rows }
        ensures { result ≡ flat_map P.rows parts.items }
    {
        let sums = sums_among(&parts);
        Pack { parts, sums }
    }

    /// How many rows there are.
    pub(crate) fn len(&self) -> u32
        ensures { result ≡ length self.now }
    {
        self.sums.rows
    }

    /// Puts a row in, whatever the number of parts. Without memory all is as before.
    pub(crate) fn insert_row(
        &mut self,
        place: u32,
        row: WeighedRow,
        alloc: Global,
    ) -> Result<(), CheckError>
        requires few { length self.old < most_rows }
        requires within { place ≤ length self.old }
        ensures ok { OnOk result (self.new ≡ insert self.old place row) }
        ensures err { OnErr result (self.new ≡ self.old) }
        ensures cause { IfErr result (λ cause. cause ≡ causes.NoMemory) }
    {
        insert_among(&mut self.parts, place, row, alloc)?;
        self.sums = sums_among(&self.parts);
        Ok(())
    }

    /// Takes the row at a place out.
    pub(crate) fn remove_row(&mut self, place: u32)
        requires few { length self.old ≤ most_rows }
        requires within { place < length self.old }
        ensures { self.new ≡ remove self.old place }
    {
        remove_among(&mut self.parts, place);
        self.sums = sums_among(&self.parts);
    }
}

impl<P: Part> Part for Pack<P> {
    ghost rows = { λ rows. rows };

    fn of_row(row: WeighedRow, alloc: Global) -> Result<Pack<P>, CheckError> {
        let mut parts = Vec::with_capacity(alloc, ROOM)?;
        parts.push(P::of_row(row, alloc)?)?;
        Ok(Pack {
            parts,
            sums: Sums::of_row(row),
        })
    }

    fn sums(&self) -> Sums {
        self.sums
    }

    fn row(&self, place: u32) -> Option<WeighedRow> {
        if place < self.sums.rows {
            row_among(&self.parts, place)
        } else {
            None
        }
    }

    fn last_zero(&self, before: i32, to: u32) -> u32 {
        if to == 0 {
            return 0;
        }
        if before + self.sums.low > 0 {
            return 0;
        }
        last_zero_among(&self.parts, self.sums, before, to)
    }

    fn first_zero(&self, before: i32, from: u32) -> u32 {
        if from > self.sums.rows {
            return 0;
        }
        if before + self.sums.low > 0 {
            return 0;
        }
        first_zero_among(&self.parts, before, from)
    }

    fn best(&self, sought: Sought, place: u32) -> Option<Entry> {
        if place > 0 && place < self.sums.rows {
            return best_among(&self.parts, sought, place);
        }
        match (sought, place) {
            (Sought::Dead, 0) => self.sums.dead,
            (Sought::Dead, _) => None,
            (Sought::Alive, 0) => None,
            (Sought::Alive, _) => self.sums.alive,
        }
    }

    fn best_place(&self, sought: Sought, place: u32, entry: Entry) -> u32 {
        best_place_among(&self.parts, sought, place, entry)
    }

    fn mark(&mut self, place: u32, alive: bool) {
        mark_among(&mut self.parts, place, alive);
        self.sums = sums_among(&self.parts);
    }

    fn insert(
        &mut self,
        place: u32,
        row: WeighedRow,
        alloc: Global,
    ) -> Result<Option<Pack<P>>, CheckError> {
        let at_end = place == self.sums.rows;
        insert_among(&mut self.parts, place, row, alloc)?;
        let rest = spill(&mut self.parts, at_end, alloc);
        self.sums = sums_among(&self.parts);
        match rest {
            None => Ok(None),
            Some(parts) => Ok(Some(Pack::of_parts(parts))),
        }
    }

    fn remove(&mut self, place: u32) {
        self.remove_row(place);
    }
}
