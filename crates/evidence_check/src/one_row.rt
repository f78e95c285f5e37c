//! A row as a part.

use crate::CheckError;
use crate::better::Sought;
use crate::part::Part;
use crate::sums::Sums;
use crate::weighed_row::WeighedRow;
use retro_base::Entry;
use std::alloc::Global;
use std::mem;

impl Part for WeighedRow {
    ghost use Rattle.std.specs.Prelude.{[], ◌∷◌};

    ghost rows = { λ row. row ∷ [] };

    fn of_row(row: WeighedRow, _alloc: Global) -> Result<WeighedRow, CheckError> {
        Ok(row)
    }

    fn sums(&self) -> Sums {
        Sums::of_row(*self)
    }

    fn row(&self, place: u32) -> Option<WeighedRow> {
        if place == 0 { Some(*self) } else { None }
    }

    fn last_zero(&self, before: i32, to: u32) -> u32 {
        if to > 0 && before + self.weight() == 0 {
            1
        } else {
            0
        }
    }

    fn first_zero(&self, before: i32, from: u32) -> u32 {
        if from <= 1 && before + self.weight() == 0 {
            1
        } else {
            0
        }
    }

    fn best(&self, sought: Sought, place: u32) -> Option<Entry> {
        match (sought, place) {
            (Sought::Dead, 0) => self.dead_entry(),
            (Sought::Dead, _) => None,
            (Sought::Alive, 0) => None,
            (Sought::Alive, _) => self.alive_entry(),
        }
    }

    fn best_place(&self, _sought: Sought, _place: u32, _entry: Entry) -> u32 {
        0
    }

    fn mark(&mut self, _place: u32, alive: bool) {
        self.alive = alive;
    }

    fn insert(
        &mut self,
        place: u32,
        row: WeighedRow,
        _alloc: Global,
    ) -> Result<Option<WeighedRow>, CheckError> {
        if place == 0 {
            Ok(Some(mem::replace(self, row)))
        } else {
            Ok(Some(row))
        }
    }

    fn remove(&mut self, _place: u32) {}
}
