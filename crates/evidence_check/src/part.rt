//! What a part of the rows answers: a row is one, and a pack of parts is one.

ghost use Rattle.std.specs.Prelude.{◌≡◌, ◌<◌, ◌≤◌, ◌++◌, [], ◌∷◌, List, Some, length, slice_get, insert, remove, OnErr, IfOk, IfErr};
ghost use Rattle.retro_base.specs.Limits.{most_rows};
ghost use Rattle.evidence_check.specs.declared.error.CheckError.TheVariants as causes;
ghost use Rattle.evidence_check.specs.declared.weighed_row.WeighedRow.{WeighedRow};
ghost use Rattle.evidence_check.specs.Parts.{marked_at, rest_of, shows_at};
ghost use Rattle.evidence_check.specs.Sought.{best_beside, shown_by};
ghost use Rattle.evidence_check.specs.Sums.{HasRoom, sums_of};
ghost use Rattle.evidence_check.specs.Zeros.{IsFirstZero, IsLastZero};

use crate::CheckError;
use crate::better::Sought;
use crate::sums::Sums;
use crate::weighed_row::WeighedRow;
use retro_base::Entry;
use std::alloc::Global;

/// Rows that follow one another. Places are counted within the part.
pub(crate) trait Part: Drop {
    /// The rows in their order.
    ghost rows: { Self → List WeighedRow };

    /// A part of one row.
    fn of_row(row: WeighedRow, alloc: Global) -> Result<Self, CheckError>
        ensures ok { IfOk result (λ part. rows part ≡ row ∷ []) }
        ensures cause { IfErr result (λ cause. cause ≡ causes.NoMemory) };

    /// The sums of its rows.
    fn sums(&self) -> Sums
        ensures { result ≡ sums_of (rows self.now) };

    /// The row at a place, where one stands there.
    fn row(&self, place: u32) -> Option<WeighedRow>
        ensures { result ≡ slice_get (rows self.now) place };

    /// The last place up to `to`, after one of its rows, where the weights add up to 0 from `before` on, or else 0.
    fn last_zero(&self, before: i32, to: u32) -> u32
        requires { HasRoom before (length (rows self.now)) }
        ensures { IsLastZero before (rows self.now) to result };

    /// The first such place from `from` on, or else 0.
    fn first_zero(&self, before: i32, from: u32) -> u32
        requires { HasRoom before (length (rows self.now)) }
        ensures { IsFirstZero before (rows self.now) from result };

    /// The best entry that is sought beside a place.
    fn best(&self, sought: Sought, place: u32) -> Option<Entry>
        ensures { result ≡ best_beside sought place (rows self.now) };

    /// The place of the row that has it.
    fn best_place(&self, sought: Sought, place: u32, entry: Entry) -> u32
        requires few { length (rows self.now) ≤ most_rows }
        requires there { best_beside sought place (rows self.now) ≡ Some entry }
        ensures { shows_at (shown_by sought) (rows self.now) result ≡ Some entry };

    /// Marks the row at a place.
    fn mark(&mut self, place: u32, alive: bool)
        requires few { length (rows self.old) ≤ most_rows }
        requires within { place < length (rows self.old) }
        ensures { rows self.new ≡ marked_at place alive (rows self.old) };

    /// Puts a row in. What no longer fits is given back, as a part that comes after this one.
    fn insert(
        &mut self,
        place: u32,
        row: WeighedRow,
        alloc: Global,
    ) -> Result<Option<Self>, CheckError>
        requires few { length (rows self.old) < most_rows }
        requires within { place ≤ length (rows self.old) }
        ensures ok { IfOk result (λ rest. rows self.new ++ rest_of rows rest ≡ insert (rows self.old) place row) }
        ensures err { OnErr result (rows self.new ≡ rows self.old) }
        ensures cause { IfErr result (λ cause. cause ≡ causes.NoMemory) };

    /// Takes out the row at a place, where it is not the only one: a part of one row goes whole.
    fn remove(&mut self, place: u32)
        requires few { length (rows self.old) ≤ most_rows }
        requires within { place < length (rows self.old) }
        ensures { 1 < length (rows self.old) → rows self.new ≡ remove (rows self.old) place };
}
