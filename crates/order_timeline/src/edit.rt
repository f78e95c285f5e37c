//! A row comes in or goes.

ghost use Rattle.std.specs.Prelude.{◌≡◌, ◌<◌, ◌≤◌, length, slice_get, Some, IfOk, OnOk, OnErr};
ghost use Rattle.std.specs.List.{insert, remove};
ghost use Rattle.order_timeline.specs.IndexedRows.{KeepsRows};
ghost use Rattle.order_timeline.specs.Runs.{HasRoom, TakesRow};
ghost use Rattle.order_timeline.specs.Rows.{MayCome};

use crate::divide::{LONGEST_RUN, divide};
use crate::indexed_rows::IndexedRows;
use crate::numbers::{add, forget};
use crate::run::Run;
use crate::runs::{run_for, run_of, start_of};
use monoid_laws::Counted;
use retro_base::{NoMemory, PackedRow, Row};
use weighted_tree::uncounted;

/// Puts a row in at a place. After `NoMemory` the rows are as before.
pub(crate) fn insert_row(kept: &mut IndexedRows, place: u32, row: Row) -> Result<(), NoMemory>
    requires kept { KeepsRows kept.old }
    requires comes { MayCome kept.old.rows place row }
    ensures kept { KeepsRows kept.new }
    ensures ok { OnOk result (kept.new.rows ≡ insert kept.old.rows place row) }
    ensures err { OnErr result (kept.new.rows ≡ kept.old.rows) }
{
    first_run(kept)?;
    let roomy = run_with_room(kept, place)?;
    insert_row_in_run(kept, roomy, place, row)
}

/// The index of a run that has room for a row more, and how many rows it has.
struct RoomyRun {
    run: u32,
    count: u32,
}

/// Makes a run where there is none.
fn first_run(kept: &mut IndexedRows) -> Result<(), NoMemory>
    requires kept { KeepsRows kept.old }
    ensures kept { KeepsRows kept.new }
    ensures rows { kept.new.rows ≡ kept.old.rows }
    ensures some { OnOk result (0 < length kept.new.runs) }
{
    if kept.runs.len() > 0 {
        return Ok(());
    }
    uncounted::insert(&mut kept.runs, 0, Run::new(0))?;
    if kept.names.insert(0).is_err() {
        uncounted::remove(&mut kept.runs, 0);
        return Err(NoMemory);
    }
    Ok(())
}

/// The run that takes a row at a place. A full one is divided first, so that it has room.
fn run_with_room(kept: &mut IndexedRows, place: u32) -> Result<RoomyRun, NoMemory>
    requires kept { KeepsRows kept.old }
    requires some { 0 < length kept.old.runs }
    requires within { place ≤ length kept.old.rows }
    ensures kept { KeepsRows kept.new }
    ensures rows { kept.new.rows ≡ kept.old.rows }
    ensures run { IfOk result (λ roomy. TakesRow kept.new.runs roomy.run place) }
    ensures room { IfOk result (λ roomy. HasRoom kept.new.runs roomy.run roomy.count) }
{
    let run = run_for(&kept.runs, kept.rows.len(), place);
    let count = uncounted::get(&kept.runs, run).rows();
    if count < LONGEST_RUN {
        return Ok(RoomyRun { run, count });
    }
    let start = start_of(&kept.runs, run);
    let half = divide(kept, run, count)?;
    if place <= start + half {
        Ok(RoomyRun { run, count: half })
    } else {
        Ok(RoomyRun {
            run: run + 1,
            count: count - half,
        })
    }
}

/// Puts a row in at a place, in a run that has room for it.
fn insert_row_in_run(
    kept: &mut IndexedRows,
    roomy: RoomyRun,
    place: u32,
    row: Row,
) -> Result<(), NoMemory>
    requires kept { KeepsRows kept.old }
    requires comes { MayCome kept.old.rows place row }
    requires run { TakesRow kept.old.runs roomy.run place }
    requires room { HasRoom kept.old.runs roomy.run roomy.count }
    ensures kept { KeepsRows kept.new }
    ensures ok { OnOk result (kept.new.rows ≡ insert kept.old.rows place row) }
    ensures err { OnErr result (kept.new.rows ≡ kept.old.rows) }
{
    let RoomyRun { run, count } = roomy;
    let name = kept.names.name_at(run);
    add(&mut kept.numbers, row.number, name)?;
    if uncounted::insert(&mut kept.rows, place, Counted::new(PackedRow::new(row))).is_err() {
        forget(&mut kept.numbers, row.number);
        return Err(NoMemory);
    }
    uncounted::replace(&mut kept.runs, run, Run::new(count + 1));
    Ok(())
}

/// Takes the row at a place out, and gives it back.
pub(crate) fn remove_row(kept: &mut IndexedRows, place: u32) -> Row
    requires kept { KeepsRows kept.old }
    requires within { place < length kept.old.rows }
    ensures kept { KeepsRows kept.new }
    ensures row { slice_get kept.old.rows place ≡ Some result }
    ensures rows { kept.new.rows ≡ remove kept.old.rows place }
{
    let run = run_of(&kept.runs, place);
    let row = uncounted::remove(&mut kept.rows, place).value().row();
    forget(&mut kept.numbers, row.number);
    let count = uncounted::get(&kept.runs, run).rows();
    if count == 1 {
        uncounted::remove(&mut kept.runs, run);
        kept.names.remove(run);
        return row;
    }
    uncounted::replace(&mut kept.runs, run, Run::new(count - 1));
    row
}
