//! A full run in halves, before a row comes in.

ghost use Rattle.std.specs.Prelude.{◌≡◌, ◌<◌, ◌≤◌, slice_get, Some, IfOk};
ghost use Rattle.order_timeline.specs.IndexedRows.{KeepsRows};
ghost use Rattle.order_timeline.specs.Runs.{divided};

use crate::indexed_rows::IndexedRows;
use crate::numbers::write_run;
use crate::run::Run;
use crate::runs::start_of;
use retro_base::NoMemory;
use weighted_tree::uncounted;

/// The most rows of a run; a full one is divided where one more comes in.
pub(crate) const LONGEST_RUN: u32 = 32;

/// How many rows stay where a run is divided: half of them, but of the last run, where most rows come in one after the other,
/// all but the last one.
fn first_part(count: u32, is_last: bool) -> u32
    requires { 1 < count }
    ensures some { 1 ≤ result }
    ensures less { result < count }
{
    if is_last { count - 1 } else { count / 2 }
}

/// Divides a run that has so many rows, and tells how many of them stay. After `NoMemory` all is as before.
pub(crate) fn divide(kept: &mut IndexedRows, run: u32, count: u32) -> Result<u32, NoMemory>
    requires kept { KeepsRows kept.old }
    requires there { slice_get kept.old.runs run ≡ Some count }
    requires more { 1 < count }
    ensures kept { KeepsRows kept.new }
    ensures rows { kept.new.rows ≡ kept.old.rows }
    ensures some { IfOk result (λ half. 1 ≤ half) }
    ensures less { IfOk result (λ half. half < count) }
    ensures runs { IfOk result (λ half. kept.new.runs ≡ divided kept.old.runs run count half) }
{
    let half = first_part(count, run + 1 == kept.runs.len());
    uncounted::insert(&mut kept.runs, run + 1, Run::new(count - half))?;
    match kept.names.insert(run + 1) {
        Ok(name) => {
            uncounted::replace(&mut kept.runs, run, Run::new(half));
            let from = start_of(&kept.runs, run + 1);
            write_run(&mut kept.numbers, &kept.rows, from, count - half, name);
            Ok(half)
        }
        Err(NoMemory) => {
            uncounted::remove(&mut kept.runs, run + 1);
            Err(NoMemory)
        }
    }
}
