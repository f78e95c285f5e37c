//! Which run has a place, and where a run begins.

ghost use Rattle.std.specs.Prelude.{◌≡◌, ◌^◌, ◌<◌, ◌≤◌, length};
ghost use Rattle.order_timeline.specs.Runs.{rows_in, start_of, IsInRun, TakesRow};

use crate::run::Run;
use crate::total::Total;
use weighted_tree::{Tree, uncounted};

/// The run that a place lies in.
pub(crate) fn run_of(runs: &Tree<Run>, place: u32) -> u32
    requires { place < rows_in runs.now }
    ensures { IsInRun runs.now result place }
{
    match uncounted::first_place(runs, 0, |total: &Total| u64::from(place) < total.rows()) {
        Some(count) => count - 1,
        None => 0,
    }
}

/// The run that takes a row at a place, where there are so many rows: the last one behind all rows, and else that of the row
/// before the place, or the first.
pub(crate) fn run_for(runs: &Tree<Run>, rows: u32, place: u32) -> u32
    requires some { 0 < length runs.now }
    requires told { rows ≡ rows_in runs.now }
    requires within { place ≤ rows }
    ensures { TakesRow runs.now result place }
{
    if place == rows {
        return runs.len() - 1;
    }
    if place == 0 {
        return 0;
    }
    run_of(runs, place - 1)
}

/// Where a run begins.
pub(crate) fn start_of(runs: &Tree<Run>, run: u32) -> u32
    requires within { run ≤ length runs.now }
    requires few { rows_in runs.now < 2 ^ 32 }
    ensures { result ≡ start_of runs.now run }
{
    uncounted::measure(runs, 0, run).rows() as u32
}
