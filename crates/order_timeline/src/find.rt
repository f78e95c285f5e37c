//! Rows, times and numbers are found.

ghost use Rattle.std.specs.Prelude.{◌≡◌, ◌-◌, ◌<◌, ◌≤◌, ◌==◌, ◌++◌, min, take, drop, length, position, Some};
ghost use Rattle.retro_base.specs.Limits.{most_rows};
ghost use Rattle.order_timeline.specs.IndexedRows.{KeepsRows};
ghost use Rattle.order_timeline.specs.Runs.{IsNotBefore};
ghost use Rattle.retro_base.specs.Places.{place_of_row, place_of_time};
ghost use Rattle.retro_base.specs.Timeline.{TimesNeverFall};

use crate::divide::LONGEST_RUN;
use crate::indexed_rows::IndexedRows;
use crate::runs::start_of;
use monoid_laws::Counted;
use retro_base::{PackedRow, Row};
use weighted_tree::{Tree, uncounted};

/// How many rows stand up to this time.
pub(crate) fn rows_up_to(rows: &Tree<Counted<PackedRow>>, time: u64) -> u32
    requires order { TimesNeverFall rows.now }
    ensures place { result ≡ place_of_time time rows.now }
    ensures within { result ≤ length rows.now }
{
    uncounted::partition_point(
        rows,
        |counted: &Counted<PackedRow>| counted.value().time() <= time,
    )
}

/// Copies the rows from a place on into a slice, as many as fit or are there, and gives their number.
pub(crate) fn read_from(rows: &Tree<Counted<PackedRow>>, from: u32, copies: &mut [Row]) -> u32
    requires within { from ≤ length rows.now }
    requires few { length rows.now ≤ most_rows }
    ensures count { result ≡ min (length rows.now - from) (length copies.old) }
    ensures rows { copies.new ≡ take result (drop from rows.now) ++ drop result copies.old }
{
    uncounted::read(
        rows,
        from,
        |counted: &Counted<PackedRow>| counted.value().row(),
        copies,
    ) as u32
}

/// The place of the row with this number, where there is one.
pub(crate) fn place_of(kept: &IndexedRows, number: u32) -> Option<u32>
    requires kept { KeepsRows kept.now }
    ensures { result ≡ place_of_row number kept.now.rows }
{
    let name = kept.numbers.get(number)?;
    let run = kept.names.place_of(name)?;
    let start = start_of(&kept.runs, run);
    place_from(&kept.rows, start, number)
}

/// The same from a place on.
fn place_from(rows: &Tree<Counted<PackedRow>>, from: u32, number: u32) -> Option<u32>
    requires { IsNotBefore rows.now from number }
    ensures { result ≡ place_of_row number rows.now }
{
    let mut window = [0; WINDOW];
    let mut place = from;
    while place < rows.len() {
        let read = uncounted::read(
            rows,
            place,
            |counted: &Counted<PackedRow>| counted.value().number(),
            &mut window,
        );
        match index_of(&window[..read], number) {
            Some(index) => return Some(place + index as u32),
            None => place += read as u32,
        }
    }
    None
}

/// How many numbers are read at a time: those of a run.
const WINDOW: usize = LONGEST_RUN as usize;

/// The index of a number, where it is there.
fn index_of(numbers: &[u32], number: u32) -> Option<usize>
    ensures { result ≡ position (λ other. other == number) numbers.now }
{
    numbers.iter().position(|other| *other == number)
}
