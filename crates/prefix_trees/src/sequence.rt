//! The trait of a kind whose state is a line of items.

ghost use Rattle.std.specs.Prelude.{◌≡◌, ◌≤◌, ℤ, pos, ◌<ℤ◌, List, length, slice_get, Some, IfOk};
ghost use Rattle.retro_base.specs.declared.kind.Kind.{Kind};
ghost use Rattle.retro_base.specs.Replay.{state_at};
ghost use Rattle.retro_base.specs.Answers.{answer_of, content};
ghost use Rattle.retro_base.specs.Timeline.{IsReplayable};
ghost use Rattle.costs.specs.Visits.{OpensCounter, VisitsWithin};
ghost use Rattle.prefix_trees.specs.Growth.{IsLine, grown, sign_of};
ghost use Rattle.prefix_trees.specs.FailureLaws.{LineAt};
ghost use Rattle.prefix_trees.specs.FoundLaws.{FindsWriter};

use crate::asked::{Asked, asked_of};
use crate::line_rows::LineRows;
use retro_base::{Answer, Item, Kind, Listing, NoMemory, Question, Steps};
use std::marker::Brand;
use std::sync::ledger::{Blank, Ledger};

/// A kind of structure whose state is a line of items, and how the row that wrote an item is found among rows of that kind.
/// All else that is asked of such a structure follows: see `RetroLine`.
pub trait Sequence {
    /// The kind of the structure.
    ghost kind: { Kind };

    /// The kind of the structure.
    fn kind() -> Kind
        ensures { result ≡ kind };

    /// The place of the row that wrote the item at an index from the left, after the first so many
    /// rows, which left so many items.
    fn written_by<L: Ledger>(
        rows: &LineRows,
        place: u32,
        size: i64,
        index: u32,
        steps: &mut Steps<L>,
    ) -> Option<u32>
        requires replayable { IsReplayable kind rows.now }
        requires within { place ≤ length rows.now }
        requires told { size ≡ grown sign_of rows.now place }
        requires there { pos index <ℤ grown sign_of rows.now place }
        ensures writer { FindsWriter kind rows.now place index result }
        ensures visits { VisitsWithin 12 (length rows.now) steps.old steps.new };

    /// Its state is a line of items.
    ghost is_line: { IsLine kind };
}

/// How many items there are after the first so many rows.
fn size_at<S: Sequence, L: Ledger>(rows: &LineRows, place: u32, steps: &mut Steps<L>) -> u32
    requires replayable { IsReplayable S.kind rows.now }
    requires within { place ≤ length rows.now }
    ensures size { pos result ≡ grown sign_of rows.now place }
    ensures few { result ≤ length rows.now }
    ensures visits { VisitsWithin 12 (length rows.now) steps.old steps.new }
{
    rows.size_at(place, steps) as u32
}

/// The item at an index from the left, after the first so many rows, which left so many items.
fn item_at<S: Sequence, L: Ledger>(
    rows: &LineRows,
    place: u32,
    size: u32,
    index: u32,
    steps: &mut Steps<L>,
) -> i64
    requires replayable { IsReplayable S.kind rows.now }
    requires within { place ≤ length rows.now }
    requires told { pos size ≡ grown sign_of rows.now place }
    requires there { pos index <ℤ grown sign_of rows.now place }
    ensures item { (line : List ℤ)
        → LineAt S.kind rows.now place line → slice_get line index ≡ Some result }
    ensures visits { VisitsWithin 24 (length rows.now) steps.old steps.new }
{
    let written = S::written_by(rows, place, i64::from(size), index, steps);
    rows.value_at(written.unwrap(), steps)
}

/// The answer to a question about the state after the first so many rows.
pub(crate) fn ask_sequence<S: Sequence, L: Ledger>(
    rows: &LineRows,
    place: u32,
    question: Question,
    steps: &mut Steps<L>,
) -> Answer
    requires replayable { IsReplayable S.kind rows.now }
    requires within { place ≤ length rows.now }
    ensures answer { result ≡ answer_of (state_at S.kind rows.now place) question }
    ensures visits { VisitsWithin 36 (length rows.now) steps.old steps.new }
{
    let size = size_at::<S, L>(rows, place, steps);
    match asked_of(question, size) {
        Asked::Size => Answer::Number {
            value: i128::from(size),
        },
        Asked::Item { index } => Answer::Number {
            value: i128::from(item_at::<S, L>(rows, place, size, index, steps)),
        },
        Asked::Nothing => Answer::Nothing,
    }
}

/// The answer to a question about the state after the first so many rows, with a counter of its own.
pub(crate) fn ask_uncounted<S: Sequence>(rows: &LineRows, place: u32, question: Question) -> Answer
    requires replayable { IsReplayable S.kind rows.now }
    requires within { place ≤ length rows.now }
    ensures { result ≡ answer_of (state_at S.kind rows.now place) question }
{
    answer_at::<S, Brand>(rows, place, question, Blank::new(1))
}

fn answer_at<S: Sequence, L: Ledger>(
    rows: &LineRows,
    place: u32,
    question: Question,
    blank: Blank,
) -> Answer
    requires replayable { IsReplayable S.kind rows.now }
    requires within { place ≤ length rows.now }
    requires counter { OpensCounter blank.name L.name blank.parts L.parts }
    ensures { result ≡ answer_of (state_at S.kind rows.now place) question }
{
    let mut steps = Steps::<L>::new(blank);
    ask_sequence::<S, L>(rows, place, question, &mut steps)
}

/// The whole content after the first so many rows.
pub(crate) fn list_sequence<S: Sequence>(rows: &LineRows, place: u32) -> Result<Listing, NoMemory>
    requires replayable { IsReplayable S.kind rows.now }
    requires within { place ≤ length rows.now }
    ensures { IfOk result (λ listing. listing ≡ content (state_at S.kind rows.now place)) }
{
    listed::<S, Brand>(rows, place, Blank::new(1))
}

/// The same, with a counter of its own.
fn listed<S: Sequence, L: Ledger>(
    rows: &LineRows,
    place: u32,
    blank: Blank,
) -> Result<Listing, NoMemory>
    requires replayable { IsReplayable S.kind rows.now }
    requires within { place ≤ length rows.now }
    requires counter { OpensCounter blank.name L.name blank.parts L.parts }
    ensures { IfOk result (λ listing. listing ≡ content (state_at S.kind rows.now place)) }
{
    let mut steps = Steps::<L>::new(blank);
    let size = size_at::<S, L>(rows, place, &mut steps);
    let mut listing = Listing::new(rows.alloc());
    for index in 0..size {
        let value = item_at::<S, L>(rows, place, size, index, &mut steps);
        listing.push(Item::Single { value })?;
    }
    Ok(listing)
}
