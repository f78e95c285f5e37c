//! Questions about a later queue, to an earlier one that has its first rows.
ghost use Rattle.std.specs.Prelude.{◌≡◌, ◌+◌, ◌-◌, ◌*◌, ◌^◌, ◌<◌, ◌≤◌, [], length, map, slice_get, IfOk};
ghost use Rattle.std.specs.Option.{option_map};
ghost use Rattle.retro_base.specs.declared.question.Item.TheVariants.{Single};
ghost use Rattle.retro_base.specs.Answers.{answer_of, content, key_of, number_of};
ghost use Rattle.retro_base.specs.Bridges.{entries_at};
ghost use Rattle.retro_base.specs.Limits.{most_rows};
ghost use Rattle.retro_base.specs.State.{entries as holding};
ghost use Rattle.costs.specs.Visits.{VisitsWithin};
ghost use Rattle.bridge_pq.specs.Gathered.{additions, after_moves, moves_from, IsEarlier};
ghost use Rattle.bridge_pq.specs.MarkedEntries.{entries_in, present_in, Rise};
ghost use Rattle.bridge_pq.specs.MarkedRows.{rows_of};

use crate::bridge_queue::key_answer;
use crate::entry_tree::count_present;
use crate::held::Held;
use crate::marked_entry::MarkedEntry;
use crate::marked_row::MarkedRow;
use retro_base::{Answer, Entry, Item, Listing, NoMemory, Question, Steps};
use std::sync::ledger::Ledger;
use weighted_tree::Tree;

/// What the rows from a place to another one add, or none where they take.
fn moves_between<L: Ledger>(
    rows: &Tree<MarkedRow>,
    from: u32,
    to: u32,
    steps: &mut Steps<L>,
) -> Result<Vec<Option<Entry>>, NoMemory>
    requires order { from ≤ to }
    requires within { to ≤ length rows.now }
    ensures moves { IfOk result (λ moves. moves.items ≡ moves_from (rows_of rows.now) from to) }
    ensures visits { VisitsWithin (to - from + 12) (length rows.now) steps.old steps.new }
{
    let mut moves = vec![in rows.alloc(); None; (to - from) as usize]?;
    rows.read(
        from,
        |item: &MarkedRow| item.row.added_entry(),
        moves.as_mut_slice(),
        steps,
    );
    Ok(moves)
}

/// What is held after these moves.
fn hold_after<'a, L: Ledger>(
    entries: &'a Tree<MarkedEntry>,
    moves: &[Option<Entry>],
    steps: &mut Steps<L>,
) -> Result<Held<'a>, NoMemory>
    requires rise { Rise (entries_in entries.now) }
    ensures entries { IfOk result (λ held. held.entries ≡ after_moves moves.now (present_in entries.now)) }
    ensures fresh { IfOk result (λ held. held.fresh ≤ length moves.now) }
    ensures of { IfOk result (λ held. held.of ≡ length entries.now) }
    ensures visits { VisitsWithin (56 * (length moves.now + 1)) (length entries.now) steps.old steps.new }
{
    let mut held = Held::new(entries, steps);
    for index in 0..moves.len() {
        match moves[index] {
            Some(entry) => held.put(entry)?,
            None => {
                held.take(steps);
            }
        }
    }
    Ok(held)
}

/// How many of these moves add.
fn count_additions(moves: &[Option<Entry>]) -> u32
    requires { length moves.now < 2 ^ 32 }
    ensures count { result ≡ additions moves.now }
    ensures within { result ≤ length moves.now }
{
    let mut count = 0;
    for index in 0..moves.len() {
        if moves[index].is_some() {
            count += 1;
        }
    }
    count
}

/// How many entries are held after these moves.
fn size_after<L: Ledger>(
    entries: &Tree<MarkedEntry>,
    moves: &[Option<Entry>],
    steps: &mut Steps<L>,
) -> u32
    requires room { length moves.now < 2 ^ 32 }
    requires few { length (after_moves moves.now (present_in entries.now)) ≤ most_rows }
    requires size { length (after_moves moves.now (present_in entries.now)) + length moves.now ≡ length (present_in entries.now) + 2 * additions moves.now }
    ensures size { result ≡ length (after_moves moves.now (present_in entries.now)) }
    ensures visits { VisitsWithin 12 (length entries.now) steps.old steps.new }
{
    let before = u64::from(count_present(entries, steps));
    let added = u64::from(count_additions(moves));
    (before + 2 * added - moves.len() as u64) as u32
}

/// The key at an index of what is held after these moves, where there is one.
fn nth_after<L: Ledger>(
    entries: &Tree<MarkedEntry>,
    moves: &[Option<Entry>],
    index: u64,
    steps: &mut Steps<L>,
) -> Result<Answer, NoMemory>
    requires rise { Rise (entries_in entries.now) }
    requires few { length (after_moves moves.now (present_in entries.now)) ≤ most_rows }
    ensures answer { IfOk result (λ answer. answer ≡ number_of (option_map key_of (slice_get (after_moves moves.now (present_in entries.now)) index))) }
    ensures visits { VisitsWithin (112 * length moves.now + 168) (length entries.now) steps.old steps.new }
{
    let mut held = hold_after(entries, moves, steps)?;
    Ok(key_answer(held.take_nth(index, steps)))
}

/// The answer to a question about what is held after these moves.
fn ask_moved<L: Ledger>(
    entries: &Tree<MarkedEntry>,
    moves: &[Option<Entry>],
    question: Question,
    steps: &mut Steps<L>,
) -> Result<Answer, NoMemory>
    requires rise { Rise (entries_in entries.now) }
    requires room { length moves.now < 2 ^ 32 }
    requires few { length (after_moves moves.now (present_in entries.now)) ≤ most_rows }
    requires size { length (after_moves moves.now (present_in entries.now)) + length moves.now ≡ length (present_in entries.now) + 2 * additions moves.now }
    ensures answer { IfOk result (λ answer. answer ≡ answer_of (holding (after_moves moves.now (present_in entries.now))) question) }
    ensures visits { VisitsWithin (112 * length moves.now + 168) (length entries.now) steps.old steps.new }
{
    match question {
        Question::Size => Ok(Answer::Number {
            value: i128::from(size_after(entries, moves, steps)),
        }),
        Question::Min => nth_after(entries, moves, 0, steps),
        Question::Nth { index } => nth_after(entries, moves, index, steps),
        _ => Ok(Answer::Nothing),
    }
}

/// The answer to a question about what is held after the rows from a place to another one.
pub(crate) fn ask_held<L: Ledger>(
    entries: &Tree<MarkedEntry>,
    rows: &Tree<MarkedRow>,
    from: u32,
    to: u32,
    question: Question,
    steps: &mut Steps<L>,
) -> Result<Answer, NoMemory>
    requires earlier { IsEarlier entries.now (rows_of rows.now) from to }
    requires some { from < to }
    ensures answer { IfOk result (λ answer. answer ≡ answer_of (holding (entries_at (rows_of rows.now) to)) question) }
    ensures visits { VisitsWithin (288 * (to - from) + 144) (length rows.now) steps.old steps.new }
{
    let moves = moves_between(rows, from, to, steps)?;
    ask_moved(entries, moves.as_slice(), question, steps)
}

/// The keys of what is held after the rows from a place to another one.
pub(crate) fn list_held<L: Ledger>(
    entries: &Tree<MarkedEntry>,
    rows: &Tree<MarkedRow>,
    from: u32,
    to: u32,
    steps: &mut Steps<L>,
) -> Result<Listing, NoMemory>
    requires earlier { IsEarlier entries.now (rows_of rows.now) from to }
    ensures content { IfOk result (λ listing. listing ≡ content (holding (entries_at (rows_of rows.now) to))) }
{
    let moves = moves_between(rows, from, to, steps)?;
    let size = size_after(entries, moves.as_slice(), steps);
    let mut held = hold_after(entries, moves.as_slice(), steps)?;
    list_all(&mut held, Listing::new(entries.alloc()), size, steps)
}

/// The keys of all that is held, in order.
fn list_all<L: Ledger>(
    held: &mut Held,
    listing: Listing,
    size: u32,
    steps: &mut Steps<L>,
) -> Result<Listing, NoMemory>
    requires empty { listing ≡ [] }
    requires size { size ≡ length held.old.entries }
    ensures keys { IfOk result (λ listing. listing ≡ map (λ entry. Single entry.key) held.old.entries) }
{
    let mut listing = listing;
    for _ in 0..size {
        if let Some(entry) = held.take(steps) {
            listing.push(Item::Single { value: entry.key })?;
        }
    }
    Ok(listing)
}
