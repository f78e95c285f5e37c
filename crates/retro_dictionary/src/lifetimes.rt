//! What becomes of the lifetimes beside an edit.

ghost use Rattle.std.specs.Prelude.{◌≡◌, OnOk, OnErr};
ghost use Rattle.std.specs.Option.{option_and_then};
ghost use Rattle.key_index.specs.KeyRows.{key_of};
ghost use Rattle.retro_dictionary.specs.Changes.{placed_by, up_to_label};
ghost use Rattle.retro_dictionary.specs.Edited.{CanPut, CanEnd, label_or_end, placed_at, all_put, all_taken, ended_at, joined_at};
ghost use Rattle.retro_dictionary.specs.Lifetimes.{put_by};

use crate::pairs::KeyPair;
use crate::search::PairSearch;
use lifetime_segments::Segments;
use retro_base::{NoMemory, Op};

/// Where labels end.
pub(crate) const END: u64 = 1 << 40;

/// The key of an operation of a dictionary.
pub(crate) fn key_of(op: Op) -> i64
    ensures { result ≡ key_of op }
{
    match op {
        Op::Put { key, .. } => key,
        Op::Del { key } => key,
        _ => 0,
    }
}

/// The pair that an operation puts, where it puts one.
pub(crate) fn put_by(op: Op) -> Option<KeyPair>
    ensures { result ≡ put_by op }
{
    match op {
        Op::Put { key, value } => Some(KeyPair { key, value }),
        _ => None,
    }
}

/// The pair that the last row before a label put, with the label of that row.
pub(crate) fn placed_by(last: Option<(u64, Op)>) -> Option<(u64, KeyPair)>
    ensures { result ≡ option_and_then placed_by last }
{
    match last {
        Some((from, Op::Put { key, value })) => Some((from, KeyPair { key, value })),
        _ => None,
    }
}

/// The label of the next row, or the end of all labels.
pub(crate) fn label_or_end(next: Option<(u64, Op)>) -> u64
    ensures { result ≡ label_or_end next }
{
    match next {
        Some((label, _)) => label,
        None => END,
    }
}

/// Adds the lifetime of a pair up to a label. After `NoMemory` all is as before.
fn add(
    segments: &mut Segments<PairSearch>,
    placed: &Option<(u64, KeyPair)>,
    to: u64,
) -> Result<(), NoMemory>
    requires can { CanPut placed.now to segments.old }
    ensures ok { OnOk result (segments.new ≡ all_put (up_to_label placed.now to) segments.old) }
    ensures err { OnErr result (segments.new ≡ segments.old) }
{
    match placed {
        Some((from, pair)) => segments.add(*from, to, *pair),
        None => Ok(()),
    }
}

/// Takes the lifetime of a pair up to a label out.
fn take(segments: &mut Segments<PairSearch>, placed: &Option<(u64, KeyPair)>, to: u64)
    ensures { segments.new ≡ all_taken (up_to_label placed.now to) segments.old }
{
    if let Some((from, pair)) = placed {
        segments.take(*from, to, *pair);
    }
}

/// Moves where the lifetime of a pair ends. After `NoMemory` all is as before.
fn move_end(
    segments: &mut Segments<PairSearch>,
    placed: &Option<(u64, KeyPair)>,
    to: u64,
    next: u64,
) -> Result<(), NoMemory>
    requires can { CanPut placed.now next segments.old }
    ensures ok { OnOk result (segments.new ≡ all_taken (up_to_label placed.now to) (all_put (up_to_label placed.now next) segments.old)) }
    ensures err { OnErr result (segments.new ≡ segments.old) }
{
    match placed {
        Some((from, pair)) => segments.move_end(*from, to, next, *pair),
        None => Ok(()),
    }
}

/// A pair with the label at which it is put.
fn placed_at(label: u64, put: &Option<KeyPair>) -> Option<(u64, KeyPair)>
    ensures { result ≡ placed_at label put.now }
{
    match put {
        Some(pair) => Some((label, *pair)),
        None => None,
    }
}

/// Ends the pair that was there up to the next label, and begins another one. After `NoMemory` all is as before.
pub(crate) fn end_at(
    segments: &mut Segments<PairSearch>,
    left: &Option<(u64, KeyPair)>,
    label: u64,
    put: &Option<KeyPair>,
    next: u64,
) -> Result<(), NoMemory>
    requires can { CanEnd left.now label next segments.old }
    ensures ok { OnOk result (segments.new ≡ ended_at left.now label put.now next segments.old) }
    ensures err { OnErr result (segments.new ≡ segments.old) }
{
    let own = placed_at(label, put);
    add(segments, &own, next)?;
    if move_end(segments, left, next, label).is_err() {
        take(segments, &own, next);
        return Err(NoMemory);
    }
    Ok(())
}

/// Takes the pair that was begun out, and lets the one before it be there up to the next label again. After `NoMemory` all
/// is as before.
pub(crate) fn join(
    segments: &mut Segments<PairSearch>,
    left: &Option<(u64, KeyPair)>,
    label: u64,
    put: &Option<KeyPair>,
    next: u64,
) -> Result<(), NoMemory>
    requires can { CanPut left.now next segments.old }
    ensures ok { OnOk result (segments.new ≡ joined_at left.now label put.now next segments.old) }
    ensures err { OnErr result (segments.new ≡ segments.old) }
{
    move_end(segments, left, label, next)?;
    let own = placed_at(label, put);
    take(segments, &own, next);
    Ok(())
}
