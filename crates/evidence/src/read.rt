//! The evidence that a line spells.

ghost use Rattle.std.specs.Prelude.{◌≡◌, IfSome, IfNone};
ghost use Rattle.evidence.specs.declared.evidence.Evidence.{Evidence};
ghost use Rattle.evidence.specs.Evidence.{Spells};
ghost use Rattle.evidence.specs.Reading.{added_of, bridge_of, bridged, change_of, changed, changed_at, edit_at, edit_of, entry_of, entry_with, evidence_of, ins_then, named, op_then, placed, spelled_by};

use crate::Evidence;
use crate::numbers::{read_key, read_number, read_row_number};
use crate::words::Words;
use retro_base::{Change, Entry, Name, Op};

/// The evidence that a line spells, if it spells one.
#[tactic(auto, unfolding(crate::specs::Reading::evidence_of))]
pub fn read_evidence(line: &[u8]) -> Option<Evidence>
    ensures exact { result ≡ evidence_of line.now }
    ensures spelled { IfSome result (λ e. Spells line.now e) }
    ensures none { IfNone result ((e : Evidence) → ¬ Spells line.now e) }
{
    read_words(Words::new(line))
}

fn read_words(mut words: Words) -> Option<Evidence>
    ensures { result ≡ spelled_by words.entry }
{
    if words.next_word()? == b"edit".as_slice() {
        read_named(words)
    } else {
        None
    }
}

/// Reads on from the name.
fn read_named(mut words: Words) -> Option<Evidence>
    ensures { result ≡ named words.entry }
{
    let name = Name::read(words.next_word()?)?;
    read_edit(name, words)
}

/// Reads on from the edit.
fn read_edit(name: Name, mut words: Words) -> Option<Evidence>
    ensures { result ≡ edit_of name words.entry }
{
    let added = read_added(words.next_word()?)?;
    read_place(name, added, words)
}

/// Reads on from the place.
fn read_place(name: Name, added: bool, mut words: Words) -> Option<Evidence>
    ensures { result ≡ edit_at name added words.entry }
{
    let place = read_number(words.next_word()?)?;
    read_row(name, added, place, words)
}

/// Reads on from the number of the row.
fn read_row(name: Name, added: bool, place: u32, mut words: Words) -> Option<Evidence>
    ensures { result ≡ placed name added place words.entry }
{
    let number = read_row_number(words.next_word()?)?;
    let (op, change) = read_op_and_change(words)?;
    Some(Evidence {
        name,
        added,
        place,
        number,
        op,
        change,
    })
}

/// Whether the word says that a row is added.
fn read_added(word: &[u8]) -> Option<bool>
    ensures { result ≡ added_of word.now }
{
    if word == b"add".as_slice() {
        Some(true)
    } else if word == b"cut".as_slice() {
        Some(false)
    } else {
        None
    }
}

fn read_op_and_change(mut words: Words) -> Option<(Op, Change)>
    ensures { result ≡ op_then words.entry }
{
    let word = words.next_word()?;
    if word == b"ins".as_slice() {
        read_ins_and_change(words)
    } else if word == b"delmin".as_slice() {
        Some((Op::DelMin, read_change(words)?))
    } else {
        None
    }
}

fn read_ins_and_change(mut words: Words) -> Option<(Op, Change)>
    ensures { result ≡ ins_then words.entry }
{
    let key = read_key(words.next_word()?)?;
    Some((Op::Ins { key }, read_change(words)?))
}

fn read_change(mut words: Words) -> Option<Change>
    ensures { result ≡ change_of words.entry }
{
    if words.next_word()? == b"bridge".as_slice() {
        read_bridged(words)
    } else {
        None
    }
}

/// Reads on from the bridge.
fn read_bridged(mut words: Words) -> Option<Change>
    ensures { result ≡ bridged words.entry }
{
    let bridge = read_bridge(words.next_word()?)?;
    read_changed(bridge, words)
}

/// Reads on from the word that says whether an entry is gained or lost.
fn read_changed(bridge: Option<u32>, mut words: Words) -> Option<Change>
    ensures { result ≡ changed_at bridge words.entry }
{
    let word = words.next_word()?;
    changed(word, bridge, read_entry(words)?)
}

fn changed(word: &[u8], bridge: Option<u32>, entry: Entry) -> Option<Change>
    ensures { result ≡ changed word.now bridge entry }
{
    if word == b"gain".as_slice() {
        let bridge = bridge?;
        Some(Change::Gain { bridge, entry })
    } else if word == b"lose".as_slice() {
        Some(Change::Lose { bridge, entry })
    } else {
        None
    }
}

/// The bridge that a word spells, which may be none.
fn read_bridge(word: &[u8]) -> Option<Option<u32>>
    ensures { result ≡ bridge_of word.now }
{
    if word == b"none".as_slice() {
        Some(None)
    } else {
        read_number(word).map(Some)
    }
}

/// The entry that the words left spell.
fn read_entry(mut words: Words) -> Option<Entry>
    ensures { result ≡ entry_of words.entry }
{
    let number = read_row_number(words.next_word()?)?;
    read_key_of_entry(number, words)
}

/// The entry of this number whose key is the one word left.
fn read_key_of_entry(number: u32, mut words: Words) -> Option<Entry>
    ensures { result ≡ entry_with number words.entry }
{
    let word = words.next_word()?;
    if words.next_word().is_some() {
        return None;
    }
    Some(Entry {
        key: read_key(word)?,
        number,
    })
}
