//! The entries of a priority queue in their order.

ghost use Rattle.std.specs.Prelude.{◌≡◌, ◌^◌, ◌<◌, ◌≤◌, [], length, drop, slice_get, map, true, false, Some, IsSome, IfOk, OnOk, OnErr};
ghost use Rattle.std.specs.Option.{option_map};
ghost use Rattle.std.specs.List.{AllWithin};
ghost use Rattle.retro_base.specs.declared.question.Item.TheVariants.{Single};
ghost use Rattle.retro_base.specs.Bridges.{is_among};
ghost use Rattle.retro_base.specs.EntriesInOrder.{AreInOrder};
ghost use Rattle.retro_base.specs.State.{comes_before, entries, step, with_entry};
ghost use Rattle.retro_base.specs.Answers.{answer_of, number_of, key_of};

use crate::{Answer, Entry, Item, Listing, NoMemory, Op, Question, Row};
use std::alloc::Global;
use std::collections::VecDeque;
use std::marker::Model;

/// The entries of a priority queue in their order, the least first.
#[derive(Drop)]
pub(crate) struct Entries {
    held: VecDeque<Entry>,
}

impl Model for Entries {
    ghost use Rattle.std.specs.Prelude.{List};
    ghost use Rattle.retro_base.specs.declared.row.Entry.{Entry};
    ghost use Rattle.retro_base.specs.EntriesInOrder.{AreInOrder};

    ghost Value = { List Entry };

    ghost view = { λ entries. entries.held.items };

    ghost invariant = { λ entries. AreInOrder entries.held.items };
}

impl Entries {
    /// No entries.
    pub(crate) fn new(alloc: Global) -> Entries
        ensures { result ≡ [] }
    {
        Entries {
            held: VecDeque::new(alloc),
        }
    }

    /// How many entries there are.
    pub(crate) fn len(&self) -> usize
        ensures { result ≡ length self.now }
    {
        self.held.len()
    }

    /// The entry at this index, where there is one.
    pub(crate) fn get(&self, index: usize) -> Option<Entry>
        ensures { result ≡ slice_get self.now index }
    {
        self.held.get(index).copied()
    }

    /// How many entries come before this one.
    fn place_of(&self, entry: Entry) -> usize
        ensures order { AreInOrder self.now }
        ensures within { result ≤ length self.now }
        ensures before { AllWithin (λ other. comes_before other entry ≡ true) self.now 0 result }
        ensures after { AllWithin (λ other. comes_before other entry ≡ false) self.now result (length self.now) }
    {
        self.held.partition_point(|other| other.comes_before(entry))
    }

    /// Whether the entry is among them.
    pub(crate) fn contains(&self, entry: Entry) -> bool
        ensures { result ≡ is_among self.now entry }
    {
        match self.get(self.place_of(entry)) {
            Some(found) => entry == found,
            None => false,
        }
    }

    /// Puts one more entry in, in its order. After `NoMemory` all is as before.
    pub(crate) fn insert(&mut self, entry: Entry) -> Result<(), NoMemory>
        ensures ok { OnOk result (self.new ≡ with_entry entry self.old) }
        ensures err { OnErr result (self.new ≡ self.old) }
    {
        let place = self.place_of(entry);
        self.held.insert(place, entry)?;
        Ok(())
    }

    /// Takes the least entry out, where there is one.
    pub(crate) fn take_least(&mut self) -> Option<Entry>
        ensures least { result ≡ slice_get self.old 0 }
        ensures others { self.new ≡ drop 1 self.old }
    {
        self.held.pop_front()
    }
}

/// Performs one more row on entries. After `NoMemory` all is as before.
pub(crate) fn perform_on_entries(held: &mut Entries, row: Row) -> Result<(), NoMemory>
    requires { IsSome (step row (entries held.old)) }
    ensures ok { OnOk result (step row (entries held.old) ≡ Some (entries held.new)) }
    ensures err { OnErr result (held.new ≡ held.old) }
{
    match row.op {
        Op::Ins { key } => held.insert(Entry {
            key,
            number: row.number,
        })?,
        Op::DelMin => {
            held.take_least();
        }
        _ => unreachable!(),
    }
    Ok(())
}

/// The answer that is the key of the entry at this index, where there is one.
fn key_at(held: &Entries, index: usize) -> Answer
    ensures { result ≡ number_of (option_map key_of (slice_get held.now index)) }
{
    match held.get(index) {
        Some(entry) => Answer::Number {
            value: i128::from(entry.key),
        },
        None => Answer::Nothing,
    }
}

/// The answer of entries.
pub(crate) fn answer_from_entries(held: &Entries, question: Question) -> Answer
    ensures { result ≡ answer_of (entries held.now) question }
{
    match question {
        Question::Size => Answer::Number {
            value: held.len() as i128,
        },
        Question::Min => key_at(held, 0),
        Question::Nth { index } => key_at(held, index as usize),
        _ => Answer::Nothing,
    }
}

/// The keys of these entries.
fn keys_of(alloc: Global, held: &VecDeque<Entry>) -> Result<Listing, NoMemory>
    requires { length held.now.items < 2 ^ 32 }
    ensures { IfOk result (λ listing. listing ≡ map (λ entry. Single entry.key) held.now.items) }
{
    let mut listing = Listing::new(alloc);
    for entry in held {
        listing.push(Item::Single { value: entry.key })?;
    }
    Ok(listing)
}

/// The keys of all entries.
pub(crate) fn listing_of_entries(alloc: Global, held: &Entries) -> Result<Listing, NoMemory>
    requires { length held.now < 2 ^ 32 }
    ensures { IfOk result (λ listing. listing ≡ map (λ entry. Single entry.key) held.now) }
{
    keys_of(alloc, &held.held)
}
