//! The follower that keeps the present of one timeline.

ghost use Rattle.std.specs.Prelude.{◌≡◌, ◌<◌, ◌≤◌, ◌++◌, [], length, flat_map, position, IfSome, OnOk, OnErr};
ghost use Rattle.std.specs.List.{position_or_len};
ghost use Rattle.retro_base.specs.Bridges.{same_entry};
ghost use Rattle.retro_base.specs.State.{comes_before, with_entry};
ghost use Rattle.retro_base.specs.Text.{AppendsPrefix};
ghost use Rattle.followers.specs.Mirrors.{changed, held_after, key_text, keys_text, mirror_text, without_entry};

use crate::Follower;
use evidence::Evidence;
use retro_base::{Change, Entry, Name, NoMemory, Text};
use std::alloc::Global;
use std::marker::Model;

/// A follower that keeps the entries that the events of one name leave, in their order: each gain adds its entry, and each loss
/// takes its entry out, where it is there.
#[derive(Drop)]
pub struct Mirror {
    name: Name,
    entries: Vec<Entry>,
}

impl Model for Mirror {
    ghost use Rattle.followers.specs.Mirrors.{Mirrored};

    ghost Value = { Mirrored };

    ghost view = { λ m. record { name = m.name; entries = m.entries.items } };
}

impl Mirror {
    /// A mirror of this name, without entries.
    pub fn new(alloc: Global, name: Name) -> Mirror
        ensures { result ≡ record { name = name; entries = [] } }
    {
        Mirror {
            name,
            entries: Vec::new(alloc),
        }
    }
}

impl Follower for Mirror {
    ghost report_after = { λ mirror events. mirror_text mirror.name (held_after mirror.name mirror.entries events) };

    fn take(&mut self, event: &Evidence) -> Result<(), NoMemory> {
        if event.name == self.name {
            change_entries(&mut self.entries, event.change)
        } else {
            Ok(())
        }
    }

    fn report(&self, out: &mut Text) -> Result<(), NoMemory> {
        out.push_all(b"mirror ")?;
        out.push_all(self.name.bytes())?;
        print_keys(&self.entries, out)
    }
}

/// Makes of the entries what a change leaves of them. After `NoMemory` they are as before.
fn change_entries(entries: &mut Vec<Entry>, change: Change) -> Result<(), NoMemory>
    ensures ok { OnOk result (entries.new.items ≡ changed change entries.old.items) }
    ensures err { OnErr result (entries.new.items ≡ entries.old.items) }
{
    match change {
        Change::Plain => Ok(()),
        Change::Gain { entry, .. } => put_entry(entries, entry),
        Change::Lose { entry, .. } => {
            take_entry(entries, entry);
            Ok(())
        }
    }
}

/// Puts an entry in, in its order. After `NoMemory` the entries are as before.
fn put_entry(entries: &mut Vec<Entry>, entry: Entry) -> Result<(), NoMemory>
    ensures ok { OnOk result (entries.new.items ≡ with_entry entry entries.old.items) }
    ensures err { OnErr result (entries.new.items ≡ entries.old.items) }
{
    let place = place_for(entries, entry);
    entries.insert(place, entry)?;
    Ok(())
}

/// How many entries stand in front of the place of this one.
fn place_for(entries: &[Entry], entry: Entry) -> usize
    ensures place { result ≡ position_or_len (λ held. comes_before entry held) entries.now }
    ensures within { result ≤ length entries.now }
{
    entries
        .iter()
        .take_while(|held| !entry.comes_before(**held))
        .count()
}

/// Takes an entry out, where it is there.
fn take_entry(entries: &mut Vec<Entry>, entry: Entry)
    ensures { entries.new.items ≡ without_entry entry entries.old.items }
{
    if let Some(place) = place_of(entries, entry) {
        entries.remove(place);
    }
}

/// Where the entry stands first, if it is there.
fn place_of(entries: &[Entry], entry: Entry) -> Option<usize>
    ensures place { result ≡ position (λ held. same_entry entry held) entries.now }
    ensures within { IfSome result (λ place. place < length entries.now) }
{
    entries.iter().position(|held| entry == *held)
}

/// Appends the keys of the entries in their order, with a space before each, or says that there are none.
fn print_keys(entries: &[Entry], out: &mut Text) -> Result<(), NoMemory>
    ensures ok { OnOk result (out.new ≡ out.old ++ keys_text entries.now) }
    ensures err { OnErr result (AppendsPrefix out.old out.new (keys_text entries.now)) }
{
    match entries {
        [] => out.push_all(b" empty"),
        [_, ..] => print_each(entries, out),
    }
}

/// Appends the key of each entry, after a space.
fn print_each(entries: &[Entry], out: &mut Text) -> Result<(), NoMemory>
    ensures ok { OnOk result (out.new ≡ out.old ++ flat_map key_text entries.now) }
    ensures err { OnErr result (AppendsPrefix out.old out.new (flat_map key_text entries.now)) }
{
    for entry in entries {
        print_key(entry, out)?;
    }
    Ok(())
}

/// Appends the key of an entry, after a space.
fn print_key(entry: &Entry, out: &mut Text) -> Result<(), NoMemory>
    ensures ok { OnOk result (out.new ≡ out.old ++ key_text entry.now) }
    ensures err { OnErr result (AppendsPrefix out.old out.new (key_text entry.now)) }
{
    out.push_all(b" ")?;
    out.push_number(entry.key)
}
