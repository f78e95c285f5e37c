//! A page of names of numbers that follow one another.

ghost use Rattle.std.specs.Prelude.{◌≡◌, ◌<◌, None, Some, [], length, get_or, replicate, IfOk, OnOk, OnErr};
ghost use Rattle.std.specs.List.{list_all};
ghost use Rattle.std.specs.Option.{is_none};
ghost use Rattle.order_timeline.specs.Numbers.{span, PageChanges};

use crate::run_name::{RunName, Slot};
use retro_base::NoMemory;
use std::alloc::Global;
use std::marker::Model;

/// How many numbers a page has.
pub(crate) const SPAN: u32 = 256;

/// The names of numbers that follow one another. A page without any takes no memory.
#[derive(Drop)]
pub(crate) struct Page {
    names: Vec<Slot>,
}

impl Model for Page {
    ghost use Rattle.std.specs.Prelude.{List, Option, ℕ, vec_capacity};
    ghost use Rattle.order_timeline.specs.Numbers.{IsPage};

    ghost Value = { List (Option ℕ) };

    ghost view = { λ page. page.names.items };

    ghost invariant = { λ page. IsPage (vec_capacity page.names) page.names.items };
}

impl Page {
    pub(crate) fn new(alloc: Global) -> Page
        ensures { result ≡ [] }
    {
        Page {
            names: Vec::new(alloc),
        }
    }

    /// The name at a place, where there is one.
    pub(crate) fn get(&self, place: u32) -> Option<RunName>
        ensures { result ≡ get_or self.now place None }
    {
        match self.names.get(place as usize) {
            Some(slot) => slot.name(),
            None => None,
        }
    }

    /// Writes a name at a place. After `NoMemory` the page is as before.
    pub(crate) fn add(&mut self, alloc: Global, place: u32, name: RunName) -> Result<(), NoMemory>
        requires { place < span }
        ensures ok { OnOk result (PageChanges self.old self.new place (Some name)) }
        ensures err { OnErr result (self.new ≡ self.old) }
    {
        if self.names.len() == 0 {
            let mut names = without_names(alloc)?;
            names[place as usize] = Slot::of(name);
            self.names = names;
            return Ok(());
        }
        self.names[place as usize] = Slot::of(name);
        Ok(())
    }

    /// Writes a name at a place for which there is room.
    pub(crate) fn set(&mut self, place: u32, name: RunName)
        requires { place < length self.old }
        ensures { PageChanges self.old self.new place (Some name) }
    {
        self.names[place as usize] = Slot::of(name);
    }

    /// Takes the name at a place out. A page that has none left gives its memory back.
    pub(crate) fn forget(&mut self, alloc: Global, place: u32)
        requires { place < length self.old }
        ensures { PageChanges self.old self.new place None }
    {
        self.names[place as usize] = Slot::empty();
        if are_none(self.names.as_slice()) {
            self.names = Vec::new(alloc);
        }
    }
}

/// Room for the name of each number of a page.
fn without_names(alloc: Global) -> Result<Vec<Slot>, NoMemory>
    ensures { IfOk result (λ names. names.items ≡ replicate span None) }
{
    let mut names = Vec::new(alloc);
    names.resize(SPAN as usize, Slot::empty())?;
    Ok(names)
}

/// Whether none of these is a name.
fn are_none(names: &[Slot]) -> bool
    ensures { result ≡ list_all is_none names.now }
{
    names.iter().all(|slot| slot.is_empty())
}
