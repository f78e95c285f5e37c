//! The name of the run of each number, in pages.

ghost use Rattle.std.specs.Prelude.{◌≡◌, ◌+◌, ◌<◌, ◌≤◌, ◌/◌, [], None, OnOk, OnErr, IsSome, length};
ghost use Rattle.order_timeline.specs.Numbers.{Changes, Writes, IsSame, HasSomeNames, HasPlace, WritesRun, name_in, span};
ghost use Rattle.retro_base.specs.Limits.{most_rows};
ghost use Rattle.retro_base.specs.Timeline.{HaveOwnNumbers};

use crate::page::{Page, SPAN};
use crate::run_name::RunName;
use monoid_laws::Counted;
use retro_base::{NoMemory, PackedRow};
use std::alloc::Global;
use std::marker::Model;
use weighted_tree::{Tree, uncounted};

/// The name of each row's run, by the row's number: a table in pages.
///
/// Numbers are given one after the other, so a page is full where most of its rows are there, and a number that stands
/// alone costs one page.
#[derive(Drop)]
pub(crate) struct Numbers {
    pages: Vec<Page>,
    alloc: Global,
}

impl Model for Numbers {
    ghost use Rattle.order_timeline.specs.Numbers.{Pages};

    ghost Value = { Pages };

    ghost view = { λ numbers. numbers.pages.items };
}

impl Numbers {
    pub(crate) fn new(alloc: Global) -> Numbers
        ensures { result ≡ [] }
    {
        Numbers {
            pages: Vec::new(alloc),
            alloc,
        }
    }

    /// The name of a number, where it has one.
    pub(crate) fn get(&self, number: u32) -> Option<RunName>
        ensures { result ≡ name_in self.now number }
    {
        let index = (number / SPAN) as usize;
        if index < self.pages.len() {
            self.pages[index].get(number % SPAN)
        } else {
            None
        }
    }

    /// Sees to it that the table has the page of a number. What there is stays.
    fn reach(&mut self, number: u32) -> Result<(), NoMemory>
        ensures same { IsSame self.old self.new }
        ensures ok { OnOk result (number / span < length self.new) }
    {
        let index = (number / SPAN) as usize;
        while self.pages.len() <= index {
            self.pages.push(Page::new(self.alloc))?;
        }
        Ok(())
    }

    /// Writes the name of a number of which there is a page. After `NoMemory` all is as before.
    fn put(&mut self, number: u32, name: RunName) -> Result<(), NoMemory>
        requires { number / span < length self.old }
        ensures ok { OnOk result (Writes self.old self.new number name) }
        ensures err { OnErr result (IsSame self.old self.new) }
    {
        self.pages[(number / SPAN) as usize].add(self.alloc, number % SPAN, name)?;
        Ok(())
    }

    /// Writes the name of a number for which there is room.
    fn set(&mut self, number: u32, name: RunName)
        requires { HasPlace self.old number }
        ensures { Writes self.old self.new number name }
    {
        self.pages[(number / SPAN) as usize].set(number % SPAN, name);
    }

    /// Takes the name of a number out for which there is room.
    fn remove_name(&mut self, number: u32)
        requires { HasPlace self.old number }
        ensures { Changes self.old self.new number None }
    {
        self.pages[(number / SPAN) as usize].forget(self.alloc, number % SPAN);
    }
}

/// Notes the name of a number that has none.
pub(crate) fn add(numbers: &mut Numbers, number: u32, name: RunName) -> Result<(), NoMemory>
    ensures ok { OnOk result (Writes numbers.old numbers.new number name) }
    ensures err { OnErr result (IsSame numbers.old numbers.new) }
{
    numbers.reach(number)?;
    numbers.put(number, name)
}

/// Writes the name of a number that has one already, which takes no memory.
pub(crate) fn write(numbers: &mut Numbers, number: u32, name: RunName)
    requires { IsSome (name_in numbers.old number) }
    ensures { Writes numbers.old numbers.new number name }
{
    numbers.set(number, name);
}

/// Takes the name of a number out.
pub(crate) fn forget(numbers: &mut Numbers, number: u32)
    ensures { Changes numbers.old numbers.new number None }
{
    if numbers.get(number).is_some() {
        numbers.remove_name(number);
    }
}

/// Writes one name for each of `count` rows from a place on.
pub(crate) fn write_run(
    numbers: &mut Numbers,
    rows: &Tree<Counted<PackedRow>>,
    from: u32,
    count: u32,
    name: RunName,
)
    requires within { from + count ≤ length rows.now }
    requires few { length rows.now ≤ most_rows }
    requires own { HaveOwnNumbers rows.now }
    requires some { HasSomeNames rows.now numbers.old }
    ensures { WritesRun rows.now from count name numbers.old numbers.new }
{
    for place in from..from + count {
        let number = uncounted::get(rows, place).value().number();
        write(numbers, number, name);
    }
}
