//! The counter of rows that are made anew.

ghost use Rattle.std.specs.Prelude.{◌≡◌, ◌+◌, ◌<◌};
ghost use Rattle.costs.specs.Visits.{OpensCounter};

use std::marker::Model;
use std::sync::ledger::{Blank, Book, Ledger, Share};

/// Counts the rows that come into a run that is made anew. It is no counter of visits, so none of them can be counted among
/// these. It takes no bytes and costs nothing when the program runs: contracts alone see it, as a number.
#[derive(Drop)]
pub struct Anew<M: Ledger> {
    book: Book<M>,
    share: Share<M>,
}

impl<M: Ledger> Model for Anew<M> {
    ghost use Rattle.std.specs.Prelude.{ℕ, ◌<◌};

    ghost Value = { ℕ };

    ghost view = { λ a. a.book.total };

    ghost invariant = { λ a. 0 < a.share.parts };
}

impl<M: Ledger> Anew<M> {
    /// A counter at 0, over a ledger that is still blank.
    pub fn new(blank: Blank) -> Anew<M>
        requires counter { OpensCounter blank.name M.name blank.parts M.parts }
        ensures { result ≡ 0 }
    {
        let (book, share) = blank.open();
        Anew { book, share }
    }

    /// Counts so many rows.
    pub(crate) fn count(&mut self, rows: usize)
        ensures { self.new ≡ self.old + rows }
    {
        self.book.add(&mut self.share, rows as u64);
    }
}
