//! The counter of steps, which contracts alone see.

ghost use Rattle.std.specs.Prelude.{◌≡◌, ◌+◌, ◌<◌, ℕ};
ghost use Rattle.costs.specs.Visits.{OpensCounter};

use std::marker::Model;
use std::sync::ledger::{Blank, Book, Ledger, Share};

/// A counter of steps, as of visits of nodes. It takes no bytes and costs nothing when the program
/// runs: contracts alone see it, as a number.
#[derive(Drop)]
pub struct Steps<L: Ledger> {
    book: Book<L>,
    share: Share<L>,
}

impl<L: Ledger> Model for Steps<L> {
    ghost Value = { ℕ };

    ghost view = { λ s. s.book.total };

    ghost invariant = { λ s. 0 < s.share.parts };
}

impl<L: Ledger> Steps<L> {
    /// A counter at 0, over a ledger that is still blank.
    pub fn new(blank: Blank) -> Steps<L>
        requires counter { OpensCounter blank.name L.name blank.parts L.parts }
        ensures { result ≡ 0 }
    {
        let (book, share) = blank.open();
        Steps { book, share }
    }

    /// Counts one step.
    pub fn tick(&mut self)
        ensures { self.new ≡ self.old + 1 }
    {
        self.book.add(&mut self.share, 1);
    }
}
