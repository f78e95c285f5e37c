//! What is known of rows that follow one another without a look at them.

ghost use Rattle.std.specs.Prelude.{◌≡◌, ◌+◌, ◌≤◌, [], ◌∷◌};
ghost use Rattle.retro_base.specs.Limits.{most_rows};
ghost use Rattle.evidence_check.specs.Sums.{AreBounded, joined, lesser, sums_of};

use crate::better::{Sought, better_of};
use crate::weighed_row::WeighedRow;
use retro_base::Entry;

/// The sums of some rows.
#[derive(Clone, Copy)]
pub(crate) struct Sums {
    /// How many rows there are.
    pub(crate) rows: u32,
    /// Their weights, added up.
    pub(crate) sum: i32,
    /// The least of the sums of the first one, the first two and so on of them; 1 where there is none.
    pub(crate) low: i32,
    /// The greatest entry among those that are dead.
    pub(crate) dead: Option<Entry>,
    /// The least entry among those that survive.
    pub(crate) alive: Option<Entry>,
}

impl Sums {
    /// Those of no row.
    pub(crate) fn none() -> Sums
        ensures { result ≡ sums_of [] }
    {
        Sums {
            rows: 0,
            sum: 0,
            low: 1,
            dead: None,
            alive: None,
        }
    }

    /// Those of one row.
    pub(crate) fn of_row(row: WeighedRow) -> Sums
        ensures { result ≡ sums_of (row ∷ []) }
    {
        let weight = row.weight();
        Sums {
            rows: 1,
            sum: weight,
            low: weight,
            dead: row.dead_entry(),
            alive: row.alive_entry(),
        }
    }

    /// Those of these rows and then others.
    pub(crate) fn join(self, other: Sums) -> Sums
        requires bounded { AreBounded self }
        requires other { AreBounded other }
        requires few { self.rows + other.rows ≤ most_rows }
        ensures { result ≡ joined self other }
    {
        Sums {
            rows: self.rows + other.rows,
            sum: self.sum + other.sum,
            low: lesser(self.low, self.sum + other.low),
            dead: better_of(Sought::Dead, self.dead, other.dead),
            alive: better_of(Sought::Alive, self.alive, other.alive),
        }
    }
}

/// The lesser one of two numbers.
fn lesser(number: i32, other: i32) -> i32
    ensures { result ≡ lesser number other }
{
    if other < number { other } else { number }
}
