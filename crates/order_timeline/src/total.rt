//! How many rows some runs have, as a measure.

ghost use Rattle.std.specs.Prelude.{◌≡◌};
ghost use Rattle.order_timeline.specs.Totals.{one_total};

use monoid_laws::Monoid;
use std::marker::Model;

/// How many rows some runs have.
#[derive(Clone, Copy)]
pub(crate) struct Total {
    runs: u32,
    rows: u64,
}

impl Model for Total {
    ghost use Rattle.std.specs.Prelude.{◌*◌, ◌^◌, ◌≤◌};
    ghost use Rattle.order_timeline.specs.Totals.{Total as Seen};

    ghost Value = { Seen };

    ghost view = { λ t. record { runs = t.runs; rows = t.rows } };

    ghost inverse = { λ t. record { runs = t.runs; rows = t.rows } };

    ghost invariant = { λ t. t.rows ≤ t.runs * 2 ^ 32 };
}

impl Total {
    /// The value of one run.
    pub(crate) fn single(rows: u32) -> Total
        ensures { result ≡ one_total rows }
    {
        Total {
            runs: 1,
            rows: u64::from(rows),
        }
    }

    pub(crate) fn rows(&self) -> u64
        ensures { result ≡ self.now.rows }
    {
        self.rows
    }
}

impl Monoid for Total {
    ghost use Rattle.order_timeline.specs.Totals.{no_total, joined_total};
    ghost use Rattle.order_timeline.specs.TotalLaws.{total_laws};

    ghost items_of = { λ t. t.runs };

    ghost unit_value = { no_total };

    ghost joined = { joined_total };

    ghost laws = { total_laws };

    fn unit() -> Total {
        Total { runs: 0, rows: 0 }
    }

    fn items(&self) -> u32 {
        self.runs
    }

    fn join(self, other: Total) -> Total {
        Total {
            runs: self.runs + other.runs,
            rows: self.rows + other.rows,
        }
    }

    fn with(self, part: Total) -> Option<Total> {
        Some(self.join(part))
    }

    fn without(self, part: Total) -> Option<Total> {
        if self.runs < part.runs || self.rows < part.rows {
            return None;
        }
        let (runs, rows) = (self.runs - part.runs, self.rows - part.rows);
        if rows > u64::from(runs) << 32 {
            return None;
        }
        Some(Total { runs, rows })
    }
}
