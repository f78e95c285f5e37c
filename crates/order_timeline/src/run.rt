//! A run of neighbouring rows.

ghost use Rattle.std.specs.Prelude.{◌≡◌};

use crate::total::Total;
use monoid_laws::Measured;
use std::marker::Model;

/// A run of neighbouring rows: how many they are.
#[derive(Clone, Copy)]
pub(crate) struct Run {
    rows: u32,
}

impl Model for Run {
    ghost use Rattle.std.specs.Prelude.{ℕ};

    ghost Value = { ℕ };

    ghost view = { λ run. run.rows };

    ghost inverse = { λ rows. record { rows = rows } };
}

impl Run {
    pub(crate) fn new(rows: u32) -> Run
        ensures { result ≡ rows }
    {
        Run { rows }
    }

    pub(crate) fn rows(self) -> u32
        ensures { result ≡ self }
    {
        self.rows
    }
}

impl Measured for Run {
    ghost use Rattle.std.specs.Prelude.{refl};
    ghost use Rattle.order_timeline.specs.Totals.{one_total};

    type Measure = Total;

    ghost measured = { one_total };

    ghost single = { λ run. refl };

    fn measure(&self) -> Total {
        Total::single(self.rows)
    }
}
