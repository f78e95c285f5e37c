//! A row as it stands in the tree.

ghost use Rattle.std.specs.Prelude.{◌≡◌};
ghost use Rattle.key_index.specs.KeyRows.{key_of};

use monoid_laws::{Count, Measured};
use retro_base::Op;
use std::marker::Model;

/// A row with its label, as it stands in the tree.
#[derive(Clone, Copy)]
pub(crate) struct KeyRow {
    label: u64,
    op: Op,
}

impl Model for KeyRow {
    ghost use Rattle.std.specs.Prelude.{ℕ};
    ghost use Rattle.retro_base.specs.declared.op.Op.{Op};

    ghost Value = { ℕ × Op };

    ghost view = { λ row. (row.label, row.op) };

    ghost inverse = { λ pair. record { label = pair.0; op = pair.1 } };
}

impl KeyRow {
    pub(crate) fn new(label: u64, op: Op) -> KeyRow
        ensures { result ≡ (label, op) }
    {
        KeyRow { label, op }
    }

    pub(crate) fn label(self) -> u64
        ensures { result ≡ self.0 }
    {
        self.label
    }

    pub(crate) fn op(self) -> Op
        ensures { result ≡ self.1 }
    {
        self.op
    }
}

/// The key of an operation of a dictionary.
pub(crate) fn key_of(op: Op) -> i64
    ensures { result ≡ key_of op }
{
    match op {
        Op::Put { key, .. } => key,
        Op::Del { key } => key,
        _ => 0,
    }
}

impl Measured for KeyRow {
    ghost use Rattle.std.specs.Prelude.{refl};

    type Measure = Count;

    ghost measured = { λ row. 1 };

    ghost single = { λ row. refl };

    fn measure(&self) -> Count {
        Count::single()
    }
}
