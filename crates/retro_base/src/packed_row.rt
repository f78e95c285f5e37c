//! A row in less memory, as trees keep many of them.

ghost use Rattle.std.specs.Prelude.{◌≡◌};
ghost use Rattle.retro_base.specs.Weights.{added_by};

use crate::{Entry, Op, Row};
use std::marker::Model;

/// A row in 32 bytes, where a `Row` takes 40, for whoever keeps many. Contracts see it as the row.
#[derive(Clone, Copy)]
pub struct PackedRow {
    packed: Packed,
}

/// A row by its operation. Its number stands first in each variant, where it fills what would be left empty behind the tag.
#[derive(Clone, Copy)]
enum Packed {
    Enq {
        number: u32,
        time: u64,
        value: i64,
    },
    Deq {
        number: u32,
        time: u64,
    },
    Push {
        number: u32,
        time: u64,
        value: i64,
    },
    Pop {
        number: u32,
        time: u64,
    },
    PushL {
        number: u32,
        time: u64,
        value: i64,
    },
    PushR {
        number: u32,
        time: u64,
        value: i64,
    },
    PopL {
        number: u32,
        time: u64,
    },
    PopR {
        number: u32,
        time: u64,
    },
    Put {
        number: u32,
        time: u64,
        key: i64,
        value: i64,
    },
    Del {
        number: u32,
        time: u64,
        key: i64,
    },
    Ins {
        number: u32,
        time: u64,
        key: i64,
    },
    DelMin {
        number: u32,
        time: u64,
    },
}

const _: () = prove!(size_of::<PackedRow>() == 32);

impl Model for PackedRow {
    ghost use Rattle.std.proofs.Common.{ap};
    ghost use Rattle.retro_base.specs.PackedRows.{unpacked, packed_of, packed_of-unpacked};
    ghost use Rattle.retro_base.specs.declared.row.Row.{Row};

    ghost Value = { Row };

    ghost view = { λ p. unpacked p.packed };

    ghost inverse = { λ row. record { packed = packed_of row } };

    ghost inverse_ok = { λ p h. ap (λ packed. record { packed = packed }) (packed_of-unpacked p.packed) };
}

impl PackedRow {
    /// The row, packed.
    pub fn new(row: Row) -> PackedRow
        ensures { result ≡ row }
    {
        let Row { number, time, op } = row;
        let packed = match op {
            Op::Enq { value } => Packed::Enq {
                number,
                time,
                value,
            },
            Op::Deq => Packed::Deq { number, time },
            Op::Push { value } => Packed::Push {
                number,
                time,
                value,
            },
            Op::Pop => Packed::Pop { number, time },
            Op::PushL { value } => Packed::PushL {
                number,
                time,
                value,
            },
            Op::PushR { value } => Packed::PushR {
                number,
                time,
                value,
            },
            Op::PopL => Packed::PopL { number, time },
            Op::PopR => Packed::PopR { number, time },
            Op::Put { key, value } => Packed::Put {
                number,
                time,
                key,
                value,
            },
            Op::Del { key } => Packed::Del { number, time, key },
            Op::Ins { key } => Packed::Ins { number, time, key },
            Op::DelMin => Packed::DelMin { number, time },
        };
        PackedRow { packed }
    }

    /// The row.
    pub fn row(self) -> Row
        ensures { result ≡ self }
    {
        Row {
            number: self.number(),
            time: self.time(),
            op: self.op(),
        }
    }

    /// Its number.
    pub fn number(self) -> u32
        ensures { result ≡ self.number }
    {
        match self.packed {
            Packed::Enq { number, .. } => number,
            Packed::Deq { number, .. } => number,
            Packed::Push { number, .. } => number,
            Packed::Pop { number, .. } => number,
            Packed::PushL { number, .. } => number,
            Packed::PushR { number, .. } => number,
            Packed::PopL { number, .. } => number,
            Packed::PopR { number, .. } => number,
            Packed::Put { number, .. } => number,
            Packed::Del { number, .. } => number,
            Packed::Ins { number, .. } => number,
            Packed::DelMin { number, .. } => number,
        }
    }

    /// When it is performed.
    pub fn time(self) -> u64
        ensures { result ≡ self.time }
    {
        match self.packed {
            Packed::Enq { time, .. } => time,
            Packed::Deq { time, .. } => time,
            Packed::Push { time, .. } => time,
            Packed::Pop { time, .. } => time,
            Packed::PushL { time, .. } => time,
            Packed::PushR { time, .. } => time,
            Packed::PopL { time, .. } => time,
            Packed::PopR { time, .. } => time,
            Packed::Put { time, .. } => time,
            Packed::Del { time, .. } => time,
            Packed::Ins { time, .. } => time,
            Packed::DelMin { time, .. } => time,
        }
    }

    /// The entry that it adds to a priority queue, where it adds one.
    pub fn added_entry(self) -> Option<Entry>
        ensures { result ≡ added_by self }
    {
        match self.packed {
            Packed::Ins { number, key, .. } => Some(Entry { key, number }),
            _ => None,
        }
    }

    /// What it does.
    pub fn op(self) -> Op
        ensures { result ≡ self.op }
    {
        match self.packed {
            Packed::Enq { value, .. } => Op::Enq { value },
            Packed::Deq { .. } => Op::Deq,
            Packed::Push { value, .. } => Op::Push { value },
            Packed::Pop { .. } => Op::Pop,
            Packed::PushL { value, .. } => Op::PushL { value },
            Packed::PushR { value, .. } => Op::PushR { value },
            Packed::PopL { .. } => Op::PopL,
            Packed::PopR { .. } => Op::PopR,
            Packed::Put { key, value, .. } => Op::Put { key, value },
            Packed::Del { key, .. } => Op::Del { key },
            Packed::Ins { key, .. } => Op::Ins { key },
            Packed::DelMin { .. } => Op::DelMin,
        }
    }
}
