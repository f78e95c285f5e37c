//! What was reported of one timeline.

ghost use Rattle.std.specs.Prelude.{◌≡◌, [], None, OnOk, OnErr};
ghost use Rattle.evidence.specs.Evidence.{IsEvidence};
ghost use Rattle.evidence_check.specs.Truth.{cause_of, rows_after};

use crate::CheckError;
use crate::causes::cause_of;
use crate::edits::make;
use crate::numbers::Numbers;
use crate::pack::Pack;
use crate::rows::Rows;
use evidence::Evidence;
use retro_base::Name;
use std::alloc::Global;
use std::marker::Model;

/// What evidence has reported of one timeline: its rows, and their numbers beside them.
#[derive(Drop)]
pub(crate) struct Reported {
    alloc: Global,
    name: Name,
    rows: Rows,
    numbers: Numbers,
}

impl Model for Reported {
    ghost use Rattle.evidence_check.specs.Judgement.{Reported};
    ghost use Rattle.evidence_check.specs.KeptNumbers.{AreWeighed};
    ghost use Rattle.evidence_check.specs.Marks.{rows_of};

    ghost Value = { Reported };

    ghost view = { λ t. record { name = t.name; rows = rows_of t.rows } };

    ghost invariant = { λ t. AreWeighed t.rows t.numbers };
}

impl Reported {
    ghost use Rattle.evidence_check.specs.Refused.{IsRefused};

    /// Nothing, under this name.
    pub(crate) fn new(alloc: Global, name: Name) -> Reported
        ensures { result ≡ record { name = name; rows = [] } }
    {
        Reported {
            alloc,
            name,
            rows: Pack::new(alloc),
            numbers: Numbers::new(alloc),
        }
    }

    /// The name of the timeline.
    pub(crate) fn name(&self) -> Name
        ensures { result ≡ self.now.name }
    {
        self.name
    }

    /// Takes evidence, where it is true. Else all is as before.
    pub(crate) fn take(&mut self, evidence: &Evidence) -> Result<(), CheckError>
        requires { IsEvidence evidence.now }
        ensures ok { OnOk result (cause_of self.old.rows evidence.now ≡ None) }
        ensures rows { OnOk result (self.new ≡ record self.old { rows = rows_after self.old.rows evidence.now }) }
        ensures err { OnErr result (self.new ≡ self.old) }
        ensures cause { IsRefused result (cause_of self.old.rows evidence.now) }
    {
        match cause_of(&self.rows, &self.numbers, evidence) {
            Some(cause) => Err(cause),
            None => make(&mut self.rows, &mut self.numbers, evidence, self.alloc),
        }
    }
}
