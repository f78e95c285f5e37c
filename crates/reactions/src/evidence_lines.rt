//! The evidence of some edits.

ghost use Rattle.std.specs.Prelude.{◌≡◌, [], ◌∷◌, ◌++◌, OnOk, OnErr};
ghost use Rattle.reactions.specs.Outcome.{evidence_line, evidence_lines};

use evidence::{Evidence, print_evidence};
use retro_base::{NoMemory, Text};
use std::alloc::Global;
use std::marker::Model;

/// The evidence of some edits, in their order, which contracts see as its list.
#[derive(Drop)]
pub struct EvidenceLines {
    lines: Vec<Evidence>,
}

impl Model for EvidenceLines {
    ghost use Rattle.std.specs.Prelude.{List};
    ghost use Rattle.evidence.specs.declared.evidence.Evidence.{Evidence};

    ghost Value = { List Evidence };

    ghost view = { λ e. e.lines.items };
}

impl EvidenceLines {
    /// No evidence.
    pub fn new(alloc: Global) -> EvidenceLines
        ensures { result ≡ [] }
    {
        EvidenceLines {
            lines: Vec::new(alloc),
        }
    }

    /// Appends the evidence of one more edit. After `NoMemory` all is as before.
    pub fn push(&mut self, evidence: Evidence) -> Result<(), NoMemory>
        ensures ok { OnOk result (self.new ≡ self.old ++ evidence ∷ []) }
        ensures err { OnErr result (self.new ≡ self.old) }
    {
        self.lines.push(evidence)?;
        Ok(())
    }

    /// Appends the lines.
    pub(crate) fn print(&self, out: &mut Text) -> Result<(), NoMemory>
        ensures { OnOk result (out.new ≡ out.old ++ evidence_lines self.now) }
    {
        for evidence in self.lines.iter() {
            print_line(evidence, out)?;
        }
        Ok(())
    }
}

/// Appends the line of some evidence.
pub(crate) fn print_line(evidence: &Evidence, out: &mut Text) -> Result<(), NoMemory>
    ensures { OnOk result (out.new ≡ out.old ++ evidence_line evidence.now) }
{
    print_evidence(evidence, out)?;
    out.push_all(b"\n")
}
