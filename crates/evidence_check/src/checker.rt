//! The judge, who takes lines.

ghost use Rattle.std.specs.Prelude.{◌≡◌, ◌≤◌, ◌<◌, ◌^◌, length, position, None, Ok, IsOk, IsTrue, OnOk, OnErr, false};
ghost use Rattle.evidence.specs.Evidence.{IsEvidence};
ghost use Rattle.retro_base.specs.Limits.{longest_line};
ghost use Rattle.evidence_check.specs.Judgement.{decided, first_cause, is_evidence_line, is_named, judged_line, nothing_reported, reported_after};

use crate::CheckError;
use crate::reported::Reported;
use evidence::{Evidence, read_evidence};
use retro_base::Name;
use std::alloc::Global;
use std::marker::Model;

/// The most timelines that evidence may name.
const MAX_TIMELINES: usize = 8;

/// Takes the lines of an output one after another, and accepts the evidence among them as long as it is true.
/// Contracts see what was reported, and in how many lines, as a judge of `specs/Judgement.antt`.
#[derive(Drop)]
pub struct Checker {
    alloc: Global,
    reported: Vec<Reported>,
    accepted: u32,
}

impl Model for Checker {
    ghost use Rattle.evidence_check.specs.Judgement.{Judge};

    ghost Value = { Judge };

    ghost view = { λ c. record { reported = c.reported.items; accepted = c.accepted } };
}

impl Checker {
    ghost use Rattle.evidence_check.specs.Refused.{IsRefused, cause_in};

    /// A checker of no line.
    pub fn new(alloc: Global) -> Checker
        ensures { result ≡ nothing_reported }
    {
        Checker {
            alloc,
            reported: Vec::new(alloc),
            accepted: 0,
        }
    }

    /// How many lines of evidence were accepted.
    pub fn accepted(&self) -> u32
        ensures { result ≡ self.now.accepted }
    {
        self.accepted
    }

    /// Takes a line. Of a line that is too long its first bytes are given, as many as a line may have, and `long`
    /// says that it has more. A line that is no evidence is passed over; after an error all is as before.
    #[tactic(auto, unfolding(crate::specs::Judgement::judged_line))]
    pub fn take(&mut self, line: &[u8], long: bool) -> Result<(), CheckError>
        requires within { length line.now ≤ longest_line }
        requires full { IsTrue long → length line.now ≡ longest_line }
        requires count { self.old.accepted < 2 ^ 31 }
        ensures ok { OnOk result (judged_line self.old line.now long ≡ Ok self.new) }
        ensures err { OnErr result (self.new ≡ self.old) }
        ensures cause { IsRefused result (cause_in (judged_line self.old line.now long)) }
        ensures other { is_evidence_line line.now ≡ false → IsOk result × (self.new ≡ self.old) }
    {
        if !line.starts_with(b"edit ") {
            return Ok(());
        }
        if long {
            return Err(CheckError::Syntax);
        }
        match read_evidence(line) {
            None => Err(CheckError::Syntax),
            Some(evidence) => self.take_evidence(&evidence),
        }
    }

    /// Takes evidence, and counts it.
    fn take_evidence(&mut self, evidence: &Evidence) -> Result<(), CheckError>
        requires evidence { IsEvidence evidence.now }
        requires count { self.old.accepted < 2 ^ 31 }
        ensures ok { OnOk result (decided (first_cause self.old.reported evidence.now) self.old evidence.now ≡ Ok self.new) }
        ensures err { OnErr result (self.new ≡ self.old) }
        ensures cause { IsRefused result (first_cause self.old.reported evidence.now) }
    {
        self.tell(evidence)?;
        self.accepted += 1;
        Ok(())
    }

    /// Adds what evidence tells.
    fn tell(&mut self, evidence: &Evidence) -> Result<(), CheckError>
        requires { IsEvidence evidence.now }
        ensures truth { OnOk result (first_cause self.old.reported evidence.now ≡ None) }
        ensures reported { OnOk result (self.new ≡ record self.old { reported = reported_after self.old.reported evidence.now }) }
        ensures err { OnErr result (self.new ≡ self.old) }
        ensures cause { IsRefused result (first_cause self.old.reported evidence.now) }
    {
        match self.index_of(evidence.name) {
            Some(index) => self.reported[index].take(evidence),
            None => self.tell_first(evidence),
        }
    }

    /// Adds what evidence tells of a timeline of which nothing was reported yet.
    fn tell_first(&mut self, evidence: &Evidence) -> Result<(), CheckError>
        requires evidence { IsEvidence evidence.now }
        requires fresh { position (is_named evidence.now.name) self.old.reported ≡ None }
        ensures truth { OnOk result (first_cause self.old.reported evidence.now ≡ None) }
        ensures reported { OnOk result (self.new ≡ record self.old { reported = reported_after self.old.reported evidence.now }) }
        ensures err { OnErr result (self.new ≡ self.old) }
        ensures cause { IsRefused result (first_cause self.old.reported evidence.now) }
    {
        if self.reported.as_slice().len() >= MAX_TIMELINES {
            return Err(CheckError::Timelines);
        }
        let mut reported = Reported::new(self.alloc, evidence.name);
        reported.take(evidence)?;
        self.reported.push(reported)?;
        Ok(())
    }

    /// The index of what was reported under the name.
    fn index_of(&self, name: Name) -> Option<usize>
        ensures { result ≡ position (is_named name) self.now.reported }
    {
        self.reported
            .iter()
            .position(|reported| reported.name() == name)
    }
}
