//! Evidence is judged up to the first line that is refused.

ghost use Rattle.std.specs.Prelude.{◌≡◌, ◌<◌, ◌≤◌, ◌^◌, ◌++◌, [], length, IsTrue, OnOk, OnErr, false};
ghost use Rattle.evidence_check.specs.Judgement.{cause_text, nothing_reported};
ghost use Rattle.retro_base.specs.Limits.{longest_line};
ghost use Rattle.retro_run.specs.Judging.{is_refusal, judgement_after, judgement_line, lines_read, so_far, with_line};

use evidence_check::{CheckError, Checker};
use retro_base::{NoMemory, Text};
use std::alloc::Global;
use std::marker::Model;

/// The first line that was refused.
#[derive(Clone, Copy)]
struct Refusal {
    line: u32,
    cause: CheckError,
}

/// The judgement of evidence, line by line, up to the first line that is refused.
#[derive(Drop)]
pub(crate) struct Judging {
    checker: Checker,
    lines: u32,
    refusal: Option<Refusal>,
}

impl Model for Judging {
    ghost use Rattle.std.specs.Prelude.{◌≤◌, ◌≡◌};
    ghost use Rattle.retro_run.specs.Judging.{RefusalIsRead, Verdict, verdict};

    ghost Value = { Verdict };

    ghost view = { λ j. verdict j.checker j.lines j.refusal };

    ghost invariant = { λ j. (j.checker.accepted ≤ j.lines) × RefusalIsRead j.lines j.refusal };
}

impl Judging {
    /// Of no line.
    pub(crate) fn new(alloc: Global) -> Judging
        ensures { result ≡ so_far 0 nothing_reported }
    {
        Judging {
            checker: Checker::new(alloc),
            lines: 0,
            refusal: None,
        }
    }

    /// Takes a line. Of a line that is too long its first bytes are given, as many as a line may have, and `long`
    /// says that it has more. Out of memory never hides a refusal.
    pub(crate) fn take(&mut self, line: &[u8], long: bool) -> Result<(), NoMemory>
        requires within { length line.now ≤ longest_line }
        requires full { IsTrue long → length line.now ≡ longest_line }
        requires count { lines_read self.old < 2 ^ 31 }
        ensures judged { OnOk result (self.new ≡ with_line self.old line.now long) }
        ensures none_hidden { OnErr result (is_refusal (judgement_after (with_line self.old line.now long) []) ≡ false) }
    {
        if self.refusal.is_some() {
            return Ok(());
        }
        self.lines += 1;
        match self.checker.take(line, long) {
            Ok(()) => Ok(()),
            Err(CheckError::NoMemory) => Err(NoMemory),
            Err(cause) => {
                self.refusal = Some(Refusal {
                    line: self.lines,
                    cause,
                });
                Ok(())
            }
        }
    }

    /// Whether a line was refused.
    pub(crate) fn is_refused(&self) -> bool
        ensures { result ≡ is_refusal (judgement_after self.now []) }
    {
        self.refusal.is_some()
    }

    /// Appends the line that says the judgement of the lines taken.
    pub(crate) fn print(&self, out: &mut Text) -> Result<(), NoMemory>
        ensures { OnOk result (out.new ≡ out.old ++ judgement_line (judgement_after self.now [])) }
    {
        match self.refusal {
            None => {
                out.push_all(b"accepted ")?;
                out.push_number(self.checker.accepted())?;
            }
            Some(refusal) => {
                out.push_all(b"refused line ")?;
                out.push_number(refusal.line)?;
                out.push_all(b" ")?;
                out.push_all(cause_word(refusal.cause))?;
            }
        }
        out.push_all(b"\n")
    }
}

/// The word of a cause.
fn cause_word(cause: CheckError) -> &'static [u8]
    ensures { result.now ≡ cause_text cause }
{
    match cause {
        CheckError::Syntax => b"syntax",
        CheckError::Timelines => b"timelines",
        CheckError::Full => b"full",
        CheckError::Place => b"place",
        CheckError::Number => b"number",
        CheckError::Row => b"row",
        CheckError::Replay => b"replay",
        CheckError::Bridge => b"bridge",
        CheckError::Entry => b"entry",
        CheckError::NoMemory => b"",
    }
}
