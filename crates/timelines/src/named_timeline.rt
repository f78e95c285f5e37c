//! A timeline with its name, and the session that keeps its rows.

ghost use Rattle.std.specs.Prelude.{◌≡◌, true, IfOk};
ghost use Rattle.reactions.specs.declared.outcome.Outcome.TheVariants.{Refused};
ghost use Rattle.reactions.specs.declared.outcome.Refusal.TheVariants.{NoRow};

use reactions::{Outcome, Refusal};
use retro_base::{AnyStructure, Kind, Name, NoMemory};
use std::alloc::Global;
use std::marker::Model;
use timeline_undo::Session;

/// A timeline of the bench: its name, and the session that keeps and performs its rows.
#[derive(Drop)]
pub(crate) struct NamedTimeline<R: AnyStructure> {
    pub(crate) alloc: Global,
    pub(crate) name: Name,
    pub(crate) session: Session<R>,
}

impl<R: AnyStructure> Model for NamedTimeline<R> {
    ghost use Rattle.timelines.specs.Kept.{KeptTimeline, kept_over};

    ghost Value = { KeptTimeline };

    ghost view = { λ t. kept_over t.name t.session };
}

impl<R: AnyStructure> NamedTimeline<R> {
    ghost use Rattle.reactions.specs.Bench.{fresh};
    ghost use Rattle.timelines.specs.Kept.{is_kept_as, kept_over, unspent};

    /// A timeline without rows. A fused one is a priority queue that is held as a product of pieces.
    pub(crate) fn new(
        alloc: Global,
        name: Name,
        kind: Kind,
        fused: bool,
    ) -> Result<NamedTimeline<R>, NoMemory>
        requires { fused ≡ true → kind ≡ Kind.Pq }
        ensures { IfOk result (λ timeline. timeline ≡ unspent (fresh name kind)) }
    {
        let session = Session::new(alloc, R::empty(alloc, kind, fused), 1)?;
        Ok(NamedTimeline {
            alloc,
            name,
            session,
        })
    }

    /// Whether it has the name.
    pub(crate) fn is_named(&self, name: &Name) -> bool
        ensures { result ≡ is_kept_as name.now self.now }
    {
        self.name == *name
    }

    /// The session that keeps and performs the rows.
    pub(crate) fn session(&self) -> &Session<R>
        ensures { self.now ≡ kept_over self.now.timeline.name result.now }
    {
        &self.session
    }

    /// Whether the session met out of memory within a step.
    pub(crate) fn spent(&self) -> bool
        ensures { result ≡ self.now.spent }
    {
        self.session.spent()
    }
}

/// The outcome of a line that names a row that is not there.
pub(crate) fn no_row(number: u32) -> Outcome
    ensures { result ≡ Refused (NoRow number) }
{
    Outcome::refused(Refusal::NoRow { number })
}
