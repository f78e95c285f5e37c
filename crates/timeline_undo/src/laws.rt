//! An undo leads back.

ghost use Rattle.std.specs.Prelude.{ℕ};
ghost use Rattle.retro_base.specs.Edits.{Step};
ghost use Rattle.timeline_undo.specs.Back.{CanBeMade, LeadsBack, ShiftsCanBeMade};
ghost use Rattle.timeline_undo.specs.Session.{SessionState};

/// A law: an undo that follows an accepted step, which is that of a put, a cut or a shift, leads to the rows from before it, and a
/// redo after that to the edited rows. Every row keeps its number, and the number that comes next is that after the step.
pub fn an_undo_leads_back()
    ensures steps { (session : SessionState) (step : Step) (next : ℕ) → CanBeMade session.rows step → LeadsBack session step next }
    ensures shifts { ShiftsCanBeMade }
{}
