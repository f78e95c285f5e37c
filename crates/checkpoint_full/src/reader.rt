//! A spare structure that follows questions which go forward in time.
ghost use Rattle.std.specs.Prelude.{◌≡◌, ◌+◌, ◌-◌, ◌*◌, ◌/◌, ◌<◌, ◌≤◌, ◌⊎◌, true, Some, None, IfSome, IfOk};
ghost use Rattle.retro_base.specs.Answers.{answer_of, content};
ghost use Rattle.retro_base.specs.Questions.{suits};
ghost use Rattle.retro_base.specs.Replay.{state_at};
ghost use Rattle.costs.specs.Visits.{VisitsWithin};
ghost use Rattle.checkpoint_full.specs.Checkpoints.{place_of, HoldsFirstRows};

use crate::snapshot::Snapshot;
use retro_base::{Answer, Listing, NoMemory, Partial, Question, Steps};
use std::marker::Model;
use std::sync::ledger::Ledger;

/// A structure that was moved to a place for a question, and stays there for the next one, beside the place that was
/// asked last and how many questions have followed one another closely. Contracts see the structure alone.
#[derive(Drop)]
pub(crate) struct Reader<P: Partial + Drop> {
    copy: Option<Snapshot<P>>,
    last: u32,
    run: u32,
}

impl<P: Partial + Drop> Model for Reader<P> {
    ghost use Rattle.std.specs.Prelude.{Option};
    ghost use Rattle.retro_base.specs.Timeline.{Structure};

    ghost Value = { Option Structure };

    ghost view = { λ r. r.copy };
}

/// No place was asked.
const NOWHERE: u32 = u32::MAX;

/// How far apart places are at the most that follow one another closely.
const CLOSE: u32 = 32;

/// Whether a place follows closely on the one that was asked last.
fn follows(last: u32, place: u32) -> bool {
    last <= place && place - last <= CLOSE
}

/// Whether the structure is moved to the place: it is near, and moving it costs no more than asking the checkpoint, or
/// the questions go on.
fn serves<P: Partial + Drop>(
    copy: &Snapshot<P>,
    checkpoint: &Snapshot<P>,
    place: u32,
    goes_on: bool,
) -> bool
    requires { place_of checkpoint.now ≤ place }
    ensures { result ≡ true → (2 * (place - place_of copy.now) ≤ 3 * (place - place_of checkpoint.now)) × (2 * (place_of copy.now - place) ≤ 3 * (place - place_of checkpoint.now)) }
{
    let apart = u64::from(copy.place().abs_diff(place));
    let between = u64::from(place - checkpoint.place());
    2 * apart <= 3 * between && (goes_on || u64::from(CLOSE) * apart <= between)
}

/// Whether there is no structure within a width of the place.
fn is_far<P: Partial + Drop>(copy: &Snapshot<P>, place: u32, width: u32) -> bool {
    copy.place().abs_diff(place) > width
}

/// How many questions have followed one another closely, the one at this place among them.
fn next_run(run: u32, last: u32, place: u32) -> u32 {
    if follows(last, place) {
        run.saturating_add(1)
    } else {
        0
    }
}

impl<P: Partial + Drop> Reader<P> {
    /// No structure yet.
    pub(crate) fn new() -> Reader<P>
        ensures { result ≡ None }
    {
        Reader {
            copy: None,
            last: NOWHERE,
            run: 0,
        }
    }

    /// Lets the structure go where an edit at the place changes its rows.
    pub(crate) fn after_edit(&mut self, place: u32)
        ensures left { IfSome self.new (λ copy. self.old ≡ Some copy) }
        ensures earlier { IfSome self.new (λ copy. place_of copy ≤ place) }
    {
        if place < self.last {
            self.last = NOWHERE;
        }
        let gone = match &self.copy {
            Some(copy) => copy.is_after(place),
            None => false,
        };
        if gone {
            self.copy = None;
        }
    }

    /// Whether so many questions have followed one another closely that they are taken to go on.
    fn goes_on(&self, width: u32) -> bool {
        self.run >= width / CLOSE
    }

    /// Whether its structure would be moved to the place, or is within a width of it.
    fn is_near(&self, checkpoint: &Snapshot<P>, place: u32, width: u32) -> bool
        requires { place_of checkpoint.now ≤ place }
    {
        match &self.copy {
            Some(copy) => serves(copy, checkpoint, place, true) || !is_far(copy, place, width),
            None => false,
        }
    }

    /// The place is to be asked next. Where questions have followed one another closely for long, and its structure is not
    /// near, it copies the nearest checkpoint; out of memory it has none.
    fn follow(&mut self, checkpoint: &Snapshot<P>, place: u32, width: u32)
        requires earlier { place_of checkpoint.now ≤ place }
        ensures copy { IfSome self.new (λ copy. (self.old ≡ Some copy) ⊎ (copy ≡ checkpoint.now)) }
    {
        self.run = next_run(self.run, self.last, place);
        self.last = place;
        if self.goes_on(width) && !self.is_near(checkpoint, place, width) {
            self.copy = checkpoint.copy().ok();
        }
    }

    /// The place is asked next: `follow`, and then `choose`.
    pub(crate) fn follow_to(
        &mut self,
        checkpoint: &Snapshot<P>,
        place: u32,
        width: u32,
    ) -> Option<Snapshot<P>>
        requires earlier { place_of checkpoint.now ≤ place }
        ensures left { IfSome self.new (λ copy. (self.old ≡ Some copy) ⊎ (copy ≡ checkpoint.now)) }
        ensures chosen { IfSome result (λ copy. (self.old ≡ Some copy) ⊎ (copy ≡ checkpoint.now)) }
        ensures near { IfSome result (λ copy. (2 * (place - place_of copy) ≤ 3 * (place - place_of checkpoint.now)) × (2 * (place_of copy - place) ≤ 3 * (place - place_of checkpoint.now))) }
    {
        self.follow(checkpoint, place, width);
        self.choose(checkpoint, place, width)
    }

    /// Gives out its structure to ask at the place, where that serves.
    fn choose(&mut self, checkpoint: &Snapshot<P>, place: u32, width: u32) -> Option<Snapshot<P>>
        requires earlier { place_of checkpoint.now ≤ place }
        ensures left { IfSome self.new (λ copy. self.old ≡ Some copy) }
        ensures chosen { IfSome result (λ copy. self.old ≡ Some copy) }
        ensures near { IfSome result (λ copy. (2 * (place - place_of copy) ≤ 3 * (place - place_of checkpoint.now)) × (2 * (place_of copy - place) ≤ 3 * (place - place_of checkpoint.now))) }
    {
        let goes_on = self.goes_on(width);
        let own = match &self.copy {
            Some(copy) => serves(copy, checkpoint, place, goes_on),
            None => false,
        };
        if own { self.copy.take() } else { None }
    }

    /// Asks at the place with a structure that was given out, and keeps it there. Out of memory it is let go.
    pub(crate) fn ask<L: Ledger>(
        &mut self,
        copy: Snapshot<P>,
        timeline: &Snapshot<P>,
        place: u32,
        question: Question,
        steps: &mut Steps<L>,
    ) -> Result<Answer, NoMemory>
        requires first { HoldsFirstRows timeline.now copy }
        requires within { place ≤ place_of timeline.now }
        requires suited { suits question timeline.now.kind ≡ true }
        requires reads { IfSome self.old (HoldsFirstRows timeline.now) }
        ensures answer { IfOk result (λ answer. answer ≡ answer_of (state_at timeline.now.kind timeline.now.rows place) question) }
        ensures reads { IfSome self.new (HoldsFirstRows timeline.now) }
        ensures visits { VisitsWithin (288 * (place - place_of copy + (place_of copy - place)) + 144) (place_of timeline.now) steps.old steps.new }
    {
        let mut copy = copy;
        copy.move_to(timeline, place, steps)?;
        let answer = copy.ask_now(question, steps);
        self.copy = Some(copy);
        Ok(answer)
    }

    /// Lists the content at the place with a structure that was given out, and keeps it there. Where there is no memory
    /// to move it, it is let go.
    pub(crate) fn list(
        &mut self,
        copy: Snapshot<P>,
        timeline: &Snapshot<P>,
        place: u32,
    ) -> Result<Listing, NoMemory>
        requires first { HoldsFirstRows timeline.now copy }
        requires within { place ≤ place_of timeline.now }
        requires reads { IfSome self.old (HoldsFirstRows timeline.now) }
        ensures content { IfOk result (λ listing. listing ≡ content (state_at timeline.now.kind timeline.now.rows place)) }
        ensures reads { IfSome self.new (HoldsFirstRows timeline.now) }
    {
        let mut copy = copy;
        copy.bring_to(timeline, place)?;
        let listing = copy.all_now();
        self.copy = Some(copy);
        listing
    }
}
