//! Questions about the past: the nearest checkpoint that is not after the place is lent to answer for the timeline, and stays as it is.
ghost use Rattle.std.specs.Prelude.{◌≡◌, ◌+◌, ◌-◌, ◌*◌, ◌<◌, ◌≤◌, length, get_or, true, IfSome, IfOk};
ghost use Rattle.retro_base.specs.Answers.{answer_of, content};
ghost use Rattle.retro_base.specs.Questions.{suits};
ghost use Rattle.retro_base.specs.Replay.{state_at};
ghost use Rattle.costs.specs.Visits.{VisitsWithin};
ghost use Rattle.checkpoint_full.specs.Checkpoints.{place_of, were_made, AreCheckpoints, HoldsFirstRows};

use crate::checkpoints::nearest;
use crate::reader::Reader;
use crate::snapshot::Snapshot;
use retro_base::{Answer, Listing, NoMemory, Partial, Question, Steps};
use std::sync::ledger::Ledger;

/// The checkpoint that is nearest to the place, and not after it.
fn nearest_earlier<P: Partial + Drop>(
    checkpoints: &[Snapshot<P>],
    timeline: &Snapshot<P>,
    width: u32,
    place: u32,
) -> usize
    requires made { were_made checkpoints.now ≡ true }
    requires checkpoints { AreCheckpoints width timeline.now checkpoints.now }
    requires within { place ≤ place_of timeline.now }
    ensures there { result < length checkpoints.now }
    ensures near { (earlier : _) → earlier ≡ get_or checkpoints.now result earlier
        → HoldsFirstRows timeline.now earlier × (place_of earlier ≤ place) × (place ≤ place_of earlier + width) }
{
    nearest(checkpoints, place).unwrap()
}

/// Asks at a place.
pub(crate) fn ask_at<P: Partial + Drop, L: Ledger>(
    reader: &mut Reader<P>,
    checkpoints: &[Snapshot<P>],
    timeline: &Snapshot<P>,
    width: u32,
    place: u32,
    question: Question,
    steps: &mut Steps<L>,
) -> Result<Answer, NoMemory>
    requires made { were_made checkpoints.now ≡ true }
    requires checkpoints { AreCheckpoints width timeline.now checkpoints.now }
    requires within { place ≤ place_of timeline.now }
    requires suited { suits question timeline.now.kind ≡ true }
    requires reads { IfSome reader.old (HoldsFirstRows timeline.now) }
    ensures reads { IfSome reader.new (HoldsFirstRows timeline.now) }
    ensures answer { IfOk result (λ answer. answer ≡ answer_of (state_at timeline.now.kind timeline.now.rows place) question) }
    ensures visits { VisitsWithin (432 * (width + 1)) (place_of timeline.now) steps.old steps.new }
{
    if place == timeline.place() {
        return Ok(timeline.ask_now(question, steps));
    }
    let index = nearest_earlier(checkpoints, timeline, width, place);
    match reader.follow_to(&checkpoints[index], place, width) {
        Some(copy) => reader.ask(copy, timeline, place, question, steps),
        None => checkpoints[index].ask_after(timeline, place, question, steps),
    }
}

/// Lists the content at a place.
pub(crate) fn list_at<P: Partial + Drop>(
    reader: &mut Reader<P>,
    checkpoints: &[Snapshot<P>],
    timeline: &Snapshot<P>,
    width: u32,
    place: u32,
) -> Result<Listing, NoMemory>
    requires made { were_made checkpoints.now ≡ true }
    requires checkpoints { AreCheckpoints width timeline.now checkpoints.now }
    requires within { place ≤ place_of timeline.now }
    requires reads { IfSome reader.old (HoldsFirstRows timeline.now) }
    ensures reads { IfSome reader.new (HoldsFirstRows timeline.now) }
    ensures content { IfOk result (λ listing. listing ≡ content (state_at timeline.now.kind timeline.now.rows place)) }
{
    if place == timeline.place() {
        return timeline.all_now();
    }
    let index = nearest_earlier(checkpoints, timeline, width, place);
    match reader.follow_to(&checkpoints[index], place, width) {
        Some(copy) => reader.list(copy, timeline, place),
        None => checkpoints[index].list_after(timeline, place),
    }
}
