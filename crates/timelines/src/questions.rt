//! What is asked of a timeline, and what is saved of it.

ghost use Rattle.std.specs.Prelude.{◌≡◌, ◌≤◌, ◌++◌, true, false, length, IfOk, OnErr, OnOk};
ghost use Rattle.retro_base.specs.Answers.{content};
ghost use Rattle.retro_base.specs.Questions.{suits};
ghost use Rattle.retro_base.specs.Replay.{state_at};
ghost use Rattle.script_grammar.specs.declared.command.Moment.TheVariants.{Then};
ghost use Rattle.script_grammar.specs.declared.command.Query.TheVariants.{One, All};
ghost use Rattle.reactions.specs.declared.outcome.Outcome.TheVariants.{Listed, Taken};

use crate::named_timeline::{NamedTimeline, no_row};
use crate::position::{position_of, row_named};
use fates::{Fate, fate_of};
use order_timeline::Timeline;
use reactions::{Outcome, Refusal, tell_answer, tell_refusal};
use retro_base::{Answer, AnyStructure, NoMemory, Question, Row, Rows, Text};
use script_grammar::{Moment, Query, Spot};
use std::alloc::Global;

impl<R: AnyStructure> NamedTimeline<R> {
    ghost use Rattle.timelines.specs.Kept.{IsUnspent};
    ghost use Rattle.reactions.specs.Outcome.{is_refusal, reply_text};
    ghost use Rattle.reactions.specs.TimelineEffects.{answers, answers_fate, saves};
    ghost use Rattle.timelines.specs.AnsweredLine.{found_or_refused};

    /// Writes the answer at a moment, and gives whether the question is refused. The timeline stays as it is, whatever the
    /// answer.
    #[inline(never)]
    pub(crate) fn ask(
        &mut self,
        moment: Moment,
        query: Query,
        answer: &mut Text,
    ) -> Result<bool, NoMemory>
        requires unspent { IsUnspent self.old }
        ensures unchanged { self.new ≡ self.old }
        ensures answer { OnOk result (answer.new ≡ answer.old ++ reply_text (answers self.old.timeline moment query)) }
        ensures refused { IfOk result (λ refused. refused ≡ is_refusal (answers self.old.timeline moment query)) }
    {
        match query {
            Query::One { question } => self.ask_one(moment, question, answer),
            Query::All => self.list_into(moment, answer),
        }
    }

    /// Writes the answer to one question, or why it has none.
    fn ask_one(
        &mut self,
        moment: Moment,
        question: Question,
        answer: &mut Text,
    ) -> Result<bool, NoMemory>
        requires unspent { IsUnspent self.old }
        ensures unchanged { self.new ≡ self.old }
        ensures answer { OnOk result (answer.new ≡ answer.old ++ reply_text (answers self.old.timeline moment (One question))) }
        ensures refused { IfOk result (λ refused. refused ≡ is_refusal (answers self.old.timeline moment (One question))) }
    {
        match self.answer_to(moment, question)? {
            Ok(found) => tell_answer(found, answer),
            Err(refusal) => tell_refusal(refusal, answer),
        }
    }

    /// The answer to one question, where it suits the kind. The present is answered from what is kept.
    fn answer_to(
        &mut self,
        moment: Moment,
        question: Question,
    ) -> Result<Result<Answer, Refusal>, NoMemory>
        requires unspent { IsUnspent self.old }
        ensures unchanged { self.new ≡ self.old }
        ensures ok { IfOk result (λ found. found_or_refused found ≡ answers self.old.timeline moment (One question)) }
        ensures memory { OnErr result (is_refusal (answers self.old.timeline moment (One question)) ≡ false) }
    {
        if !question.suits(self.session.kind()) {
            return Ok(Err(Refusal::Kind));
        }
        match moment {
            Moment::Now => Ok(Ok(self.session.ask_now(question))),
            Moment::Then { spot } => self.answer_at(spot, question),
        }
    }

    /// The answer to a question about the past, where the spot has a place.
    #[inline(never)]
    fn answer_at(
        &mut self,
        spot: Spot,
        question: Question,
    ) -> Result<Result<Answer, Refusal>, NoMemory>
        requires unspent { IsUnspent self.old }
        requires suited { suits question self.old.timeline.kind ≡ true }
        ensures unchanged { self.new ≡ self.old }
        ensures ok { IfOk result (λ found. found_or_refused found ≡ answers self.old.timeline (Then spot) (One question)) }
        ensures memory { OnErr result (is_refusal (answers self.old.timeline (Then spot) (One question)) ≡ false) }
    {
        match position_of(self.session.timeline(), spot) {
            Some(position) => {
                let answer = self.session.ask(position.place, question)?;
                Ok(Ok(answer))
            }
            None => Ok(Err(Refusal::NoRow {
                number: row_named(spot),
            })),
        }
    }

    /// Writes the whole content at a moment, or why it has none.
    #[inline(never)]
    fn list_into(&mut self, moment: Moment, answer: &mut Text) -> Result<bool, NoMemory>
        requires unspent { IsUnspent self.old }
        ensures unchanged { self.new ≡ self.old }
        ensures answer { OnOk result (answer.new ≡ answer.old ++ reply_text (answers self.old.timeline moment All)) }
        ensures refused { IfOk result (λ refused. refused ≡ is_refusal (answers self.old.timeline moment All)) }
    {
        self.list(moment)?.tell(answer)
    }

    /// The whole content at a moment, where it has a place.
    fn list(&mut self, moment: Moment) -> Result<Outcome, NoMemory>
        requires unspent { IsUnspent self.old }
        ensures unchanged { self.new ≡ self.old }
        ensures ok { IfOk result (λ outcome. outcome ≡ answers self.old.timeline moment All) }
        ensures memory { OnErr result (is_refusal (answers self.old.timeline moment All) ≡ false) }
    {
        match moment {
            Moment::Now => {
                let place = self.session.timeline().len();
                self.list_at(place)
            }
            Moment::Then { spot } => match position_of(self.session.timeline(), spot) {
                Some(position) => self.list_at(position.place),
                None => Ok(no_row(row_named(spot))),
            },
        }
    }

    /// The whole content at a place.
    fn list_at(&mut self, place: u32) -> Result<Outcome, NoMemory>
        requires unspent { IsUnspent self.old }
        requires within { place ≤ length self.old.timeline.rows }
        ensures unchanged { self.new ≡ self.old }
        ensures ok { IfOk result (λ outcome. outcome ≡ Listed (content (state_at self.old.timeline.kind self.old.timeline.rows place))) }
    {
        let listing = self.session.all(place)?;
        Ok(Outcome::Listed { listing })
    }

    /// What became of what the row with this number put in.
    pub(crate) fn fate(&self, number: u32) -> Outcome
        requires unspent { IsUnspent self.now }
        ensures { result ≡ answers_fate self.now.timeline number }
    {
        let timeline = self.session.timeline();
        let Some(place) = timeline.place_of(number) else {
            return no_row(number);
        };
        let row = timeline.row_at(place);
        if !row.op.adds() {
            return Outcome::refused(Refusal::NoItem { number: row.number });
        }
        match fate_of(timeline, place) {
            Fate::Taken { place } => taken_by(timeline.row_at(place)),
            Fate::Stays => Outcome::Stays,
        }
    }

    /// What is saved of the timeline.
    pub(crate) fn save(&self) -> Result<Outcome, NoMemory>
        requires unspent { IsUnspent self.now }
        ensures ok { IfOk result (λ outcome. outcome ≡ saves self.now.timeline) }
        ensures memory { OnErr result (is_refusal (saves self.now.timeline) ≡ false) }
    {
        let rows = rows_of(self.alloc, self.session.timeline())?;
        Ok(Outcome::Saved {
            name: self.name,
            kind: self.session.kind(),
            next: self.session.next(),
            rows,
        })
    }
}

/// The rows of a timeline.
fn rows_of(alloc: Global, timeline: &Timeline) -> Result<Rows, NoMemory>
    ensures { IfOk result (λ rows. rows ≡ timeline.now) }
{
    let mut rows = Rows::new(alloc);
    for place in 0..timeline.len() {
        rows.push(timeline.row_at(place))?;
    }
    Ok(rows)
}

/// The fate of what this row took out.
fn taken_by(row: Row) -> Outcome
    ensures { result ≡ Taken row.number row.time }
{
    Outcome::Taken {
        number: row.number,
        time: row.time,
    }
}
