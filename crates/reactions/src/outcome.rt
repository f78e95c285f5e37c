//! What a line is answered, and why one is refused.

ghost use Rattle.std.specs.Prelude.{◌≡◌, ◌++◌, true, false, OnOk, IfOk};
ghost use Rattle.reactions.specs.Outcome.{block_refusal, cause_text, is_refusal, refusal_text, reply_text};
ghost use Rattle.reactions.specs.declared.outcome.Outcome.TheVariants as outcomes;

use crate::MAX_TIMELINES;
use crate::evidence_lines::{EvidenceLines, print_line};
use evidence::Evidence;
use retro_base::{Answer, Kind, Listing, Name, NoMemory, Rows, Text};
use script_grammar::{print_answer, print_listing};
use timeline_file::{BlockError, RowCause, print_block};

/// What a line is answered.
#[derive(Drop)]
pub enum Outcome {
    /// Nothing is answered.
    Silent,
    /// It is done.
    Accepted,
    /// A row was inserted, and drew this number.
    Inserted {
        number: u32,
    },
    /// A priority queue was edited, by one list edit and maybe more.
    Changed {
        first: Evidence,
        more: EvidenceLines,
    },
    /// A block has made a timeline; that of a priority queue tells the evidence of each row.
    Loaded {
        evidence: EvidenceLines,
    },
    /// A question was answered.
    Answered {
        answer: Answer,
    },
    /// The whole content was asked for.
    Listed {
        listing: Listing,
    },
    /// The text of a timeline was asked for.
    Saved {
        name: Name,
        kind: Kind,
        next: u32,
        rows: Rows,
    },
    /// What a row put in was taken out by the row with this number and time.
    Taken {
        number: u32,
        time: u64,
    },
    /// What a row put in is there after all rows.
    Stays,
    /// The line was refused, and changed nothing.
    Refused {
        refusal: Refusal,
    },
}

/// Why a line was refused.
#[derive(Clone, Copy)]
pub enum Refusal {
    /// It has more bytes than a line may have.
    Long,
    /// It is in no form of the grammar.
    Syntax,
    /// No timeline has the name.
    NoTimeline { name: Name },
    /// A timeline has the name already.
    NameTaken,
    /// There are as many timelines as there may be.
    Timelines,
    /// The operation or the question is not of the timeline's kind.
    Kind,
    /// No row of the timeline has the number.
    NoRow { number: u32 },
    /// The timeline has as many rows as a timeline may have.
    Full,
    /// The timeline has no number left for another row.
    Numbers,
    /// The edited rows do not replay: this is the first row that could not be performed.
    At { number: u32, time: u64 },
    /// No step of the timeline can be undone.
    NothingToUndo,
    /// No step of the timeline can be redone.
    NothingToRedo,
    /// The row line of this place is the first bad one of a block.
    RowLine { place: u32, cause: RowCause },
    /// The input ended within a block.
    Unfinished,
    /// A row of a block has a number that is not below the one that its timeline draws next.
    Next,
    /// A block has more or fewer row lines than its header says.
    Rows,
    /// The row with this number puts nothing in.
    NoItem { number: u32 },
    /// No follower with this number is left.
    NoFollower { number: u32 },
}

impl Outcome {
    /// The outcome of a line that is refused.
    pub fn refused(refusal: Refusal) -> Outcome
        ensures { result ≡ outcomes.Refused refusal }
    {
        Outcome::Refused { refusal }
    }

    /// Whether the line was refused.
    fn is_refusal(&self) -> bool
        ensures { result ≡ is_refusal self.now }
    {
        matches!(self, Outcome::Refused { .. })
    }

    /// Appends the lines that answer, and gives whether they are a refusal.
    pub fn tell(self, answer: &mut Text) -> Result<bool, NoMemory>
        ensures answer { OnOk result (answer.new ≡ answer.old ++ reply_text self) }
        ensures refused { IfOk result (λ refused. refused ≡ is_refusal self) }
    {
        self.print(answer)?;
        Ok(self.is_refusal())
    }

    /// Appends the lines that answer.
    fn print(&self, out: &mut Text) -> Result<(), NoMemory>
        ensures { OnOk result (out.new ≡ out.old ++ reply_text self.now) }
    {
        match self {
            Outcome::Silent => return Ok(()),
            Outcome::Accepted => out.push_all(b"ok")?,
            Outcome::Inserted { number } => {
                out.push_all(b"ok #")?;
                out.push_number(*number)?;
            }
            Outcome::Changed { first, more } => {
                print_line(first, out)?;
                return more.print(out);
            }
            Outcome::Loaded { evidence } => {
                out.push_all(b"ok\n")?;
                return evidence.print(out);
            }
            Outcome::Answered { answer } => print_answer(*answer, out)?,
            Outcome::Listed { listing } => print_listing(listing, out)?,
            Outcome::Saved {
                name,
                kind,
                next,
                rows,
            } => return print_block(name, *kind, *next, rows, out),
            Outcome::Taken { number, time } => {
                out.push_all(b"= taken #")?;
                out.push_number(*number)?;
                out.push_all(b" ")?;
                out.push_number(*time)?;
            }
            Outcome::Stays => out.push_all(b"= stays")?,
            Outcome::Refused { refusal } => refusal.print(out)?,
        }
        out.push_all(b"\n")
    }
}

/// Appends the line that answers a question, and gives that it is no refusal: what `tell` does of such an outcome, which is
/// larger than the answer.
pub fn tell_answer(found: Answer, answer: &mut Text) -> Result<bool, NoMemory>
    ensures answer { OnOk result (answer.new ≡ answer.old ++ reply_text (outcomes.Answered found)) }
    ensures refused { IfOk result (λ refused. refused ≡ false) }
{
    print_answer(found, answer)?;
    answer.push_all(b"\n")?;
    Ok(false)
}

/// Appends the line of a refusal, and gives that it is one: what `tell` does of such an outcome.
#[inline(never)]
pub fn tell_refusal(refusal: Refusal, answer: &mut Text) -> Result<bool, NoMemory>
    ensures answer { OnOk result (answer.new ≡ answer.old ++ reply_text (outcomes.Refused refusal)) }
    ensures refused { IfOk result (λ refused. refused ≡ true) }
{
    Outcome::refused(refusal).tell(answer)
}

impl Refusal {
    /// The refusal of a block, by what is wrong with it.
    pub fn of_block(error: BlockError) -> Refusal
        ensures { result ≡ block_refusal error }
    {
        match error {
            BlockError::Row { place, cause } => Refusal::RowLine { place, cause },
            BlockError::Full => Refusal::Full,
            BlockError::Unfinished => Refusal::Unfinished,
            BlockError::Next => Refusal::Next,
            BlockError::Rows => Refusal::Rows,
        }
    }

    /// Appends the text.
    #[inline(never)]
    fn print(&self, out: &mut Text) -> Result<(), NoMemory>
        ensures { OnOk result (out.new ≡ out.old ++ refusal_text self.now) }
    {
        match self {
            Refusal::Long => out.push_all(b"refused long"),
            Refusal::Syntax => out.push_all(b"refused syntax"),
            Refusal::NameTaken => out.push_all(b"refused name taken"),
            Refusal::Kind => out.push_all(b"refused kind"),
            Refusal::Full => out.push_all(b"refused full"),
            Refusal::Numbers => out.push_all(b"refused numbers"),
            Refusal::NothingToUndo => out.push_all(b"refused nothing to undo"),
            Refusal::NothingToRedo => out.push_all(b"refused nothing to redo"),
            Refusal::Unfinished => out.push_all(b"refused unfinished"),
            Refusal::Next => out.push_all(b"refused next"),
            Refusal::Rows => out.push_all(b"refused rows"),
            Refusal::Timelines => {
                out.push_all(b"refused timelines ")?;
                out.push_number(MAX_TIMELINES)
            }
            Refusal::NoTimeline { name } => {
                out.push_all(b"refused no timeline ")?;
                out.push_all(name.bytes())
            }
            Refusal::NoRow { number } => {
                out.push_all(b"refused no row #")?;
                out.push_number(*number)
            }
            Refusal::NoItem { number } => {
                out.push_all(b"refused no item #")?;
                out.push_number(*number)
            }
            Refusal::NoFollower { number } => {
                out.push_all(b"refused no follower ")?;
                out.push_number(*number)
            }
            Refusal::RowLine { place, cause } => {
                out.push_all(b"refused row ")?;
                out.push_number(*place)?;
                out.push_all(b" ")?;
                out.push_all(cause_word(*cause))
            }
            Refusal::At { number, time } => {
                out.push_all(b"refused at #")?;
                out.push_number(*number)?;
                out.push_all(b" ")?;
                out.push_number(*time)
            }
        }
    }
}

/// The word of a cause.
fn cause_word(cause: RowCause) -> &'static [u8]
    ensures { result.now ≡ cause_text cause }
{
    match cause {
        RowCause::Syntax => b"syntax",
        RowCause::Kind => b"kind",
        RowCause::Number => b"number",
        RowCause::Time => b"time",
        RowCause::Replay => b"replay",
    }
}
