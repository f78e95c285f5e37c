//! A row that comes into the tree or goes, on one path from the root to a run.

ghost use Rattle.std.specs.Prelude.{◌≡◌, ◌≤◌, length, is_ok, false, true, Ok, IfOk, OnOk, OnErr, MatchResult};
ghost use Rattle.retro_base.specs.Weights.{added_by};
ghost use Rattle.pq_fusion.specs.Bounds.{higher, lower};
ghost use Rattle.pq_fusion.specs.Nodes.{IsBalanced, IsPair, pair_part, pair_rows};
ghost use Rattle.pq_fusion.specs.Passages.{Edits, IsBoundaryFor, IsEdited, bears, with_piece};
ghost use Rattle.pq_fusion.specs.RowEdits.{CanBeMade, PassesBy, edited, gains_by};
ghost use Rattle.pq_fusion.specs.Searches.{EditVisits};
ghost use Rattle.pq_fusion.specs.WearLevels.{AnewOnLevels};

use crate::Bound;
use crate::anew::Anew;
use crate::node_piece::{NodePiece, RoomyPiece};
use crate::row_edit::RowEdit;
use crate::subtree::{LONGEST_RUN, Link, Pair, Subtree};
use retro_base::{NoMemory, Steps};
use std::alloc::Global;
use std::mem;
use std::sync::ledger::Ledger;

/// The runs of a part that is made anew have so many rows at most, so that each has room.
const LONGEST_ANEW: usize = 48;

impl Subtree {
    /// Puts an edited pair back, or the pair as it was where there was no memory for the edit.
    fn put_back(&mut self, edited: Result<Edited, Box<Pair>>) -> Result<Bound, NoMemory>
        requires { MatchResult edited (λ edited. IsPair edited.pair.value) (λ same. IsPair same.value) }
        ensures { MatchResult edited (λ edited. (result ≡ Ok edited.passed) × (self.new ≡ pair_part edited.pair.value))
            (λ same. (is_ok result ≡ false) × (self.new ≡ pair_part same.value)) }
    {
        match edited {
            Ok(Edited { pair, passed }) => {
                *self = Subtree::of_pair(pair);
                Ok(passed)
            }
            Err(pair) => {
                *self = Subtree::of_pair(pair);
                Err(NoMemory)
            }
        }
    }

    /// Makes an edit. All memory of a pair is taken before anything of it changes, so after `NoMemory` all is as before. It says what
    /// passes between what the rows leave and what they do not.
    #[cycle(edit)]
    pub(crate) fn edit<L: Ledger, M: Ledger>(
        &mut self,
        alloc: Global,
        edit: RowEdit,
        steps: &mut Steps<L>,
        anew: &mut Anew<M>,
    ) -> Result<Bound, NoMemory>
        requires possible { CanBeMade edit self.old.rows }
        ensures rows { OnOk result (self.new.rows ≡ edited edit self.old.rows) }
        ensures err { OnErr result (self.new ≡ self.old) }
        ensures rare { OnOk result (AnewOnLevels self.old self.new anew.old anew.new) }
        ensures none_lost { anew.old ≤ anew.new }
        ensures visits { EditVisits 14 1 self.old.rows steps.old steps.new }
        ensures passed { IfOk result (λ passed. PassesBy edit passed self.old.rows) }
    {
        steps.tick();
        let pair = match mem::replace(&mut self.link, Link::Empty) {
            Link::Fork(pair) => pair,
            link => {
                self.link = link;
                return self.edit_anew(alloc, edit, LONGEST_RUN, anew);
            }
        };
        if !pair.bears(edit) {
            *self = Subtree::of_pair(pair);
            return self.edit_anew(alloc, edit, LONGEST_ANEW, anew);
        }
        let edited = edit_row(alloc, pair, edit, steps, anew);
        self.put_back(edited)
    }
}

impl Pair {
    /// Makes an edit on its side, and says what passes in the pair, whose boundary this is.
    #[cycle(edit)]
    fn edit_below<L: Ledger, M: Ledger>(
        &mut self,
        alloc: Global,
        edit: RowEdit,
        boundary: Bound,
        steps: &mut Steps<L>,
        anew: &mut Anew<M>,
    ) -> Result<Bound, NoMemory>
        requires possible { CanBeMade edit (pair_rows self.old) }
        requires balanced { IsBalanced (length self.old.earlier.rows) (length self.old.later.rows) }
        requires boundary { IsBoundaryFor (gains_by edit.way (added_by edit.row)) edit.place self.old boundary }
        ensures ok { OnOk result (Edits edit self.old self.new) }
        ensures err { OnErr result (self.new ≡ self.old) }
        ensures rare { OnOk result (AnewOnLevels (pair_part self.old) (pair_part self.new) anew.old anew.new) }
        ensures none_lost { anew.old ≤ anew.new }
        ensures visits { EditVisits 0 0 (pair_rows self.old) steps.old steps.new }
        ensures passed { IfOk result (λ passed. PassesBy edit passed (pair_rows self.old)) }
    {
        let before = self.earlier.len();
        if edit.is_first(before) {
            let passed = self.earlier.edit(alloc, edit, steps, anew)?;
            return Ok(passed.higher(boundary));
        }
        let behind = edit.past(before);
        let passed = self.later.edit(alloc, behind, steps, anew)?;
        Ok(from_later(Bound::of_row(edit.row), passed, boundary))
    }
}

/// A pair after an edit, and what passed in it.
#[derive(Drop)]
struct Edited {
    pair: Box<Pair>,
    passed: Bound,
}

/// Makes an edit below a pair, which bears it. Where there is no memory for it, the pair comes back as it was.
#[cycle(edit)]
fn edit_row<L: Ledger, M: Ledger>(
    alloc: Global,
    pair: Box<Pair>,
    edit: RowEdit,
    steps: &mut Steps<L>,
    anew: &mut Anew<M>,
) -> Result<Edited, Box<Pair>>
    requires sound { IsPair pair.value }
    requires bears { bears pair.value edit ≡ true }
    requires possible { CanBeMade edit (pair_rows pair.value) }
    ensures edited { MatchResult result (λ edited. IsEdited edit pair.value edited.pair.value edited.passed) (λ same. same.value ≡ pair.value) }
    ensures rare { IfOk result (λ edited. AnewOnLevels (pair_part pair.value) (pair_part edited.pair.value) anew.old anew.new) }
    ensures none_lost { anew.old ≤ anew.new }
    ensures visits { EditVisits 14 0 (pair_rows pair.value) steps.old steps.new }
{
    let gains = edit.gains();
    let boundary = pair.boundary_for(edit.place, gains, steps);
    let Opened { mut pair, piece } = take_apart(alloc, pair)?;
    match pair.edit_below(alloc, edit, boundary, steps, anew) {
        Ok(passed) => {
            pair.size = edit.count_after(pair.size);
            pair.piece = piece.after(gains, Bound::of_row(edit.row), passed, steps);
            Ok(Edited { pair, passed })
        }
        Err(_) => {
            pair.piece = piece.into_piece();
            Err(pair)
        }
    }
}

/// A pair, and its piece, which has room for an edit.
#[derive(Drop)]
struct Opened {
    pair: Box<Pair>,
    piece: RoomyPiece,
}

/// The pair with its piece apart. Where there is no memory for the room, it comes back as it was.
fn take_apart(alloc: Global, mut pair: Box<Pair>) -> Result<Opened, Box<Pair>>
    ensures { MatchResult result (λ opened. with_piece opened.pair.value opened.piece ≡ pair.value) (λ same. same.value ≡ pair.value) }
{
    let whole = mem::replace(&mut pair.piece, NodePiece::empty(alloc));
    match whole.with_room() {
        Ok(piece) => Ok(Opened { pair, piece }),
        Err(piece) => {
            pair.piece = piece;
            Err(pair)
        }
    }
}

/// What passes in a pair with this boundary where `passed` does in its later side, by an edit of a row with the bound `own`.
fn from_later(own: Bound, passed: Bound, boundary: Bound) -> Bound
    ensures { result ≡ higher own (lower passed boundary) }
{
    own.higher(passed.lower(boundary))
}
