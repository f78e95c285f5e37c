//! The questions to a structure that answers of the present alone, each with a counter of its own: for a caller
//! that counts nothing. Costs, conditions and answers are those of `Partial`.
ghost use Rattle.std.specs.Prelude.{◌≡◌, ◌+◌, ◌<◌, ◌≤◌, length, take, true, IfSome, IfOk};
ghost use Rattle.std.specs.List.{insert, remove};
ghost use Rattle.retro_base.specs.declared.row.Row.{Row};
ghost use Rattle.retro_base.specs.Kind.{kind_of};
ghost use Rattle.retro_base.specs.Replay.{failure, present, state_at};
ghost use Rattle.retro_base.specs.Answers.{answer_of, content};
ghost use Rattle.retro_base.specs.Questions.{suits};
ghost use Rattle.costs.specs.Visits.{OpensCounter};

use crate::{Answer, Listing, NoMemory, Op, Partial, Question, Steps};
use std::marker::Brand;
use std::sync::ledger::{Blank, Ledger};

/// `failure_after_insert` of the structure.
pub fn failure_after_insert<P: Partial>(structure: &P, place: u32, op: Op) -> Option<u32>
    requires within { place ≤ length (P.rows structure.now) }
    requires of_kind { kind_of op ≡ P.kind structure.now }
    ensures first { (row : Row)
        → row.op ≡ op → result ≡ failure (P.kind structure.now) (insert (P.rows structure.now) place row) }
    ensures index { IfSome result (λ index. index ≤ length (P.rows structure.now)) }
{
    find_failure_with::<P, Brand>(structure, place, op, Blank::new(1))
}

fn find_failure_with<P: Partial, L: Ledger>(
    structure: &P,
    place: u32,
    op: Op,
    blank: Blank,
) -> Option<u32>
    requires within { place ≤ length (P.rows structure.now) }
    requires of_kind { kind_of op ≡ P.kind structure.now }
    requires counter { OpensCounter blank.name L.name blank.parts L.parts }
    ensures first { (row : Row)
        → row.op ≡ op → result ≡ failure (P.kind structure.now) (insert (P.rows structure.now) place row) }
    ensures index { IfSome result (λ index. index ≤ length (P.rows structure.now)) }
{
    let mut steps = Steps::<L>::new(blank);
    structure.failure_after_insert(place, op, &mut steps)
}

/// `failure_after_remove` of the structure.
pub fn failure_after_remove<P: Partial>(structure: &P, place: u32) -> Option<u32>
    requires { place < length (P.rows structure.now) }
    ensures first { result ≡ failure (P.kind structure.now) (remove (P.rows structure.now) place) }
    ensures index { IfSome result (λ index. index + 1 < length (P.rows structure.now)) }
{
    find_failure_without::<P, Brand>(structure, place, Blank::new(1))
}

fn find_failure_without<P: Partial, L: Ledger>(
    structure: &P,
    place: u32,
    blank: Blank,
) -> Option<u32>
    requires within { place < length (P.rows structure.now) }
    requires counter { OpensCounter blank.name L.name blank.parts L.parts }
    ensures first { result ≡ failure (P.kind structure.now) (remove (P.rows structure.now) place) }
    ensures index { IfSome result (λ index. index + 1 < length (P.rows structure.now)) }
{
    let mut steps = Steps::<L>::new(blank);
    structure.failure_after_remove(place, &mut steps)
}

/// `ask_now` of the structure.
pub fn ask_now<P: Partial>(structure: &P, question: Question) -> Answer
    requires { suits question (P.kind structure.now) ≡ true }
    ensures { result ≡ answer_of (present (P.kind structure.now) (P.rows structure.now)) question }
{
    answer_now::<P, Brand>(structure, question, Blank::new(1))
}

fn answer_now<P: Partial, L: Ledger>(structure: &P, question: Question, blank: Blank) -> Answer
    requires suited { suits question (P.kind structure.now) ≡ true }
    requires counter { OpensCounter blank.name L.name blank.parts L.parts }
    ensures { result ≡ answer_of (present (P.kind structure.now) (P.rows structure.now)) question }
{
    let mut steps = Steps::<L>::new(blank);
    structure.ask_now(question, &mut steps)
}

/// `list_after` of the structure.
pub fn list_after<P: Partial + Drop>(
    structure: &P,
    later: &P,
    place: u32,
) -> Result<Listing, NoMemory>
    requires kind { P.kind later.now ≡ P.kind structure.now }
    requires first { P.rows structure.now ≡ take (length (P.rows structure.now)) (P.rows later.now) }
    requires earlier { length (P.rows structure.now) ≤ place }
    requires within { place ≤ length (P.rows later.now) }
    ensures content { IfOk result (λ listing. listing ≡ content (state_at (P.kind later.now) (P.rows later.now) place)) }
{
    list_later::<P, Brand>(structure, later, place, Blank::new(1))
}

fn list_later<P: Partial + Drop, L: Ledger>(
    structure: &P,
    later: &P,
    place: u32,
    blank: Blank,
) -> Result<Listing, NoMemory>
    requires kind { P.kind later.now ≡ P.kind structure.now }
    requires first { P.rows structure.now ≡ take (length (P.rows structure.now)) (P.rows later.now) }
    requires earlier { length (P.rows structure.now) ≤ place }
    requires within { place ≤ length (P.rows later.now) }
    requires counter { OpensCounter blank.name L.name blank.parts L.parts }
    ensures content { IfOk result (λ listing. listing ≡ content (state_at (P.kind later.now) (P.rows later.now) place)) }
{
    let mut steps = Steps::<L>::new(blank);
    structure.list_after(later, place, &mut steps)
}
