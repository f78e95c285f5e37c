//! Why evidence is refused, by the tests in their order.

ghost use Rattle.std.specs.Prelude.{◌≡◌, ◌≤◌, length};
ghost use Rattle.retro_base.specs.Limits.{most_rows};
ghost use Rattle.evidence.specs.Evidence.{IsEvidence};
ghost use Rattle.evidence_check.specs.KeptNumbers.{AreWeighed, AreNumbers};
ghost use Rattle.evidence_check.specs.Marks.{rows_of};
ghost use Rattle.evidence_check.specs.Truth.{cause_of, has_wrong_number, has_wrong_op, is_full, is_outside, same_op};

use crate::CheckError;
use crate::changes::change_cause;
use crate::numbers::{Numbers, has_number};
use crate::pack::Pack;
use crate::part::Part;
use evidence::Evidence;
use retro_base::{MAX_ROWS, Op};

/// Why evidence is refused after these rows, if it is.
#[tactic(auto, unfolding(crate::specs::Truth::cause_of))]
pub(crate) fn cause_of<P: Part>(
    rows: &Pack<P>,
    numbers: &Numbers,
    evidence: &Evidence,
) -> Option<CheckError>
    requires kept { AreWeighed rows.now numbers.now }
    requires evidence { IsEvidence evidence.now }
    ensures { result ≡ cause_of (rows_of rows.now) evidence.now }
{
    if is_full(evidence.added, rows) {
        Some(CheckError::Full)
    } else if is_outside(evidence.added, evidence.place, rows) {
        Some(CheckError::Place)
    } else if has_wrong_number(
        evidence.added,
        evidence.number,
        evidence.place,
        rows,
        numbers,
    ) {
        Some(CheckError::Number)
    } else if has_wrong_op(evidence.added, evidence.op, evidence.place, rows) {
        Some(CheckError::Row)
    } else {
        change_cause(rows, evidence)
    }
}

/// Whether there is no room for one more row.
fn is_full<P: Part>(added: bool, rows: &Pack<P>) -> bool
    ensures { result ≡ is_full added (rows_of rows.now) }
{
    added && rows.len() >= MAX_ROWS
}

/// Whether no row can be put in at the place, or none stands there to be taken out.
fn is_outside<P: Part>(added: bool, place: u32, rows: &Pack<P>) -> bool
    ensures { result ≡ is_outside added place (rows_of rows.now) }
{
    if added {
        rows.len() < place
    } else {
        rows.len() <= place
    }
}

/// Whether a row that is put in has the number of another one, or the one that is taken out has another number.
fn has_wrong_number<P: Part>(
    added: bool,
    number: u32,
    place: u32,
    rows: &Pack<P>,
    numbers: &Numbers,
) -> bool
    requires few { length rows.now ≤ most_rows }
    requires numbers { AreNumbers (rows_of rows.now) numbers.now }
    ensures { result ≡ has_wrong_number added number place (rows_of rows.now) }
{
    if added {
        has_number(number, numbers)
    } else {
        match rows.row(place) {
            None => true,
            Some(row) => row.number != number,
        }
    }
}

/// Whether the row that is taken out does something else.
fn has_wrong_op<P: Part>(added: bool, op: Op, place: u32, rows: &Pack<P>) -> bool
    requires { length rows.now ≤ most_rows }
    ensures { result ≡ has_wrong_op added op place (rows_of rows.now) }
{
    if added {
        false
    } else {
        match rows.row(place) {
            None => true,
            Some(row) => !is_same_op(row.op, op),
        }
    }
}

/// Whether two operations of a priority queue are one.
fn is_same_op(op: Op, other: Op) -> bool
    ensures { result ≡ same_op op other }
{
    match (op, other) {
        (Op::Ins { key: first }, Op::Ins { key: second }) => first == second,
        (Op::DelMin, Op::DelMin) => true,
        _ => false,
    }
}
