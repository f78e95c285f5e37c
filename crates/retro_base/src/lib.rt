//! The words of a history: its kinds, operations, rows and questions, and what performing them means.
//!
//! A timeline is a list of rows, each an operation of one kind at a time. Its past can be edited, and every
//! answer is that of performing the rows, as they now stand, from the first one on: the notion of Demaine,
//! Iacono and Langerman, "Retroactive Data Structures", ACM Transactions on Algorithms 3(2), 2007. The
//! definitions in `specs/` say so for all five kinds by one fold over the rows.
//!
//! The layers above rely on the trait `Retro`: whatever a structure keeps, it answers the replay of its rows.
//! `PlainList` is the plain program whose contract is the definition; every faster structure is compared with
//! it.
//!
//! - Rows: `Kind`, `Op`, `Row`, `PackedRow`, `Rows`, `Target`, `Entry`, `Change`.
//! - Questions: `Question`, `Answer`, `Item`, `Listing`.
//! - Structures: `Retro`; `Partial`, which answers of the present alone, and of that of a later structure whose first
//!   rows it has, and takes no memory to remove; `AnyStructure`, one type over those of all kinds; `PlainList`, `PerformedRows`.
//! - The questions of `Partial` with a counter of their own: `uncounted`.
//! - Texts: `Name`, `Text`, `print_op`. What `costs` has, handed on: `Steps`, `NoMemory`.
//! - Laws on the bridges of a priority queue, and on edits that give: the functions of the module `laws`, which have no body.
//! - Limits: `MAX_ROWS`, `MAX_NEXT`, which are those of `specs/Limits.antt`.
//! - `kind`, `op`, `op_text`, `row`, `packed_row`, `rows`, `target`, `name`, `limits`: what a history is told in.
//! - `question`, `listing`: what is asked, and answered.
//! - `retro`, `partial`, `any_structure`: the three traits of structures, the third of which is made of whatever kind a timeline has.
//!   `uncounted`: the questions of the second with a counter of their own.
//! - `plain_list`, `performed_rows`: the plain structure and performed rows, over `content` with its `line`, `pairs` and
//!   `entries`; `counting`, `bridge_search`: the row that fails first, and what an edit of a priority queue changes.
//! - `text`: what is written. `laws`.
#![tactic(auto)]

mod any_structure;
mod bridge_search;
mod content;
mod counting;
mod entries;
mod kind;
pub mod laws;
mod limits;
mod line;
mod listing;
mod name;
mod op;
mod op_text;
mod packed_row;
mod pairs;
mod partial;
mod performed_rows;
mod plain_list;
mod question;
mod retro;
mod row;
mod rows;
mod target;
mod text;
pub mod uncounted;

pub use any_structure::AnyStructure;
pub use costs::{NoMemory, Steps};
pub use kind::Kind;
pub use limits::{MAX_NEXT, MAX_ROWS, limits_are_those_stated};
pub use listing::Listing;
pub use name::Name;
pub use op::Op;
pub use op_text::print_op;
pub use packed_row::PackedRow;
pub use partial::Partial;
pub use performed_rows::PerformedRows;
pub use plain_list::PlainList;
pub use question::{Answer, Item, Question};
pub use retro::Retro;
pub use row::{Change, Entry, Row};
pub use rows::Rows;
pub use target::Target;
pub use text::Text;
