//! What a call may cost: the counter of steps that contracts alone see, and the error of memory that could not be had.
//!
//! A structure whose calls visit few nodes takes a `Steps` of its caller and counts each visit on it. `VisitsWithin` of
//! specs/Visits.antt says what a call may count, by the binary digits of a length (specs/Digits.antt), and
//! specs/VisitsLaws.antt how such bounds are joined. Where a call may take memory, `NoMemory` says that there was none.
//!
//! - `steps`: the counter. `memory`: the error.
#![tactic(auto)]

mod memory;
mod steps;

pub use memory::NoMemory;
pub use steps::Steps;
