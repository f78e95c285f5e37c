//! Followers of a priority queue: what sees every change of its present, and nothing else, and reports at the end.
//!
//! A [`Follower`] takes the evidence of one edit after another. It has one meaning, `report_after`: what it reports once it
//! has taken any further list of events. All that is promised of its two calls is said in this one word, so whoever hands
//! boxed followers on, or writes a new one, needs to know nothing else of them.
//!
//! An event tells by which entry the present has changed, so no follower performs a row. A [`Tally`] counts the
//! changes. A [`Mirror`] keeps the entries that the events of one name leave (`held` in `specs/Mirrors.antt`), at the cost of
//! one pass over them at an event.
//!
//! - `follower`: the trait.
//! - `feeding`: `feed` hands an event to each of a list of boxed followers.
//! - `tally`, `mirror`: the two followers that are here.
//! - `laws`: a mirror that sees the changes alone holds the present.
#![tactic(auto)]

mod feeding;
mod follower;
pub mod laws;
mod mirror;
mod tally;

pub use feeding::feed;
pub use follower::Follower;
pub use mirror::Mirror;
pub use tally::Tally;
