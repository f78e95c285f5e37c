//! The whole content at a place.

ghost use Rattle.std.specs.Prelude.{◌≡◌, ◌<◌, ◌≤◌, ◌^◌, length, IfOk};
ghost use Rattle.order_labels.specs.Labels.{AreLabels};
ghost use Rattle.retro_base.specs.Answers.{content};
ghost use Rattle.retro_base.specs.State.{pairs};
ghost use Rattle.retro_dictionary.specs.Asked.{pairs_at};

use crate::pairs::KeyPair;
use crate::search::PairSearch;
use lifetime_segments::Segments;
use order_labels::Labels;
use retro_base::{Item, Listing, NoMemory};
use std::alloc::Global;

/// The pairs at a place, their keys rising.
pub(crate) fn list_at(
    labels: &Labels,
    segments: &Segments<PairSearch>,
    place: u32,
    alloc: Global,
) -> Result<Listing, NoMemory>
    requires within { place ≤ length labels.now }
    requires labels { AreLabels labels.now }
    ensures { IfOk result (λ listing. listing ≡ content (pairs (pairs_at labels.now segments.now place))) }
{
    if place == 0 {
        return Ok(Listing::new(alloc));
    }
    let mut held = segments.items_at(labels.label_at(place - 1))?;
    held.sort_unstable();
    listing_of(&held, alloc)
}

/// The listing of these pairs.
fn listing_of(held: &[KeyPair], alloc: Global) -> Result<Listing, NoMemory>
    requires { length held.now < 2 ^ 32 }
    ensures { IfOk result (λ listing. listing ≡ content (pairs held.now)) }
{
    let mut listing = Listing::new(alloc);
    for pair in held {
        listing.push(Item::Pair {
            key: pair.key,
            value: pair.value,
        })?;
    }
    Ok(listing)
}
