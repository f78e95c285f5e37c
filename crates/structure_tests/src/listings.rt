//! What a listing holds.

use retro_base::{Item, Listing};
use std::process::Abort;

/// Sees that a listing has these items.
pub(crate) fn expect_items(rt: &impl Abort, listing: &Listing, items: &[Item]) {
    assert!(rt; listing.len() as usize == items.len());
    for (index, item) in items.iter().enumerate() {
        assert!(rt; index < listing.len() as usize);
        assert!(rt; listing.item(index as u32) == *item);
    }
}

/// Sees that a listing has single items of these values.
pub(crate) fn expect_values(rt: &impl Abort, listing: &Listing, values: &[i64]) {
    assert!(rt; listing.len() as usize == values.len());
    for (index, value) in values.iter().enumerate() {
        assert!(rt; index < listing.len() as usize);
        assert!(rt; listing.item(index as u32) == Item::Single { value: *value });
    }
}
