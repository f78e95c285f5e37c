//! How a listing is spelled.

ghost use Rattle.std.specs.Prelude.{◌≡◌, ◌++◌, OnOk, OnErr};
ghost use Rattle.std.specs.List.{flat_map};
ghost use Rattle.retro_base.specs.Text.{AppendsPrefix};
ghost use Rattle.script_grammar.specs.AnswerText.{item_text, listing_text};

use crate::answer::print_pair;
use retro_base::{Item, Listing, NoMemory, Text};

/// Appends the text of a listing. Without memory a first part of it may have been appended.
pub fn print_listing(listing: &Listing, out: &mut Text) -> Result<(), NoMemory>
    ensures ok { OnOk result (out.new ≡ out.old ++ listing_text listing.now) }
    ensures err { OnErr result (AppendsPrefix out.old out.new (listing_text listing.now)) }
{
    if listing.len() == 0 {
        return out.push_all(b"= empty");
    }
    out.push_all(b"=")?;
    print_items(listing, out)
}

fn print_items(listing: &Listing, out: &mut Text) -> Result<(), NoMemory>
    ensures ok { OnOk result (out.new ≡ out.old ++ flat_map item_text listing.now) }
    ensures err { OnErr result (AppendsPrefix out.old out.new (flat_map item_text listing.now)) }
{
    for index in 0..listing.len() {
        print_item(listing.item(index), out)?;
    }
    Ok(())
}

fn print_item(item: Item, out: &mut Text) -> Result<(), NoMemory>
    ensures ok { OnOk result (out.new ≡ out.old ++ item_text item) }
    ensures err { OnErr result (AppendsPrefix out.old out.new (item_text item)) }
{
    out.push_all(b" ")?;
    match item {
        Item::Single { value } => out.push_number(value),
        Item::Pair { key, value } => print_pair(key, value, out),
    }
}
