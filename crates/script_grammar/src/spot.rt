//! Words that spell a place among the rows of one time.

ghost use Rattle.std.specs.Prelude.{◌≡◌};
ghost use Rattle.script_grammar.specs.Command.{begins_spot, spot_of};

use crate::Spot;
use crate::numbers::{read_row_number, read_time};

/// Whether a word begins a spot.
pub fn begins_spot(word: &[u8]) -> bool
    ensures { result ≡ begins_spot word.now }
{
    word == b"at".as_slice() || word == b"before".as_slice() || word == b"after".as_slice()
}

/// The spot that a word and the place after it spell.
pub fn read_spot(word: &[u8], place: &[u8]) -> Option<Spot>
    ensures { result ≡ spot_of word.now place.now }
{
    if word == b"at".as_slice() {
        read_time(place).map(|time| Spot::At { time })
    } else if word == b"before".as_slice() {
        read_row_number(place).map(|number| Spot::Before { number })
    } else if word == b"after".as_slice() {
        read_row_number(place).map(|number| Spot::After { number })
    } else {
        None
    }
}
