//! Lines that ask a timeline for something.

ghost use Rattle.std.specs.Prelude.{◌≡◌};
ghost use Rattle.script_grammar.specs.Command.{ask_at, ask_of, ask_then};

use crate::query::read_query;
use crate::spot::{begins_spot, read_spot};
use crate::words::Words;
use crate::{Command, Moment, Spot};
use retro_base::Name;

/// The rest of a line that asks a timeline for something.
pub fn read_ask(name: Name, mut words: Words) -> Option<Command>
    ensures { result ≡ ask_of name words.entry }
{
    let word = words.next_word()?;
    if begins_spot(word) {
        return read_ask_then(name, word, words);
    }
    let query = read_query(word, words)?;
    let moment = Moment::Now;
    Some(Command::Ask {
        name,
        moment,
        query,
    })
}

fn read_ask_then(name: Name, word: &[u8], mut words: Words) -> Option<Command>
    ensures { result ≡ ask_then name word.now words.entry }
{
    let spot = read_spot(word, words.next_word()?)?;
    read_ask_at(name, spot, words)
}

fn read_ask_at(name: Name, spot: Spot, mut words: Words) -> Option<Command>
    ensures { result ≡ ask_at name spot words.entry }
{
    let query = read_query(words.next_word()?, words)?;
    let moment = Moment::Then { spot };
    Some(Command::Ask {
        name,
        moment,
        query,
    })
}
