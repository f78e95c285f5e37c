//! A line, cut into words at single spaces.

ghost use Rattle.std.specs.Prelude.{◌≡◌, ◌==◌, ◌≤◌, ◌∷◌, [], length, MatchOption};
ghost use Rattle.std.specs.List.{position_or_len};
ghost use Rattle.evidence.specs.Reading.{words};

use std::marker::Model;

/// The words of a line that are not read yet. They are divided by single spaces, so that two spaces have an
/// empty word between them.
#[derive(Drop)]
pub struct Words<'a> {
    rest: Option<&'a [u8]>,
}

impl<'a> Model for Words<'a> {
    ghost use Rattle.std.specs.Prelude.{ℕ, List, []};
    ghost use Rattle.std.specs.Option.{option_map_or};
    ghost use Rattle.evidence.specs.Reading.{words};

    ghost Value = { List (List ℕ) };

    ghost view = { λ w. option_map_or (λ rest. words rest.now) w.rest [] };
}

impl<'a> Words<'a> {
    /// All words of a line.
    pub fn new(line: &'a [u8]) -> Words<'a>
        ensures { result ≡ words line.now }
    {
        Words { rest: Some(line) }
    }

    /// The next word, if one is left.
    pub fn next_word(&mut self) -> Option<&'a [u8]>
        ensures { MatchOption result ((self.old ≡ []) × (self.new ≡ [])) (λ word. self.old ≡ word.now ∷ self.new) }
    {
        let line = self.rest?;
        let (word, after) = line.split_at(word_in_front(line));
        self.rest = match after {
            [_, rest @ ..] => Some(rest),
            [] => None,
        };
        Some(word)
    }
}

/// How many bytes other than spaces the bytes begin with.
fn word_in_front(bytes: &[u8]) -> usize
    ensures value { result ≡ position_or_len (λ byte. byte == 32) bytes.now }
    ensures within { result ≤ length bytes.now }
{
    bytes.iter().take_while(|byte| **byte != b' ').count()
}
