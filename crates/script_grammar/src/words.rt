//! A line, cut into words.

ghost use Rattle.std.specs.Prelude.{◌≡◌, ◌≤◌, ◌∷◌, [], length, MatchOption};
ghost use Rattle.std.specs.List.{list_all, position_or_len, prefix_len};
ghost use Rattle.script_grammar.specs.Words.{is_nil, is_space, words};

use std::marker::Model;

/// The words of a line that are not read yet.
#[derive(Drop)]
pub struct Words<'a> {
    rest: &'a [u8],
}

impl<'a> Model for Words<'a> {
    ghost use Rattle.std.specs.Prelude.{ℕ, List};
    ghost use Rattle.script_grammar.specs.Words.{words};

    ghost Value = { List (List ℕ) };

    ghost view = { λ w. words w.rest.now };
}

impl<'a> Words<'a> {
    /// All words of a line.
    pub fn new(line: &'a [u8]) -> Words<'a>
        ensures { result ≡ words line.now }
    {
        Words { rest: line }
    }

    /// The next word, if one is left.
    pub fn next_word(&mut self) -> Option<&'a [u8]>
        ensures { MatchOption result ((self.old ≡ []) × (self.new ≡ [])) (λ word. self.old ≡ word.now ∷ self.new) }
    {
        let line = &self.rest[spaces_in_front(self.rest)..];
        let (word, rest) = line.split_at(word_in_front(line));
        self.rest = rest;
        if word.is_empty() { None } else { Some(word) }
    }

    /// Whether no word is left.
    pub fn is_empty(&self) -> bool
        ensures { result ≡ is_nil self.now }
    {
        are_spaces(self.rest)
    }
}

/// How many spaces the bytes begin with.
fn spaces_in_front(bytes: &[u8]) -> usize
    ensures value { result ≡ prefix_len is_space bytes.now }
    ensures within { result ≤ length bytes.now }
{
    bytes.iter().take_while(|byte| **byte == b' ').count()
}

/// How many bytes other than spaces the bytes begin with.
fn word_in_front(bytes: &[u8]) -> usize
    ensures value { result ≡ position_or_len is_space bytes.now }
    ensures within { result ≤ length bytes.now }
{
    bytes.iter().take_while(|byte| **byte != b' ').count()
}

fn are_spaces(bytes: &[u8]) -> bool
    ensures { result ≡ list_all is_space bytes.now }
{
    bytes.iter().all(|byte| *byte == b' ')
}
