//! A text that is written piece by piece.

ghost use Rattle.std.specs.Prelude.{◌≡◌, [], ◌++◌, OnOk, OnErr};

use crate::NoMemory;
use itoa::{Buffer, Integer};
use std::alloc::Global;
use std::marker::Model;

/// A text that is written piece by piece, which contracts see as the list of its bytes. It keeps its
/// memory when it is emptied.
#[derive(Debug, Drop)]
pub struct Text {
    bytes: Vec<u8>,
}

impl Model for Text {
    ghost use Rattle.std.specs.Prelude.{ℕ, List};

    ghost Value = { List ℕ };

    ghost view = { λ text. text.bytes.items };
}

impl Text {
    /// An empty text.
    pub fn new(alloc: Global) -> Text
        ensures { result ≡ [] }
    {
        Text {
            bytes: Vec::new(alloc),
        }
    }

    /// Appends the bytes. Without memory for them the text stays as it was.
    pub fn push_all(&mut self, bytes: &[u8]) -> Result<(), NoMemory>
        ensures ok { OnOk result (self.new ≡ self.old ++ bytes.now) }
        ensures err { OnErr result (self.new ≡ self.old) }
    {
        self.bytes.extend_from_slice(bytes)?;
        Ok(())
    }

    /// Appends a number in decimal, after a `-` where it is below 0. Without memory for it the text stays as it was.
    pub fn push_number<I: Integer>(&mut self, number: I) -> Result<(), NoMemory>
        ensures ok { OnOk result (self.new ≡ self.old ++ I.text number) }
        ensures err { OnErr result (self.new ≡ self.old) }
    {
        self.push_all(Buffer::new().format(number).as_bytes())
    }

    /// Empties the text.
    pub fn clear(&mut self)
        ensures { self.new ≡ [] }
    {
        self.bytes.clear();
    }

    /// The bytes.
    pub fn as_bytes(&self) -> &[u8]
        ensures { result.now ≡ self.now }
    {
        self.bytes.as_slice()
    }
}
