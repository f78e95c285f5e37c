//! The names of timelines.

ghost use Rattle.std.specs.Prelude.{◌≡◌, ◌≤◌, ◌↔◌, IsTrue, length};
ghost use Rattle.std.specs.Cmp.{partial_equiv_from_equiv};
ghost use Rattle.std.specs.Cmp.Lexicographic.{nat_list_eq_equiv};
ghost use Rattle.std.specs.List.{list_all};
ghost use Rattle.std.specs.Str.{bytes_eq};
ghost use Rattle.retro_base.specs.Limits.{longest_name};
ghost use Rattle.retro_base.specs.Name.{is_name, is_name_byte, is_reserved, name_of, starts_with_letter};

use std::marker::Model;

/// The most bytes that a name has.
const MAX_BYTES: usize = 32;

/// The name of a timeline, which contracts see as its bytes: a letter, then letters, digits, `_` and
/// `-`, 32 bytes at the most. The words that begin a form of their own are no names.
#[derive(Clone, Copy, Debug)]
pub struct Name {
    bytes: [u8; MAX_BYTES],
    size: usize,
}

impl Model for Name {
    ghost use Rattle.std.specs.Prelude.{ℕ, List, length, take};
    ghost use Rattle.retro_base.specs.Name.{IsPadded, padded};

    ghost Value = { List ℕ };

    ghost view = { λ n. take n.size n.bytes };

    ghost invariant = { λ n. IsPadded n.bytes n.size };

    ghost inverse = { λ word. record { bytes = padded word; size = length word } };
}

impl Name {
    /// The name that has these bytes, if they are one.
    pub fn read(bytes: &[u8]) -> Option<Name>
        ensures { result ≡ name_of bytes.now }
    {
        if !is_name(bytes) {
            return None;
        }
        let size = bytes.len();
        let mut held = [0; MAX_BYTES];
        held[..size].copy_from_slice(bytes);
        Some(Name { bytes: held, size })
    }

    /// Its bytes.
    pub fn bytes(&self) -> &[u8]
        ensures same { result.now ≡ self.now }
        ensures valid { IsTrue (is_name self.now) }
    {
        &self.bytes[..self.size]
    }
}

impl PartialEq for Name {
    ghost eq = { bytes_eq };

    ghost laws = { partial_equiv_from_equiv nat_list_eq_equiv };

    fn eq(&self, other: &Name) -> bool
        ensures answer { result ≡ bytes_eq self.now other.now }
        ensures equal { IsTrue result ↔ (self.now ≡ other.now) }
    {
        self.bytes() == other.bytes()
    }
}

impl Eq for Name {
    ghost laws = { nat_list_eq_equiv };
}

#[tactic(auto, unfolding(crate::specs::Name::is_name))]
fn is_name(bytes: &[u8]) -> bool
    ensures answer { result ≡ is_name bytes.now }
    ensures short { IsTrue result → length bytes.now ≤ longest_name }
{
    starts_with_letter(bytes)
        && bytes.len() <= MAX_BYTES
        && are_name_bytes(bytes)
        && !is_reserved(bytes)
}

fn are_name_bytes(bytes: &[u8]) -> bool
    ensures { result ≡ list_all is_name_byte bytes.now }
{
    bytes.iter().all(|byte| is_name_byte(*byte))
}

fn starts_with_letter(bytes: &[u8]) -> bool
    ensures { result ≡ starts_with_letter bytes.now }
{
    match bytes {
        [first, ..] => first.is_ascii_alphabetic(),
        [] => false,
    }
}

fn is_name_byte(byte: u8) -> bool
    ensures { result ≡ is_name_byte byte }
{
    byte.is_ascii_alphanumeric() || byte == b'_' || byte == b'-'
}

fn is_reserved(bytes: &[u8]) -> bool
    ensures { result ≡ is_reserved bytes.now }
{
    bytes == b"new".as_slice()
        || bytes == b"save".as_slice()
        || bytes == b"timeline".as_slice()
        || bytes == b"end".as_slice()
        || bytes == b"edit".as_slice()
        || bytes == b"mute".as_slice()
}
