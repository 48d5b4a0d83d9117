//! Names of members and topics.

ghost use Rattle.std.specs.Prelude.{◌≡◌, true, Some, None, if◌then◌else◌};
ghost use Rattle.std.specs.List.{list_all};
ghost use Rattle.partitioner.specs.Name.{is_name, is_name_byte};

use std::marker::Model;

/// The limit of a name, in bytes.
const LONGEST_NAME: usize = 32;

/// A name: 1 to 32 ASCII letters, digits, `-` and `_`. It is stored inline.
#[derive(Debug, Drop)]
pub struct Name {
    /// The name, followed by zeros.
    bytes: [u8; LONGEST_NAME],
    /// The length of the name.
    size: u8,
}

impl Model for Name {
    ghost use Rattle.std.specs.Prelude.{List, ℕ};
    ghost use Rattle.partitioner.specs.Name.{text_in, IsValidName};

    ghost Value = { List ℕ };

    ghost view = { λ n. text_in n.size n.bytes };

    ghost invariant = { λ n. IsValidName n.size n.bytes };
}

impl Name {
    /// Parses a name. Returns nothing if the text is not one.
    pub fn new(text: &[u8]) -> Option<Name>
        ensures { result ≡ (if is_name text.now then Some text.now else None) }
    {
        if !is_name(text) {
            return None;
        }
        let mut bytes = [0u8; LONGEST_NAME];
        bytes[..text.len()].copy_from_slice(text);
        Some(Name {
            bytes,
            size: text.len() as u8,
        })
    }

    /// A copy of the name.
    pub fn copy(&self) -> Name
        ensures { result ≡ self.now }
    {
        Name {
            bytes: self.bytes,
            size: self.size,
        }
    }

    /// The text of the name.
    pub fn text(&self) -> &[u8]
        ensures report { result.now ≡ self.now }
        ensures name { is_name self.now ≡ true }
    {
        &self.bytes[..self.size as usize]
    }
}

/// Whether a text is a name.
fn is_name(text: &[u8]) -> bool
    ensures { result ≡ is_name text.now }
{
    if text.is_empty() || text.len() > LONGEST_NAME {
        return false;
    }
    has_name_bytes(text)
}

/// Whether a name may contain each of these bytes.
fn has_name_bytes(text: &[u8]) -> bool
    ensures { result ≡ list_all is_name_byte text.now }
{
    text.iter().all(|byte| is_name_byte(*byte))
}

/// Whether a name may contain this byte.
fn is_name_byte(byte: u8) -> bool
    ensures { result ≡ is_name_byte byte }
{
    byte.is_ascii_alphanumeric() || byte == b'-' || byte == b'_'
}
