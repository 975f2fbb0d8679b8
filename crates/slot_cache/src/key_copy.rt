// A title in a place of fixed size.
ghost use Rattle.std.specs.Prelude.{◌≡◌, [], length, take, bytes_eq};

use std::marker::Model;
use wiki_titles::{TITLE_MAX, Title};

/// A copy of a title, or of none. It has room for the longest one, so that making it takes no memory: a clone of a
/// title shares the bytes, but may be refused.
#[derive(Drop)]
pub(crate) struct KeyCopy {
    /// How many bytes count.
    length: u8,
    /// The title's bytes, and after them bytes that do not count.
    bytes: [u8; TITLE_MAX],
}

impl Model for KeyCopy {
    ghost use Rattle.std.specs.Prelude.{ℕ, List, take};

    ghost Value = { List ℕ };

    ghost view = { λ k. take k.length k.bytes };
}

impl KeyCopy {
    /// No title's copy: a title has a byte at least.
    pub(crate) fn none() -> Self
        ensures { result ≡ [] }
    {
        KeyCopy {
            bytes: [0; TITLE_MAX],
            length: 0,
        }
    }

    pub(crate) fn new(key: &Title) -> Self
        ensures { result ≡ key.now }
    {
        KeyCopy {
            bytes: padded(key),
            length: key.text().len() as u8,
        }
    }

    /// Whether it is a copy of this title.
    pub(crate) fn is(&self, key: &Title) -> bool
        ensures { result ≡ bytes_eq self.now key.now }
    {
        let (bytes, _) = self.bytes.as_slice().split_at(self.length as usize);
        bytes == key.text().as_bytes()
    }
}

// The title's bytes, filled up with zeros.
fn padded(key: &Title) -> [u8; TITLE_MAX]
    ensures { take (length key.now) result ≡ key.now }
{
    let text = key.text().as_bytes();
    let mut bytes = [0u8; TITLE_MAX];
    bytes[..text.len()].copy_from_slice(text);
    bytes
}
