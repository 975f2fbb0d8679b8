// Texts of pages, with line feeds at the ends of their lines.
ghost use Rattle.std.specs.Prelude.{◌≡◌, ◌≤◌, ℕ, List, length, bytes_eq};
ghost use Rattle.std.specs.Cmp as Cmp;
ghost use Rattle.std.specs.Cmp.Lexicographic.{nat_list_eq_equiv};
ghost use Rattle.wiki_model.specs.Titles.{with_line_feeds};
ghost use Rattle.wiki_model.specs.Limits.{text_max};
ghost use Rattle.wiki_titles.specs.Text.{ReadsText};

use crate::line_ends::{length_with_line_feeds, with_line_feeds};
use std::alloc::{AllocError, Global};
use std::fmt;
use std::marker::Model;
use std::sync::ArcStr;

/// The greatest length of a text.
pub const TEXT_MAX: usize = 65_536; // bytes

/// The text of a page, of at most [`TEXT_MAX`] bytes. Clones share the bytes.
#[derive(Debug, Drop)]
pub struct Text {
    text: ArcStr<Global>,
}

impl Model for Text {
    ghost use Rattle.std.specs.Prelude.{◌≤◌, ℕ, List, length};
    ghost use Rattle.std.specs.Arc.{arc_str_bytes};
    ghost use Rattle.wiki_model.specs.Limits.{text_max};

    ghost Value = { List ℕ };

    ghost view = { λ t. arc_str_bytes t.text };

    ghost invariant = { λ t. length (arc_str_bytes t.text) ≤ text_max };
}

impl Text {
    /// The text with a line feed for each CR LF and each lone CR. Two passes.
    pub fn parse(alloc: Global, text: &str) -> Result<Text, TextFault>
        ensures { ReadsText result (with_line_feeds text.now) }
    {
        let length = length_with_line_feeds(text.as_bytes());
        if TEXT_MAX < length {
            return Err(TextFault::TooLong {
                bytes: length as u64,
            });
        }
        let made = with_line_feeds(alloc, text, length)?;
        Ok(Text {
            text: ArcStr::from_string(made)?,
        })
    }

    /// The text's bytes.
    pub fn text(&self) -> &str
        ensures value { result.now ≡ self.now }
        ensures short { length self.now ≤ text_max }
    {
        self.text.as_str()
    }
}

impl Clone for Text {
    ghost is_clone = { λ text copy. copy ≡ text };

    fn clone(&self) -> Result<Text, AllocError> {
        Ok(Text {
            text: self.text.clone()?,
        })
    }
}

impl PartialEq for Text {
    ghost eq = { bytes_eq };

    ghost laws = { Cmp.partial_equiv_from_equiv nat_list_eq_equiv };

    fn eq(&self, other: &Self) -> bool {
        self.text() == other.text()
    }
}

impl Eq for Text {
    ghost laws = { nat_list_eq_equiv };
}

/// Why a text is not taken.
#[derive(Clone, Copy, Debug, PartialEq, Eq)]
pub enum TextFault {
    /// It has more than [`TEXT_MAX`] bytes once its lines end with line feeds: this many.
    TooLong { bytes: u64 },
    /// Out of memory.
    Memory,
}

impl From<AllocError> for TextFault {
    ghost use Rattle.std.specs.Prelude.{◌≡◌};
    ghost use Rattle.wiki_titles.specs.declared.text.TextFault.TheVariants.{Memory};

    ghost from_gives = { λ _ fault. fault ≡ Memory };

    fn from(_error: AllocError) -> TextFault {
        TextFault::Memory
    }
}

impl fmt::Display for TextFault {
    ghost use Rattle.std.specs.Prelude.{Some};
    ghost use Rattle.wiki_titles.specs.Text.{fault_text};

    ghost output = { λ fault. Some (fault_text fault) };

    fn fmt<W: fmt::Write>(&self, f: &mut fmt::Formatter<W>) -> fmt::Result {
        match self {
            TextFault::TooLong { bytes } => write!(f, "the text has {bytes} bytes, over 65536"),
            TextFault::Memory => f.write_str("out of memory"),
        }
    }
}
