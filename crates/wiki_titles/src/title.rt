// Titles: reading one, its class and its path, and how titles compare.
ghost use Rattle.std.specs.Prelude.{◌≡◌, ◌≤◌, ◌<◌, ℕ, ◌==◌, ◌&&◌, ◌||◌, ◌++◌, List, length, Some, None, IfOk, OnOk, refl, bytes_eq, position};
ghost use Rattle.std.specs.String.{string_bytes};
ghost use Rattle.std.specs.Cmp as Cmp;
ghost use Rattle.std.specs.Cmp.Lexicographic.{nat_list_eq_equiv, nat_list_cmp_total, texts_po, texts_ties};
ghost use Rattle.wiki_model.specs.Bytes.{begins};
ghost use Rattle.wiki_model.specs.Titles.{title_of, class_of, url_of, is_bad, has_no_name};
ghost use Rattle.wiki_model.specs.Limits.{title_max};
ghost use Rattle.wiki_titles.specs.Order.{bytes_cmp};
ghost use Rattle.wiki_titles.specs.Title.{ReadsTitle, IsTitle};

use crate::clean::title_text;
use crate::url;
use farm_base::Memory;
use std::alloc::{AllocError, Global};
use std::cmp::Ordering;
use std::fmt;
use std::marker::Model;
use std::sync::ArcStr;
use wiki_model::Class;

/// The greatest length of a title.
pub const TITLE_MAX: usize = 255; // bytes

/// What the title of a template begins with.
pub const TEMPLATE_PREFIX: &str = "Template:";

/// What the title of a message begins with.
pub const MESSAGE_PREFIX: &str = "MediaWiki:";

/// The title of a page. Titles are ordered by their bytes. Clones share the bytes.
#[derive(Debug, Drop)]
pub struct Title {
    text: ArcStr<Global>,
}

impl Model for Title {
    ghost use Rattle.std.specs.Prelude.{ℕ, List};
    ghost use Rattle.std.specs.Arc.{arc_str_bytes};
    ghost use Rattle.wiki_titles.specs.Title.{IsShortTitle};

    ghost Value = { List ℕ };

    ghost view = { λ t. arc_str_bytes t.text };

    ghost invariant = { λ t. IsShortTitle (arc_str_bytes t.text) };
}

impl Title {
    /// The title that a text names. The faults are tested in the order of the enum. Two passes over the text, one more
    /// for a title with a class.
    pub fn parse(alloc: Global, text: &str) -> Result<Title, TitleFault>
        ensures { ReadsTitle result (title_of text.now) }
    {
        let title = title_text(alloc, text)?;
        if has_no_name(title.as_str()) {
            return Err(TitleFault::Empty);
        }
        if TITLE_MAX < title.len() {
            return Err(TitleFault::TooLong);
        }
        match first_bad(text) {
            Some(place) => Err(TitleFault::BadCharacter {
                place: place as u64,
            }),
            None => Ok(Title {
                text: ArcStr::from_string(title)?,
            }),
        }
    }

    /// The title's bytes.
    pub fn text(&self) -> &str
        ensures value { result.now ≡ self.now }
        ensures short { length self.now ≤ title_max }
        ensures known { IsTitle self.now }
    {
        self.text.as_str()
    }

    /// The class that the title's prefix names.
    pub fn class(&self) -> Class
        ensures { result ≡ class_of self.now }
    {
        class_of(self.text())
    }

    /// The title in a path: spaces as `_`, other bytes than ASCII letters, digits and `- . _ ~ / :` escaped.
    pub fn url(&self, alloc: Global) -> Result<String, Memory>
        ensures { IfOk result (λ url. string_bytes url ≡ url_of self.now) }
    {
        Ok(url::url_of(alloc, self.text())?)
    }

    /// Adds the title in a path to a text. If memory runs out, the text has grown by a prefix of it.
    pub fn push_url(&self, made: &mut String) -> Result<(), Memory>
        ensures { OnOk result (string_bytes made.new ≡ string_bytes made.old ++ url_of self.now) }
    {
        url::push_url(made, self.text())?;
        Ok(())
    }
}

impl Clone for Title {
    ghost is_clone = { λ title copy. copy ≡ title };

    fn clone(&self) -> Result<Title, AllocError> {
        Ok(Title {
            text: self.text.clone()?,
        })
    }
}

impl PartialEq for Title {
    ghost eq = { bytes_eq };

    ghost laws = { Cmp.partial_equiv_from_equiv nat_list_eq_equiv };

    fn eq(&self, other: &Self) -> bool {
        self.text() == other.text()
    }
}

impl Eq for Title {
    ghost laws = { nat_list_eq_equiv };
}

impl PartialOrd for Title {
    ghost partial_cmp = { λ x y. Some (bytes_cmp x y) };

    ghost laws = { texts_po };

    fn partial_cmp(&self, other: &Self) -> Option<Ordering> {
        Some(self.cmp(other))
    }
}

impl Ord for Title {
    ghost cmp = { bytes_cmp };

    ghost total = { nat_list_cmp_total };

    ghost matches_partial_cmp = { λ x y. refl };

    ghost matches_eq = { texts_ties };

    fn cmp(&self, other: &Self) -> Ordering {
        self.text().cmp(other.text())
    }
}

/// Why a text names no title.
#[derive(Clone, Copy, Debug, PartialEq, Eq)]
pub enum TitleFault {
    /// Nothing is left of the text, or nothing after a class prefix.
    Empty,
    /// The title has over 255 bytes.
    TooLong,
    /// The byte at this place of the text stands in no title; it is the first such byte.
    BadCharacter { place: u64 },
    /// Out of memory.
    Memory,
}

impl From<AllocError> for TitleFault {
    ghost use Rattle.std.specs.Prelude.{◌≡◌};
    ghost use Rattle.wiki_titles.specs.declared.title.TitleFault.TheVariants.{Memory};

    ghost from_gives = { λ _ fault. fault ≡ Memory };

    fn from(_error: AllocError) -> TitleFault {
        TitleFault::Memory
    }
}

impl fmt::Display for TitleFault {
    ghost use Rattle.std.specs.Prelude.{Some};
    ghost use Rattle.wiki_titles.specs.Title.{fault_text};

    ghost output = { λ fault. Some (fault_text fault) };

    fn fmt<W: fmt::Write>(&self, f: &mut fmt::Formatter<W>) -> fmt::Result {
        match self {
            TitleFault::Empty => f.write_str("the title is empty"),
            TitleFault::TooLong => f.write_str("the title has over 255 bytes"),
            TitleFault::BadCharacter { place } => write!(f, "byte {place} stands in no title"),
            TitleFault::Memory => f.write_str("out of memory"),
        }
    }
}

fn has_no_name(text: &str) -> bool
    ensures { result ≡ has_no_name text.now }
{
    text.is_empty()
        || is_prefix_alone(text, TEMPLATE_PREFIX)
        || is_prefix_alone(text, MESSAGE_PREFIX)
}

fn is_prefix_alone(text: &str, prefix: &str) -> bool
    ensures { result ≡ ((length prefix.now == length text.now) && begins prefix.now text.now) }
{
    prefix.len() == text.len() && text.as_bytes().starts_with(prefix.as_bytes())
}

fn first_bad(text: &str) -> Option<usize>
    ensures { result ≡ position is_bad text.now }
{
    text.as_bytes().iter().position(|byte| is_bad(*byte))
}

/// Whether this byte stands in no title: a control character, or one of `# < > [ ] | { }`.
pub fn is_bad(byte: u8) -> bool
    ensures { result ≡ is_bad byte }
{
    byte < b' ' || byte == b'\x7f' || b"#<>[]|{}".contains(&byte)
}

fn class_of(text: &str) -> Class
    ensures { result ≡ class_of text.now }
{
    if text.as_bytes().starts_with(TEMPLATE_PREFIX.as_bytes()) {
        Class::Template
    } else if text.as_bytes().starts_with(MESSAGE_PREFIX.as_bytes()) {
        Class::Message
    } else {
        Class::Plain
    }
}
