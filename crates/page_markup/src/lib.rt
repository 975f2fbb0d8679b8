//! Markup: the lines and blocks of a page's text, and the marks of each text that is read inline.
//!
//! A mark is used where it can be, from left to right, and what it can be depends on where its closing mark stands. So
//! a page made of opening marks alone could cost a search of all its rest at each byte. Here it does not:
//! [`ClosingPlaces`] goes along from place to place and keeps the next place of each closing mark, and
//! [`quotes_within`] and [`brackets_within`] search only from where an earlier search ended. Between brackets at most
//! [`BRACKET_MAX`] bytes stand.
//!
//! A reader that wants no tree goes over the text itself: by lines with [`line_at`] and [`paragraph_end`], and by marks
//! with those two. [`parse`] gives the same as a tree: headings, lists and paragraphs, and for each text in them every
//! mark that could be used. Which one is used, which template is there and how deep templates nest is for the reader to
//! say, as `page_render` does. [`template_names`] lists the templates that a text names.
//!
//! The tree of `== A ==` and, on the next line, `one [[B|two]]` has a heading of level 2 with the text `A`, and a
//! paragraph with one mark: a link at place 4 that closes at place 11 and leads to `B`.
#![tactic(auto)]

mod brackets;
mod closing_places;
mod collect_names;
mod find_mark;
mod inline;
mod line;
mod one_line;
mod plain_name;
mod tree;

ghost use Rattle.std.specs.Prelude.{◌≡◌, ◌≤◌, length, IfOk};
ghost use Rattle.std.specs.String.{string_bytes};
ghost use Rattle.wiki_model.specs.Bytes.{replaced, line_feed, space};
ghost use Rattle.wiki_model.specs.Limits.{text_max};
ghost use Rattle.page_markup.specs.Names.{AreNames, names_from};
ghost use Rattle.page_markup.specs.Tree.{inline_of, tree_of};

pub use brackets::{Names, link_title, template_title};
pub use closing_places::{BRACKET_MAX, Closing, ClosingPlaces, brackets_within, quotes_within};
use farm_base::Memory;
pub use find_mark::find_in;
pub use inline::{Inline, Mark};
pub use line::{Line, line_at};
pub use one_line::{OneLine, in_one_line, line_text, part};
pub use plain_name::plain_first;
use std::alloc::Global;
pub use tree::{Block, BlockKind, Tree, paragraph_end};
use wiki_titles::{Text, Title};

/// The tree of the text.
pub fn parse(alloc: Global, text: &Text) -> Result<Tree, Memory>
    ensures { IfOk result (λ tree. tree ≡ tree_of text.now) }
{
    tree::read_tree(alloc, text.text()).map_err(|_| Memory)
}

/// The text with its marks, for a text of at most 65,536 bytes.
pub fn read_inline(alloc: Global, text: &str) -> Result<Inline, Memory>
    requires { length text.now ≤ text_max }
    ensures { IfOk result (λ read. read ≡ inline_of text.now) }
{
    inline::read(alloc, text).map_err(|_| Memory)
}

/// The text with each line feed as a space.
pub fn with_spaces(alloc: Global, text: &str) -> Result<String, Memory>
    ensures { IfOk result (λ made. string_bytes made ≡ replaced line_feed space text.now) }
{
    one_line::with_spaces(alloc, text).map_err(|_| Memory)
}

/// The titles of the templates that the text names, in title order, each once: one for each place where braces name
/// one, whether or not another mark uses that place.
pub fn template_names(alloc: Global, text: &Text) -> Result<Vec<Title>, Memory>
    ensures { IfOk result (λ names. AreNames (names_from text.now) names.items) }
{
    match collect_names::template_names(alloc, text.text()) {
        Ok(names) => Ok(names),
        Err(_) => Err(Memory),
    }
}

/// The same of the text with each line feed as a space, as the text of a template is read. A text without one is not
/// copied.
pub fn template_names_spaced(alloc: Global, text: &Text) -> Result<Vec<Title>, Memory>
    ensures { IfOk result (λ names. AreNames (names_from (replaced line_feed space text.now)) names.items) }
{
    match collect_names::names_in_line(alloc, text.text()) {
        Ok(names) => Ok(names),
        Err(_) => Err(Memory),
    }
}
