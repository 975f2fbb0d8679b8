//! The HTML of a page: its blocks and the marks inside them, the templates that it includes and the site notice.
//!
//! [`render`] goes over a text once and writes as it goes: at each place it asks which mark is used there, and the
//! first that can be used is. A text between quotes is read in the same way, and so is the text of a template, one
//! level less deep; no tree is made. Two things keep that fast for any text. What is known of closing marks goes along
//! from place to place, so that no byte is searched twice. And a page includes at most [`INCLUDED_MAX`] bytes of
//! templates, however often they are named: a template that would pass this is shown by the bytes of its name. Nothing
//! that a person types reaches the page but as escaped text, as the target of a link that is a title, or as one of the
//! tags of the markup.
//!
//! The grammar of lines, marks and names is that of `page_markup`; titles and their order are of `wiki_titles`; which
//! templates a page may need is for the caller to say (`replica_apply` gathers them).
//!
//! `render` of the title `A` with the text `one '''two'''` in markup 2 is
//!
//! ```text
//! <!DOCTYPE html>
//! <title>A</title>
//! <h1>A</h1>
//! <p>one <b>two</b></p>
//! ```
#![tactic(auto)]

mod choose_mark;
mod escape;
mod included;
mod link;
mod render_page;
mod sort_pages;
mod templates;
mod write_blocks;
mod writer;

pub use included::INCLUDED_MAX;
pub use render_page::{NESTING_MAX, Page, render};
