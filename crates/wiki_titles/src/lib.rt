//! What a person types, read exactly: titles, tokens, client ids and texts of pages, and the classes of titles.
//!
//! Whoever holds one of these values need not test it again. A reader takes bytes from outside, makes them one form
//! (underscores are spaces, a class's name is raised, lines end with line feeds), and tests what is then left in a
//! fixed order, so that a wrong text has one answer: the first refusal that holds. What passes is kept as an invariant
//! of the type, and contracts see the value as its bytes. A [`Title`] and a [`Text`] share their bytes with their
//! clones, so keys, entries and snapshots hold them at no cost.
//!
//! Which bytes are a title is said by `wiki_model`; this crate reads them, and knows nothing of pages or edits.
//!
//! `Title::parse(alloc, "template:_x")` answers the title `Template:X` of the class `Template`: the underscore is a
//! space, the first letter is raised, and after a class no space stands and the first letter is raised too.
#![tactic(auto)]

mod clean;
mod client;
mod line_ends;
mod text;
mod title;
mod token;
mod url;

pub use client::ClientId;
pub use text::{TEXT_MAX, Text, TextFault};
pub use title::{MESSAGE_PREFIX, TEMPLATE_PREFIX, TITLE_MAX, Title, TitleFault, is_bad};
pub use token::{TOKEN_MAX, Token, TokenFault};
pub use wiki_model::Class;
