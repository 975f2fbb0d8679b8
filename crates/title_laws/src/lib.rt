//! The laws of titles: what was read as a title reads back as that title.
//!
//! This crate owns three statements about definitions that stand elsewhere, each as the contract of a function that does
//! nothing, so that its proof is asked for. It has no code, and nothing stands on it.
//!
//! The one idea: a title is a *clean* text. Its words stand one space apart, with none at the ends; its first letter is
//! raised, and so is the first of the name after a class. Each step of cleaning makes one of these true, keeps those
//! that were made before it, and leaves a text as it is of which they hold already. So a title is cleaned to itself,
//! and whoever stores, prints or sends a title's text need not ask what becomes of it when it is read again. A path is
//! no exception: it writes a space as an underscore, which cleaning takes for a space.
//!
//! An example: ` foo__bar_` reads as `Foo bar`, and `Foo bar` reads as `Foo bar`. An edit of `Café menu` is answered
//! with the location `/wiki/Caf%C3%A9_menu`. A request for it is decoded to `Café_menu`, which reads as `Café menu`, so
//! the browser is shown the page that was saved (`proofs/Examples.antt`).
//!
//! What it leaves to others: that the program reads and writes titles as the definitions say (`wiki_titles`), that the
//! location of an edit's answer is that of its title (`wiki_serve`), and that requests are read so (`http_desk`).
#![tactic(auto)]

ghost use Rattle.title_laws.specs.Laws.{LocationsLeadBack, LocationsReadBack, TitlesReadBack};

/// Whatever text reads as a title, that title's own text reads as the same title again.
pub fn titles_read_back()
    ensures { TitlesReadBack }
{}

/// What the path of a title's page says of the title, percent-decoded, is the title's text with an underscore for each
/// space, and reads as the title.
pub fn locations_read_back()
    ensures { LocationsReadBack }
{}

/// A request for the location that an edit of a title is answered with asks for the page of that title: who is led on
/// comes to the page that was saved.
pub fn locations_lead_back()
    ensures { LocationsLeadBack }
{}
