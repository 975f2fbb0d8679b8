// The mark that is used at a place.
ghost use Rattle.std.specs.Prelude.{◌≡◌, ◌≤◌, ◌<◌, ◌+◌, ℕ, List, length, get_or, codes, IfOk, true, false};
ghost use Rattle.page_markup.specs.Mark.{IsKnown};
ghost use Rattle.page_markup.specs.ClosingPlaces.{between};
ghost use Rattle.page_render.specs.Use.{IsUse, IsIncluded, IsLinkThere, IsMarkThere, IsTemplateThere, marked, first_quotes, width_of, opening_of, closing_of};

use crate::writer::Writer;
use page_markup::{ClosingPlaces, Names, brackets_within, quotes_within};
use std::alloc::{AllocError, Global};
use wiki_titles::{Text, Title};

/// What quotes stand for.
#[derive(Clone, Copy, Debug, PartialEq, Eq)]
pub enum Emphasis {
    /// Five quotes.
    BoldItalic,
    /// Three quotes.
    Bold,
    /// Two quotes.
    Italic,
}

impl Emphasis {
    /// How many quotes stand at each end.
    pub fn width(self) -> usize
        ensures { result ≡ width_of self }
    {
        match self {
            Emphasis::BoldItalic => 5,
            Emphasis::Bold => 3,
            Emphasis::Italic => 2,
        }
    }

    /// The tags that stand for the quotes before a text.
    pub fn opening(self) -> &'static [u8]
        ensures { result.now ≡ opening_of self }
    {
        match self {
            Emphasis::BoldItalic => b"<b><i>",
            Emphasis::Bold => b"<b>",
            Emphasis::Italic => b"<i>",
        }
    }

    /// The tags that stand for the quotes after a text.
    pub fn closing(self) -> &'static [u8]
        ensures { result.now ≡ closing_of self }
    {
        match self {
            Emphasis::BoldItalic => b"</i></b>",
            Emphasis::Bold => b"</b>",
            Emphasis::Italic => b"</i>",
        }
    }
}

/// What is used at a place, and where its closing mark stands.
#[derive(Debug, Drop)]
pub enum Use<'p> {
    /// No mark: the byte itself.
    Byte,
    /// Quotes, which close at this place.
    Quotes { emphasis: Emphasis, close: usize },
    /// A link to this title, whose brackets close at this place.
    Link { title: Title, close: usize },
    /// A template with this text, whose braces close at this place.
    Include { text: &'p Text, close: usize },
}

/// What is used at a place, and what is known of closing marks after it.
#[derive(Debug, Drop)]
pub struct Chosen<'p> {
    pub used: Use<'p>,
    /// What is known at the next place.
    pub known: ClosingPlaces,
}

impl<'p> Chosen<'p> {
    ghost use Rattle.std.specs.Prelude.{◌≡◌};
    ghost use Rattle.page_render.specs.declared.choose_mark.Use.TheVariants.{Byte, Quotes};

    /// No mark is used: the place is read as a byte.
    fn byte(known: ClosingPlaces) -> Chosen<'p>
        ensures used { result.used ≡ Byte }
        ensures known { result.known ≡ known }
    {
        Chosen {
            used: Use::Byte,
            known,
        }
    }

    /// Quotes of this kind are used, and close at this place.
    fn quotes(emphasis: Emphasis, close: usize, known: ClosingPlaces) -> Chosen<'p>
        ensures used { result.used ≡ Quotes emphasis close }
        ensures known { result.known ≡ known }
    {
        Chosen {
            used: Use::Quotes { emphasis, close },
            known,
        }
    }
}

/// What is used at the place; a template only if they are read.
pub fn choose<'p>(
    writer: &Writer<'p>,
    text: &str,
    at: usize,
    to: usize,
    reads: bool,
    known: ClosingPlaces,
) -> Result<Chosen<'p>, AllocError>
    requires order { at < to }
    requires within { to ≤ length text.now }
    requires known { IsKnown text.now at known }
    ensures bounds { IfOk result (λ chosen. IsUse at to writer.now.included reads chosen.used) }
    ensures used { IfOk result (λ chosen. IsMarkThere writer.now reads at to text.now chosen.used) }
    ensures known { IfOk result (λ chosen. IsKnown text.now (at + 1) chosen.known) }
{
    let first = text.as_bytes()[at];
    if first == b'\'' {
        return Ok(quotes_at(text, at, to, known));
    }
    if first == b'[' {
        let chosen = link_at(writer.alloc(), text, at, to, known)?;
        return Ok(chosen);
    }
    if first == b'{' {
        if reads {
            let chosen = template_at(writer, text, at, to, known)?;
            return Ok(chosen);
        }
    }
    Ok(Chosen::byte(known))
}

/// The quotes that are used at the place.
#[tactic(auto, using(crate::proofs::Picks::five_used, crate::proofs::Picks::three_used, crate::proofs::Picks::two_used, crate::proofs::Picks::none_used))]
fn quotes_at<'p>(text: &str, at: usize, to: usize, known: ClosingPlaces) -> Chosen<'p>
    requires order { at < to }
    requires within { to ≤ length text.now }
    requires known { IsKnown text.now at known }
    ensures bounds { IsUse at to 0 false result.used }
    ensures used { marked at to text.now result.used ≡ first_quotes (between at to text.now) }
    ensures known { IsKnown text.now (at + 1) result.known }
{
    let five = quotes_within(text, b"'''''", at, to, known.five);
    let known = ClosingPlaces {
        five: five.known,
        ..known
    };
    if let Some(close) = five.close {
        return Chosen::quotes(Emphasis::BoldItalic, close, known);
    }
    let three = quotes_within(text, b"'''", at, to, known.three);
    let known = ClosingPlaces {
        three: three.known,
        ..known
    };
    if let Some(close) = three.close {
        return Chosen::quotes(Emphasis::Bold, close, known);
    }
    let two = quotes_within(text, b"''", at, to, known.two);
    let known = ClosingPlaces {
        two: two.known,
        ..known
    };
    match two.close {
        Some(close) => Chosen::quotes(Emphasis::Italic, close, known),
        None => Chosen::byte(known),
    }
}

/// The link that is used at the place.
#[tactic(auto, using(crate::proofs::Picks::link_used, crate::proofs::Picks::link_unused))]
fn link_at<'p>(
    alloc: Global,
    text: &str,
    at: usize,
    to: usize,
    known: ClosingPlaces,
) -> Result<Chosen<'p>, AllocError>
    requires order { at < to }
    requires within { to ≤ length text.now }
    requires known { IsKnown text.now at known }
    ensures bounds { IfOk result (λ chosen. IsUse at to 0 false chosen.used) }
    ensures used { IfOk result (λ chosen. IsLinkThere at to text.now chosen.used) }
    ensures known { IfOk result (λ chosen. IsKnown text.now (at + 1) chosen.known) }
{
    let brackets = brackets_within(text, Names::Links, at, to, known.brackets);
    let known = ClosingPlaces {
        brackets: brackets.known,
        ..known
    };
    match brackets.close {
        None => Ok(Chosen::byte(known)),
        Some(close) => {
            match page_markup::link_title(alloc, page_markup::part(text, at + 2, close))? {
                Some(title) => Ok(Chosen {
                    used: Use::Link { title, close },
                    known,
                }),
                None => Ok(Chosen::byte(known)),
            }
        }
    }
}

/// The template that is included at the place.
#[tactic(auto, using(crate::proofs::Picks::template_used, crate::proofs::Picks::template_unused, crate::proofs::Picks::included_use))]
fn template_at<'p>(
    writer: &Writer<'p>,
    text: &str,
    at: usize,
    to: usize,
    known: ClosingPlaces,
) -> Result<Chosen<'p>, AllocError>
    requires order { at < to }
    requires within { to ≤ length text.now }
    requires known { IsKnown text.now at known }
    ensures bounds { IfOk result (λ chosen. IsUse at to writer.now.included true chosen.used) }
    ensures used { IfOk result (λ chosen. IsTemplateThere writer.now at to text.now chosen.used) }
    ensures known { IfOk result (λ chosen. IsKnown text.now (at + 1) chosen.known) }
{
    let braces = brackets_within(text, Names::Templates, at, to, known.braces);
    let known = ClosingPlaces {
        braces: braces.known,
        ..known
    };
    match braces.close {
        None => Ok(Chosen::byte(known)),
        Some(close) => match writer.find(page_markup::part(text, at + 2, close))? {
            None => Ok(Chosen::byte(known)),
            Some(template) => Ok(Chosen {
                used: if_it_fits(writer, template, close),
                known,
            }),
        },
    }
}

/// A template is included if its bytes fit beside those included before.
fn if_it_fits<'p>(writer: &Writer<'p>, template: &'p Text, close: usize) -> Use<'p>
    ensures { IsIncluded template.now writer.now.included close result }
{
    if writer.has_room(template.text().len()) {
        Use::Include {
            text: template,
            close,
        }
    } else {
        Use::Byte
    }
}
