// The marks of a text that is read inline.
ghost use Rattle.std.specs.Prelude.{◌≡◌, ◌≤◌, ◌<◌, ◌+◌, ℕ, List, IfOk, length, drop, ◌++◌, codes, suc};
ghost use Rattle.wiki_model.specs.Limits.{text_max};
ghost use Rattle.page_markup.specs.Mark.{quote_marks, Remembers, marks_from, marks_here, all_quotes, IsKnown};
ghost use Rattle.page_markup.specs.Tree.{inline_of};

use crate::brackets::Names;
use crate::closing_places::ClosingPlaces;
use crate::{brackets, find_mark};
use farm_base::{Listed, ListedText};
use std::alloc::{AllocError, Global};
use wiki_titles::Title;

/// A mark that can be used at a place of a text.
#[derive(Debug, Drop)]
pub struct Mark {
    /// The place in bytes at which it begins.
    pub place: u32,
    /// 1 for bold italics, 2 for bold, 3 for italics, 4 for a link, 5 for a template.
    pub rule: u8,
    /// The place in bytes at which its closing mark begins.
    pub close: u32,
    /// The title that a link leads to, or that of a template's page; none for quotes.
    pub title: Option<Title>,
}

/// A text with its marks, in order of place and then of rule.
#[derive(Debug, Drop)]
pub struct Inline {
    /// The text, at most 65,536 bytes.
    pub text: ListedText,
    /// Each mark that can be used in it, whether or not another uses its place.
    pub marks: Listed<Mark>,
}

/// The text with its marks.
pub fn read(alloc: Global, text: &str) -> Result<Inline, AllocError>
    requires { length text.now ≤ text_max }
    ensures { IfOk result (λ read. read ≡ inline_of text.now) }
{
    let bytes = String::from_str(alloc, text)?;
    let marks = read_marks(alloc, text)?;
    Ok(Inline {
        text: ListedText::new(bytes),
        marks: Listed::new(marks),
    })
}

/// The marks of the text.
fn read_marks(alloc: Global, text: &str) -> Result<Vec<Mark>, AllocError>
    requires { length text.now ≤ text_max }
    ensures { IfOk result (λ marks. marks.items ≡ marks_from 0 text.now) }
{
    let mut marks = Vec::new(alloc);
    let mut known = ClosingPlaces::nothing();
    for at in 0..text.len() {
        known = read_place(alloc, &mut marks, text, at, known)?;
    }
    Ok(marks)
}

/// Adds the marks that can be used at the place.
#[tactic(auto, using(crate::proofs::Places::known_on, crate::proofs::Firsts::no_marks))]
fn read_place(
    alloc: Global,
    marks: &mut Vec<Mark>,
    text: &str,
    at: usize,
    known: ClosingPlaces,
) -> Result<ClosingPlaces, AllocError>
    requires within { at < length text.now }
    requires small { length text.now ≤ text_max }
    requires known { IsKnown text.now at known }
    ensures read { IfOk result (λ _. marks.new.items ≡ marks.old.items ++ marks_here at (drop at text.now)) }
    ensures known { IfOk result (λ after. IsKnown text.now (at + 1) after) }
{
    let first = text.as_bytes()[at];
    if first == b'\'' {
        read_all_quotes(marks, text, at, known)
    } else if first == b'[' {
        let brackets = brackets::read_brackets(
            alloc,
            marks,
            text,
            Names::Links,
            at,
            known.brackets,
        )?;
        Ok(ClosingPlaces { brackets, ..known })
    } else if first == b'{' {
        let braces = brackets::read_brackets(
            alloc,
            marks,
            text,
            Names::Templates,
            at,
            known.braces,
        )?;
        Ok(ClosingPlaces { braces, ..known })
    } else {
        Ok(known)
    }
}

/// Adds the marks of quotes that can be used at the place.
#[tactic(auto, using(crate::proofs::Places::known_on))]
fn read_all_quotes(
    marks: &mut Vec<Mark>,
    text: &str,
    at: usize,
    known: ClosingPlaces,
) -> Result<ClosingPlaces, AllocError>
    requires within { at < length text.now }
    requires small { length text.now ≤ text_max }
    requires known { IsKnown text.now at known }
    ensures read { IfOk result (λ _. marks.new.items ≡ marks.old.items ++ all_quotes at (drop at text.now)) }
    ensures known { IfOk result (λ after. IsKnown text.now (at + 1) after) }
{
    let five = read_quotes(marks, text, b"'''''", 1, at, known.five)?;
    let three = read_quotes(marks, text, b"'''", 2, at, known.three)?;
    let two = read_quotes(marks, text, b"''", 3, at, known.two)?;
    Ok(ClosingPlaces {
        five,
        three,
        two,
        ..known
    })
}

/// Adds the mark of this kind of quotes, where one can be used at the place. Answers the next place of such quotes.
#[tactic(auto, using(crate::proofs::Places::quotes_found, crate::proofs::Places::quotes_missed))]
fn read_quotes(
    marks: &mut Vec<Mark>,
    text: &str,
    quotes: &[u8],
    rule: u8,
    at: usize,
    known: usize,
) -> Result<usize, AllocError>
    requires within { at < length text.now }
    requires small { length text.now ≤ text_max }
    requires some { 0 < length quotes.now }
    requires few { length quotes.now < 6 }
    requires remembered { Remembers quotes.now text.now (at + length quotes.now + 1) known }
    ensures read { let read = quote_marks rule quotes.now at (drop at text.now) in
        IfOk result (λ _. marks.new.items ≡ marks.old.items ++ read) }
    ensures remembers { IfOk result (λ place. Remembers quotes.now text.now (at + length quotes.now + 1) place) }
{
    if !find_mark::stands_at(text, quotes, at) {
        return Ok(known);
    }
    let inner = at + quotes.len();
    if inner >= text.len() {
        return Ok(known);
    }
    let close = find_mark::next_place(text, quotes, known, inner + 1);
    if close < text.len() {
        marks.push(Mark {
            place: at as u32,
            rule,
            close: close as u32,
            title: None,
        })?;
    }
    Ok(close)
}
