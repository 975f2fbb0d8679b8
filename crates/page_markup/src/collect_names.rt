// The templates that a text names.
ghost use Rattle.std.specs.Prelude.{◌≡◌, ◌≤◌, ◌<◌, ◌+◌, ◌-◌, ◌++◌, ℕ, List, IfOk, OnOk, IsTrue, length, drop, codes, replicate};
ghost use Rattle.std.specs.Str.{IsCharBoundary};
ghost use Rattle.wiki_model.specs.Html.{template_named};
ghost use Rattle.wiki_model.specs.Limits.{brackets_max, text_max};
ghost use Rattle.wiki_model.specs.Bytes.{line_feed, replaced, space};
ghost use Rattle.page_markup.specs.ClosingPlaces.{between};
ghost use Rattle.page_markup.specs.Mark.{Remembers};
ghost use Rattle.page_markup.specs.Names.{AddsNames, AreNames, AreRecent, listed, name_here, named_between, names_from, nothing, read_as};

use crate::brackets::{Names, template_title};
use crate::closing_places::brackets_within;
use crate::one_line::{in_one_line, line_text, part};
use std::alloc::{AllocError, Global};
use wiki_titles::Title;

/// The titles of the templates that the text names, in order, each once.
pub fn template_names(alloc: Global, text: &str) -> Result<Vec<Title>, AllocError>
    requires { length text.now ≤ text_max }
    ensures { IfOk result (λ names. AreNames (names_from text.now) names.items) }
{
    names_by(alloc, text, Lines::Kept)
}

/// The same of the text in one line. No text is copied but names that hold a line feed.
pub fn names_in_line(alloc: Global, text: &str) -> Result<Vec<Title>, AllocError>
    requires { length text.now ≤ text_max }
    ensures { IfOk result (λ names. AreNames (names_from (replaced line_feed space text.now)) names.items) }
{
    names_by(alloc, text, Lines::AsSpaces)
}

/// How a text is read.
#[derive(Clone, Copy, Debug, PartialEq, Eq)]
pub(crate) enum Lines {
    /// As it stands.
    Kept,
    /// In one line: each line feed is a space.
    AsSpaces,
}

/// Where a name stands in a text.
#[derive(Clone, Copy, Debug, PartialEq, Eq)]
pub(crate) struct Span {
    start: usize,
    end: usize,
}

/// How many names are remembered.
const RECENT: usize = 64; // names

/// The titles that were found, and where some of them were named last: a name that is repeated needs no second title.
#[derive(Drop)]
struct Found {
    titles: Vec<Title>,
    recent: Vec<Span>,
}

fn names_by(alloc: Global, text: &str, lines: Lines) -> Result<Vec<Title>, AllocError>
    requires { length text.now ≤ text_max }
    ensures { IfOk result (λ names. AreNames (names_from (read_as lines text.now)) names.items) }
{
    let mut found = Found {
        titles: Vec::new(alloc),
        recent: nowhere(alloc)?,
    };
    let mut known = 0;
    for at in 0..text.len() {
        known = read_name(alloc, &mut found, text, lines, at, known)?;
    }
    in_order(found.titles)
}

/// Places at which nothing is named.
fn nowhere(alloc: Global) -> Result<Vec<Span>, AllocError>
    ensures { IfOk result (λ spans. spans.items ≡ replicate RECENT nothing) }
{
    vec![in alloc; Span { start: 0, end: 0 }; RECENT]
}

/// Adds the title that braces at the place name, if they name one. Answers the next place of closing braces.
fn read_name(
    alloc: Global,
    found: &mut Found,
    text: &str,
    lines: Lines,
    at: usize,
    known: usize,
) -> Result<usize, AllocError>
    requires within { at ≤ length text.now }
    requires remembered { Remembers (codes "}}") text.now (at + 2) known }
    requires some { 0 < length found.old.recent.items }
    requires recent { AreRecent lines text.now found.old.titles.items found.old.recent.items }
    ensures some { IfOk result (λ _. 0 < length found.new.recent.items) }
    ensures recent { IfOk result (λ _. AreRecent lines text.now found.new.titles.items found.new.recent.items) }
    ensures names { IfOk result (λ _. AddsNames found.old.titles.items found.new.titles.items
        (name_here (read_as lines (drop at text.now)))) }
    ensures remembers { IfOk result (λ place. Remembers (codes "}}") text.now (at + 2) place) }
{
    let braces = brackets_within(text, Names::Templates, at, text.len(), known);
    if let Some(close) = braces.close {
        let span = Span {
            start: at + 2,
            end: close,
        };
        add_name(alloc, found, text, lines, span)?;
    }
    Ok(braces.known)
}

/// Adds the title that is named there, if one is, and if it was not named there just now.
fn add_name(
    alloc: Global,
    found: &mut Found,
    text: &str,
    lines: Lines,
    span: Span,
) -> Result<(), AllocError>
    requires order { span.start ≤ span.end }
    requires first { IsCharBoundary text.now span.start }
    requires last { IsCharBoundary text.now span.end }
    requires short { span.end - span.start ≤ brackets_max }
    requires some { 0 < length found.old.recent.items }
    requires recent { AreRecent lines text.now found.old.titles.items found.old.recent.items }
    ensures some { OnOk result (0 < length found.new.recent.items) }
    ensures recent { OnOk result (AreRecent lines text.now found.new.titles.items found.new.recent.items) }
    ensures names { OnOk result (AddsNames found.old.titles.items found.new.titles.items
        (named_between lines (between span.start span.end text.now))) }
{
    let name = part(text, span.start, span.end);
    let place = place_of(name, found.recent.len());
    if is_at(text, found.recent[place], name) {
        return Ok(());
    }
    let title = name_between(alloc, name, lines)?;
    push_title(&mut found.titles, title)?;
    found.recent[place] = span;
    Ok(())
}

/// Where a name is remembered.
fn place_of(name: &str, places: usize) -> usize
    requires { 0 < places }
    ensures { result < places }
{
    let bytes = name.as_bytes();
    match (bytes.first(), bytes.last()) {
        (Some(first), Some(last)) => (bytes.len() + *first as usize * 3 + *last as usize * 17)
            % places,
        _ => 0,
    }
}

/// Whether the name stands there.
fn is_at(text: &str, span: Span, name: &str) -> bool
    ensures { IsTrue result → between span.start span.end text.now ≡ name.now }
{
    let bytes = text.as_bytes();
    if span.end < span.start || bytes.len() < span.end {
        return false;
    }
    let there = &bytes[span.start..span.end];
    there == name.as_bytes()
}

/// The title of the template that a text between braces names.
fn name_between(alloc: Global, name: &str, lines: Lines) -> Result<Option<Title>, AllocError>
    requires { length name.now ≤ brackets_max }
    ensures { IfOk result (λ title. title ≡ template_named (read_as lines name.now)) }
{
    match lines {
        Lines::Kept => template_title(alloc, name),
        Lines::AsSpaces => {
            let line = in_one_line(alloc, name)?;
            template_title(alloc, line_text(&line))
        }
    }
}

fn push_title(titles: &mut Vec<Title>, title: Option<Title>) -> Result<(), AllocError>
    ensures { IfOk result (λ _. titles.new.items ≡ titles.old.items ++ listed title) }
{
    match title {
        Some(title) => {
            titles.push(title)?;
            Ok(())
        }
        None => Ok(()),
    }
}

/// The titles in order, each once.
fn in_order(titles: Vec<Title>) -> Result<Vec<Title>, AllocError>
    ensures { IfOk result (λ names. AreNames titles.items names.items) }
{
    let mut names = titles;
    names.sort()?;
    names.dedup();
    Ok(names)
}
