// Links and templates: what stands between brackets.
ghost use Rattle.std.specs.Prelude.{◌≡◌, ◌≤◌, ◌<◌, ◌+◌, ℕ, List, IfOk, length, drop, ◌++◌, codes, suc, position};
ghost use Rattle.wiki_model.specs.Titles.{is_bad, title_of, template_prefix};
ghost use Rattle.wiki_model.specs.Bytes.{begins};
ghost use Rattle.wiki_model.specs.Html.{template_named, ok_of, target_and_label};
ghost use Rattle.wiki_model.specs.Limits.{brackets_max, text_max};
ghost use Rattle.page_markup.specs.Mark.{bracket_marks_at, Remembers, named_by, link_target, rule_of, opening_of, closing_of};

use crate::closing_places::BRACKET_MAX;
use crate::find_mark;
use crate::inline::Mark;
use crate::one_line::part;
use std::alloc::{AllocError, Global};
use wiki_titles::{Title, TitleFault};

/// What a text between brackets names.
#[derive(Clone, Copy, Debug, PartialEq, Eq)]
pub enum Names {
    /// `[[`: the title that a link leads to.
    Links,
    /// `{{`: the title of a template's page.
    Templates,
}

impl Names {
    fn rule(self) -> u8
        ensures { result ≡ rule_of self }
    {
        match self {
            Names::Links => 4,
            Names::Templates => 5,
        }
    }

    /// The two opening brackets.
    pub fn opening(self) -> &'static [u8]
        ensures { result.now ≡ opening_of self }
    {
        match self {
            Names::Links => b"[[",
            Names::Templates => b"{{",
        }
    }

    /// The two closing brackets.
    pub fn closing(self) -> &'static [u8]
        ensures { result.now ≡ closing_of self }
    {
        match self {
            Names::Links => b"]]",
            Names::Templates => b"}}",
        }
    }
}

/// The title that a link leads to whose brackets enclose this text, if it leads to one.
#[tactic(auto, using(crate::proofs::Refused::link_refused))]
pub fn link_title(alloc: Global, inner: &str) -> Result<Option<Title>, AllocError>
    ensures { IfOk result (λ title. title ≡ link_target inner.now) }
{
    if let Some(bad) = first_bad(inner.as_bytes()) {
        if inner.as_bytes()[bad] != b'|' {
            return Ok(None);
        }
    }
    title_named(alloc, before_bar(inner))
}

/// The text before the first bar, or all of it.
fn before_bar(inner: &str) -> &str
    ensures { result.now ≡ (target_and_label inner.now).0 }
{
    let bar = find_mark::find_byte(inner, b'|', 0);
    part(inner, 0, bar)
}

/// The title of the template that a text of at most [`BRACKET_MAX`](crate::BRACKET_MAX) bytes names, if it names one.
#[tactic(auto, using(crate::proofs::Refused::template_refused))]
pub fn template_title(alloc: Global, inner: &str) -> Result<Option<Title>, AllocError>
    requires { length inner.now ≤ brackets_max }
    ensures { IfOk result (λ title. title ≡ template_named inner.now) }
{
    if let Some(_bad) = first_bad(inner.as_bytes()) {
        return Ok(None);
    }
    let mut name = String::new(alloc);
    name.push_str("Template:")?;
    name.push_str(inner)?;
    match title_named(alloc, name.as_str())? {
        Some(title) => {
            if is_template(&title) {
                Ok(Some(title))
            } else {
                Ok(None)
            }
        }
        None => Ok(None),
    }
}

fn is_template(title: &Title) -> bool
    ensures { result ≡ begins template_prefix title.now }
{
    title.text().as_bytes().starts_with(b"Template:")
}

/// The place of the first byte that no title has.
fn first_bad(inner: &[u8]) -> Option<usize>
    ensures { result ≡ position is_bad inner.now }
{
    inner.iter().position(|c| wiki_titles::is_bad(*c))
}

/// The title that a text names, if it names one.
fn title_named(alloc: Global, text: &str) -> Result<Option<Title>, AllocError>
    ensures { IfOk result (λ title. title ≡ ok_of (title_of text.now)) }
{
    match Title::parse(alloc, text) {
        Ok(title) => Ok(Some(title)),
        Err(TitleFault::Memory) => Err(AllocError),
        Err(_) => Ok(None),
    }
}

/// Adds the mark of these brackets, where one can be used at the place. Answers the next place of the closing ones.
#[tactic(auto, using(crate::proofs::Places::brackets_found, crate::proofs::Places::brackets_unnamed, crate::proofs::Places::brackets_long, crate::proofs::Places::brackets_open))]
pub fn read_brackets(
    alloc: Global,
    marks: &mut Vec<Mark>,
    text: &str,
    names: Names,
    at: usize,
    known: usize,
) -> Result<usize, AllocError>
    requires within { at ≤ length text.now }
    requires small { length text.now ≤ text_max }
    requires remembered { Remembers (closing_of names) text.now (at + 2) known }
    ensures read { IfOk result (λ _. marks.new.items ≡ marks.old.items ++ bracket_marks_at names at text.now) }
    ensures remembers { IfOk result (λ place. Remembers (closing_of names) text.now (at + 2) place) }
{
    if !find_mark::stands_at(text, names.opening(), at) {
        return Ok(known);
    }
    let start = at + 2;
    let close = find_mark::next_place(text, names.closing(), known, start);
    if close >= text.len() || close - start > BRACKET_MAX {
        return Ok(close);
    }
    if let Some(title) = read_name(alloc, names, part(text, start, close))? {
        marks.push(Mark {
            place: at as u32,
            rule: names.rule(),
            close: close as u32,
            title: Some(title),
        })?;
    }
    Ok(close)
}

fn read_name(alloc: Global, names: Names, inner: &str) -> Result<Option<Title>, AllocError>
    requires { length inner.now ≤ brackets_max }
    ensures { IfOk result (λ title. title ≡ named_by names inner.now) }
{
    match names {
        Names::Links => link_title(alloc, inner),
        Names::Templates => template_title(alloc, inner),
    }
}
