// A text in one line.
ghost use Rattle.std.specs.Prelude.{◌≡◌, ◌≤◌, ◌<◌, ◌-◌, ◌++◌, ℕ, List, IfOk, length, drop, take};
ghost use Rattle.std.specs.String.{string_bytes};
ghost use Rattle.std.specs.Str.{IsCharBoundary};
ghost use Rattle.wiki_model.specs.Bytes.{replaced, line_feed, space};
ghost use Rattle.page_markup.specs.OneLine.{line_text, with_rest};

use crate::find_mark;
use std::alloc::{AllocError, Global};

/// A text in one line.
#[derive(Debug, Drop)]
pub enum OneLine<'a> {
    /// The text itself, which has no line feed.
    Same(&'a str),
    /// A copy of it, with a space for each line feed.
    Spaced(String),
}

/// The text with each line feed as a space. Memory is taken only if there is one.
#[tactic(auto, using(crate::proofs::Cuts::spaced_same))]
pub fn in_one_line(alloc: Global, text: &str) -> Result<OneLine<'_>, AllocError>
    ensures { IfOk result (λ line. line_text line ≡ replaced line_feed space text.now) }
{
    if find_mark::find_byte(text, b'\n', 0) < text.len() {
        Ok(OneLine::Spaced(with_spaces(alloc, text)?))
    } else {
        Ok(OneLine::Same(text))
    }
}

/// The bytes of the line.
pub fn line_text<'a>(line: &'a OneLine<'a>) -> &'a str
    ensures { result.now ≡ line_text line.now }
{
    match line {
        OneLine::Same(text) => text,
        OneLine::Spaced(text) => text.as_str(),
    }
}

/// The text with each line feed as a space.
pub fn with_spaces(alloc: Global, text: &str) -> Result<String, AllocError>
    ensures { IfOk result (λ made. string_bytes made ≡ replaced line_feed space text.now) }
{
    let mut made = String::new(alloc);
    let mut at = 0;
    while at < text.len() {
        at = push_line(&mut made, text, at)?;
    }
    Ok(made)
}

/// Adds the line that begins at the place, and a space if another follows. Answers where that one begins.
fn push_line(made: &mut String, text: &str, at: usize) -> Result<usize, AllocError>
    requires within { at < length text.now }
    requires cut { IsCharBoundary text.now at }
    ensures past { IfOk result (λ next. at < next) }
    ensures cut { IfOk result (λ next. next < length text.now → IsCharBoundary text.now next) }
    ensures spaced { let whole = with_rest (string_bytes made.old) (drop at text.now) in
        IfOk result (λ next. with_rest (string_bytes made.new) (drop next text.now) ≡ whole) }
{
    let end = find_mark::find_byte(text, b'\n', at);
    made.push_str(part(text, at, end))?;
    if end >= text.len() {
        return Ok(end + 1);
    }
    made.push_str(" ")?;
    Ok(end + 1)
}

/// The text between two places.
pub fn part(text: &str, from: usize, to: usize) -> &str
    requires order { from ≤ to }
    requires first { IsCharBoundary text.now from }
    requires last { IsCharBoundary text.now to }
    ensures { result.now ≡ take (to - from) (drop from text.now) }
{
    &text[from..to]
}
