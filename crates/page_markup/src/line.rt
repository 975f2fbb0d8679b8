// A line of a text: what it is, and where it ends.
ghost use Rattle.std.specs.Prelude.{◌≡◌, ◌≤◌, ◌<◌, ◌-◌, ◌+◌, length, drop, take, reverse, codes, IfNone, IfSome, true, false, ◌==◌, get_or};
ghost use Rattle.std.specs.Str.{IsCharBoundary};
ghost use Rattle.std.specs.List.{list_all};
ghost use Rattle.wiki_model.specs.Bytes.{line_feed, space, run_of, trimmed, skip_spaces};
ghost use Rattle.wiki_model.specs.Limits.{level_max};
ghost use Rattle.wiki_model.specs.Html.{heading_level, is_heading, middle_of};
ghost use Rattle.page_markup.specs.Line.{IsLine, IsShort};
ghost use Rattle.page_markup.specs.Mark.{next_place};

use crate::find_mark;
use crate::one_line::part;

/// The lowest heading: HTML has tags for six levels.
const LEVEL_MAX: usize = 6;

/// A line of a text. The texts in it are without the spaces at their ends.
#[derive(Clone, Copy, Debug)]
pub enum Line<'a> {
    /// Nothing but spaces.
    Blank,
    /// Signs `=` at both ends, as many as its level, from 1 to 6.
    Heading { level: u8, middle: &'a str },
    /// It begins with `*`.
    Item { text: &'a str },
    /// Any other line.
    Plain,
}

/// The line that begins at the place, and where it ends.
pub fn line_at(text: &str, at: usize) -> (Line<'_>, usize)
    requires within { at ≤ length text.now }
    requires cut { IsCharBoundary text.now at }
    ensures end { result.1 ≡ next_place (codes "\n") at text.now }
    ensures within { result.1 ≤ length text.now }
    ensures feed { result.1 < length text.now → get_or text.now result.1 0 ≡ line_feed }
    ensures cut { IsCharBoundary text.now result.1 }
    ensures next { result.1 < length text.now → IsCharBoundary text.now (result.1 + 1) }
    ensures line { IsLine (take (result.1 - at) (drop at text.now)) result.0 }
    ensures short { IsShort (length text.now) result.0 }
{
    let end = find_mark::find_byte(text, b'\n', at);
    (line_of(part(text, at, end)), end)
}

/// What the line is.
#[tactic(auto, using(crate::proofs::LineKinds::blank_line, crate::proofs::LineKinds::heading_line, crate::proofs::LineKinds::item_line, crate::proofs::LineKinds::plain_line))]
fn line_of(line: &str) -> Line<'_>
    ensures line { IsLine line.now result }
    ensures short { IsShort (length line.now) result }
{
    if is_blank(line) {
        return Line::Blank;
    }
    if let Some((level, middle)) = heading(line) {
        return Line::Heading {
            level: level as u8,
            middle,
        };
    }
    match line.strip_prefix('*') {
        Some(rest) => Line::Item {
            text: trimmed(rest),
        },
        None => Line::Plain,
    }
}

fn is_blank(line: &str) -> bool
    ensures { result ≡ list_all (λ c. c == space) line.now }
{
    line.as_bytes().iter().all(|c| *c == b' ')
}

/// The level and the middle of a heading, if the line is one.
#[tactic(auto, using(crate::proofs::LineKinds::no_level, crate::proofs::LineKinds::all_signs, crate::proofs::LineKinds::empty_middle, crate::proofs::LineKinds::heading_is))]
fn heading(line: &str) -> Option<(usize, &str)>
    ensures none { IfNone result (is_heading line.now ≡ false) }
    ensures some { IfSome result (λ _. is_heading line.now ≡ true) }
    ensures level { IfSome result (λ found. found.0 ≡ heading_level line.now) }
    ensures low { IfSome result (λ found. found.0 ≤ 6) }
    ensures middle { IfSome result (λ found. found.1.now ≡ middle_of (heading_level line.now) line.now) }
    ensures within { IfSome result (λ found. length found.1.now ≤ length line.now) }
{
    let level = heading_level(line.as_bytes());
    if level == 0 || is_signs(line) {
        return None;
    }
    let middle = middle(line, level);
    if middle.is_empty() {
        return None;
    }
    Some((level, middle))
}

/// The number of signs that count at both ends.
fn heading_level(line: &[u8]) -> usize
    ensures value { result ≡ heading_level line.now }
    ensures small { result ≤ level_max }
{
    signs_at_prefix(line).min(signs_at_end(line)).min(LEVEL_MAX)
}

/// How many bytes at the beginning are `=`.
#[tactic(auto, using(crate::proofs::LineKinds::run_on, crate::proofs::LineKinds::run_stops, crate::proofs::LineKinds::run_ends))]
fn signs_at_prefix(line: &[u8]) -> usize
    ensures { result ≡ run_of 61 line.now }
{
    let mut count = 0;
    while count < line.len() && line[count] == b'=' {
        count += 1;
    }
    count
}

/// How many bytes at the end are `=`.
#[tactic(auto, using(crate::proofs::LineKinds::end_on, crate::proofs::LineKinds::end_stops, crate::proofs::LineKinds::end_ends))]
fn signs_at_end(line: &[u8]) -> usize
    ensures { result ≡ run_of 61 (reverse line.now) }
{
    let mut count = 0;
    while count < line.len() && line[line.len() - 1 - count] == b'=' {
        count += 1;
    }
    count
}

fn is_signs(line: &str) -> bool
    ensures { result ≡ list_all (λ c. c == 61) line.now }
{
    line.as_bytes().iter().all(|c| *c == b'=')
}

/// The middle of a line with this many signs less at each end; nothing if no byte is left.
#[tactic(auto, using(crate::proofs::LineKinds::no_middle, crate::proofs::LineKinds::some_middle))]
fn middle(line: &str, level: usize) -> &str
    requires level { level ≡ heading_level line.now }
    requires some { 0 < level }
    ensures value { result.now ≡ middle_of level line.now }
    ensures len { length result.now ≤ length line.now }
{
    if level + level >= line.len() {
        return "";
    }
    trimmed(part(line, level, line.len() - level))
}

fn trimmed(text: &str) -> &str
    ensures value { result.now ≡ trimmed text.now }
    ensures len { length result.now ≤ length text.now }
{
    skip_back(skip_prefix(text))
}

/// Without the spaces at its beginning.
fn skip_prefix(text: &str) -> &str
    ensures value { result.now ≡ skip_spaces text.now }
    ensures len { length result.now ≤ length text.now }
{
    let mut rest = text;
    while let Some(shorter) = rest.strip_prefix(' ') {
        rest = shorter;
    }
    rest
}

/// Without the spaces at the end.
fn skip_back(text: &str) -> &str
    ensures value { result.now ≡ reverse (skip_spaces (reverse text.now)) }
    ensures len { length result.now ≤ length text.now }
{
    let mut rest = text;
    while let Some(shorter) = rest.strip_suffix(' ') {
        rest = shorter;
    }
    rest
}
