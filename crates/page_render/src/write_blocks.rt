// The blocks of a text, line by line.
ghost use Rattle.std.specs.Prelude.{◌≡◌, ◌≤◌, ◌<◌, ◌++◌, ◌+◌, ◌∷◌, ℕ, List, IfOk, length, drop, codes};
ghost use Rattle.std.specs.Str.{IsCharBoundary};
ghost use Rattle.wiki_model.specs.Html.{between, heading_tag, line_end};
ghost use Rattle.page_render.specs.Blocks.{AreItemsWritten, AreWritten, IsListWritten, in_heading, in_item, with_blocks};
ghost use Rattle.page_render.specs.Draft.{reads, then_reads};

use crate::writer::Writer;
use page_markup::Line;
use std::alloc::AllocError;

/// Writes the blocks of the text.
pub fn write_blocks(writer: &mut Writer<'_>, text: &str, depth: u8) -> Result<(), AllocError>
    ensures { IfOk result (λ _. writer.new.html ≡ with_blocks writer.old depth text.now) }
{
    let mut at = 0;
    while at < text.len() {
        at = write_block(writer, text, at, depth)?;
    }
    Ok(())
}

/// Writes the block that begins at the place, if one does. Answers where the next line begins.
#[tactic(auto, using(crate::proofs::Frames::blank_goes, crate::proofs::Frames::paragraph_goes))]
fn write_block(
    writer: &mut Writer<'_>,
    text: &str,
    at: usize,
    depth: u8,
) -> Result<usize, AllocError>
    requires within { at < length text.now }
    requires cut { IsCharBoundary text.now at }
    ensures past { IfOk result (λ next. at < next) }
    ensures cut { IfOk result (λ next. next < length text.now → IsCharBoundary text.now next) }
    ensures html { IfOk result (λ next. AreWritten writer.old writer.new depth at next text.now) }
{
    let (line, end) = page_markup::line_at(text, at);
    match line {
        Line::Blank => Ok(end + 1),
        Line::Heading { level, middle } => {
            write_heading(writer, level, middle, depth)?;
            Ok(end + 1)
        }
        Line::Item { text: item } => {
            let next = write_list(writer, text, item, end, depth)?;
            Ok(next)
        }
        Line::Plain => {
            let last = page_markup::paragraph_end(text, at, end);
            let paragraph = page_markup::part(text, at, last);
            write_between(writer, b"<p>", b"</p>\n", paragraph, depth)?;
            Ok(last + 1)
        }
    }
}

fn write_heading(
    writer: &mut Writer<'_>,
    level: u8,
    middle: &str,
    depth: u8,
) -> Result<(), AllocError>
    requires { level ≤ 6 }
    ensures { let heading = in_heading level (reads writer.old depth middle.now) in
        IfOk result (λ _. writer.new ≡ then_reads writer.old heading) }
{
    let opening = heading_opening(level);
    write_between(writer, &opening, &heading_closing(level), middle, depth)?;
    Ok(())
}

/// The opening tag of a heading.
fn heading_opening(level: u8) -> [u8; 4]
    requires { level ≤ 6 }
    ensures { result ≡ heading_tag (codes "<h") level }
{
    [b'<', b'h', b'0' + level, b'>']
}

/// The closing tag of a heading, and the line's end.
fn heading_closing(level: u8) -> [u8; 6]
    requires { level ≤ 6 }
    ensures { result ≡ heading_tag (codes "</h") level ++ line_end }
{
    [b'<', b'/', b'h', b'0' + level, b'>', b'\n']
}

/// Writes the list whose first line has this item and ends at the place. Answers where the next line begins.
fn write_list(
    writer: &mut Writer<'_>,
    text: &str,
    first: &str,
    end: usize,
    depth: u8,
) -> Result<usize, AllocError>
    requires within { end ≤ length text.now }
    requires cut { end < length text.now → IsCharBoundary text.now (end + 1) }
    ensures past { IfOk result (λ next. end < next) }
    ensures cut { IfOk result (λ next. next < length text.now → IsCharBoundary text.now next) }
    ensures html { IfOk result (λ next. IsListWritten writer.old writer.new depth first.now end next text.now) }
{
    writer.put(b"<ul>\n")?;
    write_item(writer, first, depth)?;
    let next = write_items(writer, text, end, depth)?;
    writer.put(b"</ul>\n")?;
    Ok(next)
}

/// Writes the items of the list whose first line ends at the place, but for the first item. Answers where the next line
/// begins.
#[tactic(auto, using(crate::proofs::Frames::list_to_blank, crate::proofs::Frames::list_last))]
fn write_items(
    writer: &mut Writer<'_>,
    text: &str,
    end: usize,
    depth: u8,
) -> Result<usize, AllocError>
    requires within { end ≤ length text.now }
    requires cut { end < length text.now → IsCharBoundary text.now (end + 1) }
    ensures past { IfOk result (λ next. end < next) }
    ensures cut { IfOk result (λ next. next < length text.now → IsCharBoundary text.now next) }
    ensures html { IfOk result (λ next. AreItemsWritten writer.old writer.new depth end next text.now) }
{
    let mut end = end;
    while end < text.len() {
        let (line, next) = page_markup::line_at(text, end + 1);
        match line {
            Line::Item { text: item } => {
                write_item(writer, item, depth)?;
                end = next;
            }
            Line::Blank => return Ok(end + 1),
            Line::Heading { .. } => return Ok(end + 1),
            Line::Plain => return Ok(end + 1),
        }
    }
    Ok(end + 1)
}

fn write_item(writer: &mut Writer<'_>, item: &str, depth: u8) -> Result<(), AllocError>
    ensures { IfOk result (λ _. writer.new ≡ then_reads writer.old (in_item (reads writer.old depth item.now))) }
{
    write_between(writer, b"<li>", b"</li>\n", item, depth)?;
    Ok(())
}

/// Writes a text that is read inline, between two tags.
#[tactic(auto, using(crate::proofs::Labels::draft_joined))]
fn write_between(
    writer: &mut Writer<'_>,
    opening: &[u8],
    closing: &[u8],
    text: &str,
    depth: u8,
) -> Result<(), AllocError>
    ensures { let whole = between opening.now closing.now (reads writer.old depth text.now) in
        IfOk result (λ _. writer.new ≡ then_reads writer.old whole) }
{
    writer.put(opening)?;
    writer.write_whole(text, depth)?;
    writer.put(closing)?;
    Ok(())
}
