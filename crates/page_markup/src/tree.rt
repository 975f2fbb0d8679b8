// The blocks of a text.
ghost use Rattle.std.specs.Prelude.{◌≡◌, ◌≤◌, ◌<◌, ◌+◌, ◌-◌, ◌++◌, ◌∷◌, [], ℕ, List, IfOk, length, drop, take, get_or};
ghost use Rattle.std.specs.Str.{IsCharBoundary};
ghost use Rattle.wiki_model.specs.Bytes.{line_feed};
ghost use Rattle.wiki_model.specs.Limits.{text_max};
ghost use Rattle.page_markup.specs.Runs.{AreItemsRead, IsParagraphEnd};
ghost use Rattle.page_markup.specs.Tree.{inline_of, tree_from, tree_of};

use crate::inline::{self, Inline};
use crate::line::{self, Line};
use crate::one_line::part;
use farm_base::Listed;
use std::alloc::{AllocError, Global};

/// The blocks of a text, in order.
#[derive(Debug, Drop)]
pub struct Tree {
    /// At least one part each.
    pub blocks: Listed<Block>,
}

/// A block: a heading and a paragraph have one part, and a list has one for each item.
#[derive(Debug, Drop)]
pub struct Block {
    /// What it is.
    pub kind: BlockKind,
    /// Its texts.
    pub parts: Listed<Inline>,
}

/// What a block is; a heading has its level, from 1 to 6.
#[derive(Clone, Copy, Debug, PartialEq, Eq)]
pub enum BlockKind {
    /// A heading, with its level.
    Heading(u8),
    /// Lines that begin with `*`.
    List,
    /// Other lines up to a blank one.
    Paragraph,
}

/// The tree of the text.
pub fn read_tree(alloc: Global, text: &str) -> Result<Tree, AllocError>
    requires { length text.now ≤ text_max }
    ensures { IfOk result (λ tree. tree ≡ tree_of text.now) }
{
    let mut blocks = Vec::new(alloc);
    let mut at = 0;
    while at < text.len() {
        at = push_block(alloc, &mut blocks, text, at)?;
    }
    Ok(Tree {
        blocks: Listed::new(blocks),
    })
}

/// Adds the block that begins at the place, if one does. Answers where the line after it begins.
#[tactic(auto, using(crate::proofs::Trees::blank_goes, crate::proofs::Trees::heading_goes, crate::proofs::Trees::list_goes, crate::proofs::Trees::paragraph_goes))]
fn push_block(
    alloc: Global,
    blocks: &mut Vec<Block>,
    text: &str,
    at: usize,
) -> Result<usize, AllocError>
    requires within { at < length text.now }
    requires small { length text.now ≤ text_max }
    requires cut { IsCharBoundary text.now at }
    ensures past { IfOk result (λ next. at < next) }
    ensures cut { IfOk result (λ next. next < length text.now → IsCharBoundary text.now next) }
    ensures blocks { let whole = blocks.old.items ++ tree_from (drop at text.now) in
        IfOk result (λ next. blocks.new.items ++ tree_from (drop next text.now) ≡ whole) }
{
    let (line, end) = line::line_at(text, at);
    match line {
        Line::Blank => Ok(end + 1),
        Line::Heading { level, middle } => {
            blocks.push(whole_block(alloc, BlockKind::Heading(level), middle)?)?;
            Ok(end + 1)
        }
        Line::Item { text: item } => {
            let mut items = Vec::new(alloc);
            push_item(alloc, &mut items, item)?;
            let last = read_items(alloc, &mut items, text, end)?;
            blocks.push(Block {
                kind: BlockKind::List,
                parts: Listed::new(items),
            })?;
            Ok(last + 1)
        }
        Line::Plain => {
            let last = paragraph_end(text, at, end);
            blocks.push(whole_block(alloc, BlockKind::Paragraph, part(text, at, last))?)?;
            Ok(last + 1)
        }
    }
}

/// A block of one part.
fn whole_block(alloc: Global, kind: BlockKind, text: &str) -> Result<Block, AllocError>
    requires { length text.now ≤ text_max }
    ensures { IfOk result (λ block. block ≡ record { kind = kind; parts = inline_of text.now ∷ [] }) }
{
    let mut parts = Vec::new(alloc);
    parts.push(inline::read(alloc, text)?)?;
    Ok(Block {
        kind,
        parts: Listed::new(parts),
    })
}

/// Adds the next item of a list.
fn push_item(alloc: Global, items: &mut Vec<Inline>, text: &str) -> Result<(), AllocError>
    requires { length text.now ≤ text_max }
    ensures { IfOk result (λ _. items.new.items ≡ items.old.items ++ (inline_of text.now ∷ [])) }
{
    items.push(inline::read(alloc, text)?)?;
    Ok(())
}

/// Adds the items of the list whose first line ends at the place. Answers where its last line ends.
#[tactic(auto, using(crate::proofs::Trees::item_more, crate::proofs::Trees::items_last, crate::proofs::Trees::items_to_blank, crate::proofs::Trees::items_to_heading, crate::proofs::Trees::items_to_plain))]
fn read_items(
    alloc: Global,
    items: &mut Vec<Inline>,
    text: &str,
    end: usize,
) -> Result<usize, AllocError>
    requires small { length text.now ≤ text_max }
    requires within { end ≤ length text.now }
    requires next { end < length text.now → IsCharBoundary text.now (end + 1) }
    ensures order { IfOk result (λ last. end ≤ last) }
    ensures within { IfOk result (λ last. last ≤ length text.now) }
    ensures next { IfOk result (λ last. last < length text.now → IsCharBoundary text.now (last + 1)) }
    ensures items { IfOk result (λ last. AreItemsRead items.old.items items.new.items end last text.now) }
{
    let mut end = end;
    while end < text.len() {
        let (line, next) = line::line_at(text, end + 1);
        match line {
            Line::Item { text: item } => {
                push_item(alloc, items, item)?;
                end = next;
            }
            Line::Blank => return Ok(end),
            Line::Heading { .. } => return Ok(end),
            Line::Plain => return Ok(end),
        }
    }
    Ok(end)
}

/// Where the last line ends of the paragraph whose first line is this one.
#[tactic(auto, using(crate::proofs::Trees::line_joined, crate::proofs::Trees::paragraph_last, crate::proofs::Trees::paragraph_to_blank, crate::proofs::Trees::paragraph_to_heading, crate::proofs::Trees::paragraph_to_item))]
pub fn paragraph_end(text: &str, from: usize, end: usize) -> usize
    requires order { from ≤ end }
    requires within { end ≤ length text.now }
    requires feed { end < length text.now → get_or text.now end 0 ≡ line_feed }
    requires cut { IsCharBoundary text.now end }
    requires next { end < length text.now → IsCharBoundary text.now (end + 1) }
    ensures order { end ≤ result }
    ensures within { result ≤ length text.now }
    ensures cut { IsCharBoundary text.now result }
    ensures next { result < length text.now → IsCharBoundary text.now (result + 1) }
    ensures lines { IsParagraphEnd from end result text.now }
{
    let mut end = end;
    while end < text.len() {
        let (line, next) = line::line_at(text, end + 1);
        match line {
            Line::Plain => end = next,
            Line::Blank => return end,
            Line::Heading { .. } => return end,
            Line::Item { .. } => return end,
        }
    }
    end
}
