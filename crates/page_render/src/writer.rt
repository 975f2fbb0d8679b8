// A page on its way: bytes as they are, links, and texts with the marks in them.
ghost use Rattle.std.specs.Prelude.{◌≡◌, ◌≤◌, ◌<◌, ◌+◌, ◌++◌, ℕ, List, [], IfOk, length, drop, take, ◌-◌, ◌^◌, true, false, nat_lt, IsTrue, option_copied};
ghost use Rattle.std.specs.List.{list_all};
ghost use Rattle.wiki_model.specs.Html.{escaped, escaped_byte};
ghost use Rattle.wiki_model.specs.Bytes.{replaced, line_feed, space};
ghost use Rattle.page_markup.specs.Mark.{IsKnown};
ghost use Rattle.page_markup.specs.ClosingPlaces.{between};
ghost use Rattle.wiki_model.specs.Limits.{brackets_max, included_max};
ghost use Rattle.page_render.specs.Draft.{Draft, IsWritten, including, put, with_text};
ghost use Rattle.page_render.specs.Link.{link_html};
ghost use Rattle.page_render.specs.Templates.{text_named};
ghost use Rattle.page_render.specs.Use.{IsUse, is_bare, place_after, with_shown};

use crate::choose_mark::{Use, choose};
use crate::escape::{write_byte, write_escaped};
use crate::included::Included;
use crate::link::write_link;
use crate::templates::Templates;
use page_markup::ClosingPlaces;
use std::alloc::{AllocError, Global};
use std::marker::Model;
use wiki_titles::{Text, Title};

/// A page on its way: what is written of it, the template pages that it may include, and how many of their bytes it
/// has. Contracts see a `Draft`.
#[derive(Drop)]
pub struct Writer<'p> {
    alloc: Global,
    html: Vec<u8>,
    templates: Templates<'p>,
    included: Included,
}

impl<'p> Model for Writer<'p> {
    ghost use Rattle.page_render.specs.Draft.{Draft};

    ghost Value = { Draft };

    ghost view = { λ writer. record {
      html = writer.html.items;
      included = writer.included;
      templates = writer.templates;
    } };
}

impl<'p> Writer<'p> {
    /// A page with room for this many bytes.
    pub fn new(
        alloc: Global,
        templates: Templates<'p>,
        room: usize,
    ) -> Result<Writer<'p>, AllocError>
        ensures { IfOk result (λ w. w ≡ record { html = []; included = 0; templates = templates.entry }) }
    {
        let html = Vec::with_capacity(alloc, room)?;
        Ok(Writer {
            alloc,
            html,
            templates,
            included: Included::nothing(),
        })
    }

    /// The page's bytes.
    pub fn into_html(self) -> Vec<u8>
        ensures { result.items ≡ self.entry.html }
    {
        self.html
    }

    /// The allocator.
    pub fn alloc(&self) -> Global {
        self.alloc
    }

    /// The text of the template page that a text between brackets names.
    pub fn find(&self, name: &str) -> Result<Option<&'p Text>, AllocError>
        requires { length name.now ≤ brackets_max }
        ensures { IfOk result (λ found. option_copied found ≡ text_named self.now.templates name.now) }
    {
        self.templates.find(self.alloc, name)
    }

    /// Whether this many bytes of templates fit beside those that are included.
    pub fn has_room(&self, bytes: usize) -> bool
        ensures fits { IsTrue result → self.now.included + bytes ≤ included_max }
        ensures full { result ≡ false → included_max < self.now.included + bytes }
    {
        self.included.has_room(bytes)
    }

    /// Counts this many bytes of templates more, which fit.
    fn include(&mut self, bytes: usize)
        requires { self.old.included + bytes ≤ included_max }
        ensures { self.new ≡ including self.old bytes }
    {
        self.included.add(bytes);
    }

    /// Writes bytes as they are.
    pub fn put(&mut self, bytes: &[u8]) -> Result<(), AllocError>
        ensures { IfOk result (λ _. self.new ≡ put self.old bytes.now) }
    {
        self.html.extend_from_slice(bytes)?;
        Ok(())
    }

    /// Writes a text in which no mark is read.
    pub fn put_escaped(&mut self, text: &[u8]) -> Result<(), AllocError>
        ensures { IfOk result (λ _. self.new ≡ put self.old (escaped text.now)) }
    {
        write_escaped(&mut self.html, text)?;
        Ok(())
    }

    fn put_byte(&mut self, byte: u8) -> Result<(), AllocError>
        ensures { IfOk result (λ _. self.new ≡ put self.old (escaped_byte byte)) }
    {
        write_byte(&mut self.html, byte)?;
        Ok(())
    }

    fn put_link(&mut self, title: &Title, inner: &[u8]) -> Result<(), AllocError>
        ensures { IfOk result (λ _. self.new ≡ put self.old (link_html title.now inner.now)) }
    {
        write_link(&mut self.html, title, inner)?;
        Ok(())
    }

    /// Writes a text in one line.
    #[cycle(texts)]
    pub fn write_line(&mut self, text: &Text, depth: u8) -> Result<(), AllocError>
        ensures { IfOk result (λ _. self.new ≡ with_text self.old depth (replaced line_feed space text.now)) }
    {
        let line = page_markup::in_one_line(self.alloc(), text.text())?;
        self.write_whole(page_markup::line_text(&line), depth)?;
        Ok(())
    }

    /// Writes a whole text.
    #[cycle(texts)]
    pub fn write_whole(&mut self, text: &str, depth: u8) -> Result<(), AllocError>
        ensures { IfOk result (λ _. self.new ≡ with_text self.old depth text.now) }
    {
        let _known = self.write_text(text, 0, text.len(), depth, ClosingPlaces::nothing())?;
        Ok(())
    }

    /// Writes the text between two places. Answers what is known of closing marks at the second.
    #[cycle(texts)]
    fn write_text(
        &mut self,
        text: &str,
        from: usize,
        to: usize,
        depth: u8,
        known: ClosingPlaces,
    ) -> Result<ClosingPlaces, AllocError>
        requires order { from ≤ to }
        requires within { to ≤ length text.now }
        requires known { IsKnown text.now from known }
        ensures known { IfOk result (λ after. IsKnown text.now to after) }
        ensures text { IfOk result (λ _. self.new ≡ with_text self.old depth (between from to text.now)) }
    {
        let mut at = from;
        let mut known = known;
        while at < to {
            let next = self.write_place(text, at, to, depth, known)?;
            at = next.at;
            known = next.known;
        }
        Ok(known)
    }

    /// Writes what stands at the place: a run of bytes, or what is used there.
    #[cycle(texts)]
    fn write_place(
        &mut self,
        text: &str,
        at: usize,
        to: usize,
        depth: u8,
        known: ClosingPlaces,
    ) -> Result<Next, AllocError>
        requires order { at < to }
        requires within { to ≤ length text.now }
        requires known { IsKnown text.now at known }
        ensures bounds { IfOk result (λ next. (at < next.at) × (next.at ≤ to)) }
        ensures known { IfOk result (λ next. IsKnown text.now next.at next.known) }
        ensures text { IfOk result (λ next. IsWritten self.old self.new depth at next.at to text.now) }
    {
        let bytes = text.as_bytes();
        let end = run_end(bytes, at, to);
        if at < end {
            self.put(part(bytes, at, end))?;
            return Ok(Next { at: end, known });
        }
        let chosen = choose(self, text, at, to, 0 < depth, known)?;
        let next = place_after(&chosen.used, at);
        let known = self.write_used(text, at, &chosen.used, depth, chosen.known)?;
        Ok(Next { at: next, known })
    }

    /// Writes what is used at the place. Answers what is known of closing marks after it.
    #[cycle(texts)]
    fn write_used(
        &mut self,
        text: &str,
        at: usize,
        used: &Use<'p>,
        depth: u8,
        known: ClosingPlaces,
    ) -> Result<ClosingPlaces, AllocError>
        requires order { at < length text.now }
        requires bounds { IsUse at (length text.now) self.old.included (nat_lt 0 depth) used.now }
        requires known { IsKnown text.now (at + 1) known }
        ensures known { IfOk result (λ after. IsKnown text.now (place_after at used.now) after) }
        ensures shown { IfOk result (λ _. self.new ≡ with_shown self.old depth at text.now used.now) }
    {
        match used {
            Use::Byte => {
                self.put_byte(text.as_bytes()[at])?;
                Ok(known)
            }
            Use::Quotes { emphasis, close } => {
                self.put(emphasis.opening())?;
                let from = at + emphasis.width();
                let after = self.write_text(text, from, *close, depth, known)?;
                self.put(emphasis.closing())?;
                Ok(after)
            }
            Use::Link { title, close } => {
                self.put_link(title, part(text.as_bytes(), at + 2, *close))?;
                Ok(known)
            }
            Use::Include { text: template, .. } => {
                self.include(template.text().len());
                self.write_line(template, depth - 1)?;
                Ok(known)
            }
        }
    }
}

/// The next place to read, and what is known of closing marks there.
#[derive(Clone, Copy, Debug)]
struct Next {
    at: usize,
    known: ClosingPlaces,
}

/// Where the run of bytes ends at which no mark begins and which need no escape.
#[tactic(auto, using(crate::proofs::Runs::bare_more, crate::proofs::Runs::bare_none))]
fn run_end(text: &[u8], from: usize, to: usize) -> usize
    requires order { from ≤ to }
    requires within { to ≤ length text.now }
    ensures order { from ≤ result }
    ensures within { result ≤ to }
    ensures bare { list_all is_bare (between from result text.now) ≡ true }
{
    let mut at = from;
    while at < to && is_bare(text[at]) {
        at += 1;
    }
    at
}

fn is_bare(byte: u8) -> bool
    ensures { result ≡ is_bare byte }
{
    !(byte == b'"'
        || byte == b'&'
        || byte == b'\''
        || byte == b'<'
        || byte == b'>'
        || byte == b'['
        || byte == b'{')
}

/// The bytes of a text between two places.
fn part(text: &[u8], from: usize, to: usize) -> &[u8]
    requires order { from ≤ to }
    requires within { to ≤ length text.now }
    ensures { result.now ≡ take (to - from) (drop from text.now) }
{
    let (_, rest) = text.split_at(from);
    let (prefix, _) = rest.split_at(to - from);
    prefix
}

/// The place after what is used at the place: after its closing mark, or one byte on.
fn place_after(used: &Use<'_>, at: usize) -> usize
    requires { place_after at used.now < 2 ^ 63 }
    ensures { result ≡ place_after at used.now }
{
    match used {
        Use::Byte => at + 1,
        Use::Quotes { emphasis, close } => *close + emphasis.width(),
        Use::Link { close, .. } => *close + 2,
        Use::Include { close, .. } => *close + 2,
    }
}
