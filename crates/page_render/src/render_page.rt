// The HTML of a page.
ghost use Rattle.std.specs.Prelude.{◌≡◌, ◌++◌, ℕ, List, [], IfOk, length, codes, option_copied};
ghost use Rattle.wiki_model.specs.Html.{depth_of, element, escaped};
ghost use Rattle.page_render.specs.AsModel.{page_from};
ghost use Rattle.page_render.specs.Blocks.{page_after, with_notice};
ghost use Rattle.page_render.specs.Draft.{put};
ghost use Rattle.page_render.specs.Templates.{IsRising};

use crate::sort_pages::sorted;
use crate::templates::{Templates, are_rising};
use crate::write_blocks::write_blocks;
use crate::writer::Writer;
use farm_base::Memory;
use std::alloc::{AllocError, Global};
use std::marker::Model;
use wiki_titles::{Text, Title};

/// How deep templates nest in markup 2; in markup 1 they do not.
pub const NESTING_MAX: u8 = 4;

/// The HTML of a page. Contracts see its bytes.
#[derive(Debug, Drop)]
pub struct Page {
    html: Vec<u8>,
}

impl Model for Page {
    ghost use Rattle.std.specs.Prelude.{ℕ, List};

    ghost Value = { List ℕ };

    ghost view = { λ page. page.html.items };
}

impl Page {
    /// The page's bytes.
    pub fn bytes(&self) -> &[u8]
        ensures { result.now ≡ self.now }
    {
        self.html.as_slice()
    }
}

/// The page of a title, with this text, these template pages and this notice, in markup 1 or 2. Of template pages with
/// one title the first counts.
///
/// Its time grows with the bytes of the text and of the templates that it includes, and with the number of template
/// pages: by one look at each if their titles rise, and else as much as a sort of the titles takes. No tree and no list
/// of marks is made, so besides the page itself it takes no memory that grows with the text.
pub fn render(
    alloc: Global,
    title: &Title,
    page: &Text,
    templates: &[(Title, Text)],
    notice: Option<&Text>,
    markup: u8,
) -> Result<Page, Memory>
    ensures { IfOk result (λ p. p ≡ page_from markup title.now page.now templates.now (option_copied notice.entry)) }
{
    if are_rising(templates) {
        let made = page_in_order(alloc, title, page, templates, notice, markup)?;
        return Ok(made);
    }
    let rising = sorted(alloc, templates)?;
    let made = page_in_order(alloc, title, page, &rising, notice, markup)?;
    Ok(made)
}

/// The same of template pages that rise.
fn page_in_order(
    alloc: Global,
    title: &Title,
    page: &Text,
    templates: &[(Title, Text)],
    notice: Option<&Text>,
    markup: u8,
) -> Result<Page, AllocError>
    requires { IsRising templates.now }
    ensures { IfOk result (λ p. p ≡ page_from markup title.now page.now templates.now (option_copied notice.entry)) }
{
    let mut writer = Writer::new(alloc, Templates::new(templates), page.text().len())?;
    write_page(&mut writer, title, page, notice, markup)?;
    Ok(Page {
        html: writer.into_html(),
    })
}

fn write_page(
    writer: &mut Writer<'_>,
    title: &Title,
    page: &Text,
    notice: Option<&Text>,
    markup: u8,
) -> Result<(), AllocError>
    requires { writer.old.included ≡ 0 }
    ensures { let whole = page_after writer.old markup title.now page.now (option_copied notice.entry) in
        IfOk result (λ _. writer.new.html ≡ whole) }
{
    writer.put(b"<!DOCTYPE html>\n")?;
    write_title(writer, b"<title>", b"</title>\n", title)?;
    write_notice(writer, notice)?;
    write_title(writer, b"<h1>", b"</h1>\n", title)?;
    write_blocks(writer, page.text(), depth_of(markup))?;
    Ok(())
}

/// Writes the page's title between two tags.
#[tactic(auto, using(crate::proofs::Labels::put_joined))]
fn write_title(
    writer: &mut Writer<'_>,
    opening: &[u8],
    closing: &[u8],
    title: &Title,
) -> Result<(), AllocError>
    ensures { IfOk result (λ _. writer.new ≡ put writer.old (element opening.now closing.now (escaped title.now))) }
{
    writer.put(opening)?;
    writer.put_escaped(title.text().as_bytes())?;
    writer.put(closing)?;
    Ok(())
}

/// Writes the site notice. No template is read in it, so it includes none.
#[tactic(auto, using(crate::proofs::Labels::draft_joined))]
fn write_notice(writer: &mut Writer<'_>, text: Option<&Text>) -> Result<(), AllocError>
    requires { writer.old.included ≡ 0 }
    ensures { IfOk result (λ _. writer.new ≡ with_notice writer.old (option_copied text.entry)) }
{
    match text {
        None => Ok(()),
        Some(text) => {
            writer.put(b"<div>")?;
            writer.write_line(text, 0)?;
            writer.put(b"</div>\n")?;
            Ok(())
        }
    }
}

/// How deep templates nest in a markup.
fn depth_of(markup: u8) -> u8
    ensures { result ≡ depth_of markup }
{
    if markup == 1 { 1 } else { NESTING_MAX }
}
