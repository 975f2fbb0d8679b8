// Titles, texts, and the rendering of a page, for all tests of this crate.
use std::alloc::Global;
use std::test::Fail;
use wiki_titles::{Text, Title};

/// The title that is typed so.
pub fn title_of(alloc: Global, typed: &str) -> Result<Title, Fail> {
    Ok(Title::parse(alloc, typed)?)
}

/// The text that is typed so.
pub fn text_of(alloc: Global, typed: &str) -> Result<Text, Fail> {
    Ok(Text::parse(alloc, typed)?)
}

/// A page of the title `A`.
#[derive(Clone, Copy)]
pub struct Case<'a> {
    pub text: &'a str,
    pub templates: &'a [(&'a str, &'a str)],
    pub notice: Option<&'a str>,
    pub markup: u8,
}

/// The HTML that its rendering has.
pub fn html_of(alloc: Global, case: &Case<'_>) -> Result<String, Fail> {
    let templates = templates_of(alloc, case.templates)?;
    let notice = notice_of(alloc, case.notice)?;
    html_by(alloc, case.text, &templates, notice.as_ref(), case.markup)
}

/// The HTML of a page of the title `A`, by these template pages and this notice.
pub fn html_by(
    alloc: Global,
    text: &str,
    templates: &[(Title, Text)],
    notice: Option<&Text>,
    markup: u8,
) -> Result<String, Fail> {
    let title = title_of(alloc, "A")?;
    let text = text_of(alloc, text)?;
    let page = page_render::render(alloc, &title, &text, templates, notice, markup)?;
    Ok(String::from_str(alloc, std::str::from_utf8(page.bytes())?)?)
}

/// A template page: its title and its text.
pub fn template_of(alloc: Global, title: &str, text: &str) -> Result<(Title, Text), Fail> {
    Ok((title_of(alloc, title)?, text_of(alloc, text)?))
}

fn templates_of(alloc: Global, pages: &[(&str, &str)]) -> Result<Vec<(Title, Text)>, Fail> {
    let mut templates = Vec::new(alloc);
    for (title, text) in pages {
        templates.push(template_of(alloc, title, text)?)?;
    }
    Ok(templates)
}

fn notice_of(alloc: Global, text: Option<&str>) -> Result<Option<Text>, Fail> {
    match text {
        Some(text) => Ok(Some(text_of(alloc, text)?)),
        None => Ok(None),
    }
}

/// The HTML that has these blocks, and this line of a notice.
pub fn html_with(alloc: Global, notice: &str, blocks: &str) -> Result<String, Fail> {
    Ok(format!(in alloc; "<!DOCTYPE html>\n<title>A</title>\n{notice}<h1>A</h1>\n{blocks}")?)
}

/// Pieces one after another, each as often as is told.
pub type Pieces<'a> = &'a [(&'a str, usize)];

/// The text of these pieces.
pub fn joined(alloc: Global, pieces: Pieces<'_>) -> Result<String, Fail> {
    let mut made = String::new(alloc);
    for (piece, count) in pieces {
        let many = piece.repeat(alloc, *count)?;
        made.push_str(many.as_str())?;
    }
    Ok(made)
}
