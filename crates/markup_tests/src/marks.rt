// The marks in a line, and the templates that a text names.
use crate::setting::text_of;
use page_markup::Mark;
use std::alloc::Global;
use std::test::Fail;
use wiki_titles::Title;

// The titles, each before a `;`.
fn printed_titles(alloc: Global, titles: &[Title]) -> Result<String, Fail> {
    let mut line = String::new(alloc);
    for title in titles {
        line.push_str(title.text())?;
        line.push(';')?;
    }
    Ok(line)
}

// the text, the templates that it names, and those of the text in one line
const NAMES: [(&str, &str, &str); 9] = [
    ("", "", ""),
    (
        "{{y}} {{x}} {{y}}",
        "Template:X;Template:Y;",
        "Template:X;Template:Y;",
    ),
    ("[[{{x}}]]", "Template:X;", "Template:X;"),
    ("{{x|1}}", "", ""),
    ("{{a\nb}}", "", "Template:A b;"),
    ("{{{x}}}", "Template:X;", "Template:X;"),
    (
        "'''{{b}}''' {{ a_}}",
        "Template:A;Template:B;",
        "Template:A;Template:B;",
    ),
    ("{{x}", "", ""),
    (
        "{{}}{{ }}{{talk:x}}",
        "Template:Talk:x;",
        "Template:Talk:x;",
    ),
];

#[test]
fn templates_are_named_once_in_order(rt: HostRuntime) -> Result<(), Fail> {
    let alloc = rt.alloc();
    for (text, names, spaced) in NAMES {
        let text = text_of(alloc, text)?;
        let found = page_markup::template_names(alloc, &text)?;
        assert_eq!(rt; printed_titles(alloc, &found)?.as_str(), names);
        let found = page_markup::template_names_spaced(alloc, &text)?;
        assert_eq!(rt; printed_titles(alloc, &found)?.as_str(), spaced);
    }
    Ok(())
}

// The marks one to a line: place, rule, closing place, and the title if there is one.
fn printed_marks(alloc: Global, marks: &[Mark]) -> Result<String, Fail> {
    let mut lines = String::new(alloc);
    for mark in marks {
        let (place, rule, close) = (mark.place, mark.rule, mark.close);
        let title = text_or_none(&mark.title);
        let line = format!(in alloc; "{place} {rule} {close} {title}\n")?;
        lines.push_str(line.as_str())?;
    }
    Ok(lines)
}

// The title's text, or `-`.
fn text_or_none(title: &Option<Title>) -> &str {
    title.as_ref().map_or("-", |title| title.text())
}

// the text, and its marks
const MARKS: [(&str, &str); 8] = [
    ("", ""),
    ("it''s", ""),
    ("'''b'''", "0 2 4 -\n0 3 4 -\n1 3 4 -\n"),
    ("''''''", "0 3 3 -\n1 3 4 -\n"),
    ("[[c|see]]", "0 4 7 C\n"),
    ("[[a#b]]", ""),
    ("[[{{x}}]]", "2 5 5 Template:X\n"),
    ("[[a]]]] {{b}}", "0 4 3 A\n8 5 11 Template:B\n"),
];

#[test]
fn a_mark_has_its_place_and_its_rule(rt: HostRuntime) -> Result<(), Fail> {
    let alloc = rt.alloc();
    for (typed, wanted) in MARKS {
        let text = text_of(alloc, typed)?;
        let read = page_markup::read_inline(alloc, text.text())?;
        assert_eq!(rt; read.text.as_str(), typed);
        let marks = printed_marks(alloc, read.marks.as_slice())?;
        assert_eq!(rt; marks.as_str(), wanted);
    }
    Ok(())
}

#[test]
fn what_stands_in_brackets_is_a_link_or_none(rt: HostRuntime) -> Result<(), Fail> {
    let title = page_markup::link_title(rt.alloc(), "c|see")?;
    assert_eq!(rt; text_or_none(&title), "C");
    let none = page_markup::link_title(rt.alloc(), "a#b")?;
    assert_eq!(rt; text_or_none(&none), "-");
    Ok(())
}

#[test]
fn what_stands_in_braces_is_a_template_or_none(rt: HostRuntime) -> Result<(), Fail> {
    let title = page_markup::template_title(rt.alloc(), "talk:x")?;
    assert_eq!(rt; text_or_none(&title), "Template:Talk:x");
    let none = page_markup::template_title(rt.alloc(), "x|1")?;
    assert_eq!(rt; text_or_none(&none), "-");
    Ok(())
}

#[test]
fn a_text_in_one_line_has_spaces_for_line_feeds(rt: HostRuntime) -> Result<(), Fail> {
    let alloc = rt.alloc();
    assert_eq!(rt; page_markup::with_spaces(alloc, "a\nb")?.as_str(), "a b");
    let made = page_markup::in_one_line(alloc, "a\nb")?;
    assert_eq!(rt; page_markup::line_text(&made), "a b");
    let same = page_markup::in_one_line(alloc, "a b")?;
    assert_eq!(rt; page_markup::line_text(&same), "a b");
    Ok(())
}
