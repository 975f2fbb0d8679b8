// Line ends and lengths of texts.
use std::alloc::Global;
use std::test::Fail;
use wiki_titles::Text;

// what is typed, and the text
const TEXTS: [(&str, &str); 8] = [
    ("", ""),
    ("a\r\nb", "a\nb"),
    ("a\rb", "a\nb"),
    ("a\n\rb", "a\n\nb"),
    ("\r\r\n\n\r", "\n\n\n\n"),
    ("\r\r", "\n\n"),
    ("é\r\né\r", "é\né\n"),
    ("plain\n", "plain\n"),
];

#[test]
fn lines_end_with_line_feeds(rt: HostRuntime) -> Result<(), Fail> {
    for (typed, wanted) in TEXTS {
        let text = Text::parse(rt.alloc(), typed)?;
        assert_eq!(rt; text.text(), wanted);
    }
    Ok(())
}

#[test]
fn a_copy_of_a_text_is_its_equal(rt: HostRuntime) -> Result<(), Fail> {
    let text = Text::parse(rt.alloc(), "one")?;
    assert!(rt; text.clone()? == text);
    Ok(())
}

// What is told of a text of this many `a` and the end: its length, or why it is refused.
fn told(alloc: Global, count: usize, end: &str) -> Result<String, Fail> {
    let mut typed = "a".repeat(alloc, count)?;
    typed.push_str(end)?;
    match Text::parse(alloc, typed.as_str()) {
        Ok(text) => Ok(format!(in alloc; "{} bytes", text.text().len())?),
        Err(fault) => Ok(format!(in alloc; "{fault}")?),
    }
}

// how many `a`, the end, and what is told
const LENGTHS: [(usize, &str, &str); 4] = [
    (65_536, "", "65536 bytes"),
    (65_537, "", "the text has 65537 bytes, over 65536"),
    (65_534, "\r\n\r\n", "65536 bytes"),
    (
        65_534,
        "\r\n\r\n\r\n",
        "the text has 65537 bytes, over 65536",
    ),
];

#[test]
fn a_text_has_at_most_65536_bytes(rt: HostRuntime) -> Result<(), Fail> {
    for (count, end, wanted) in LENGTHS {
        let found = told(rt.alloc(), count, end)?;
        assert_eq!(rt; found.as_str(), wanted);
    }
    Ok(())
}
