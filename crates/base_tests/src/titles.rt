// What is typed for a title, the title's class, and its path.
use std::alloc::Global;
use std::test::Fail;
use wiki_titles::{Title, is_bad};

// what is typed, and the title's text and class
const TITLES: [(&str, &str); 8] = [
    ("  foo__bar_", "Foo bar, Plain"),
    ("template:_x", "Template:X, Template"),
    ("MediaWiki:notice", "MediaWiki:Notice, Message"),
    ("Café menu", "Café menu, Plain"),
    ("élan", "élan, Plain"),
    ("Template :x", "Template :x, Plain"),
    ("TEMPLATE:x", "TEMPLATE:x, Plain"),
    ("Template:template:x", "Template:Template:x, Template"),
];

fn text_and_class(alloc: Global, typed: &str) -> Result<String, Fail> {
    let title = Title::parse(alloc, typed)?;
    let (text, class) = (title.text(), title.class());
    Ok(format!(in alloc; "{text}, {class:?}")?)
}

#[test]
fn a_text_names_its_title(rt: HostRuntime) -> Result<(), Fail> {
    for (typed, wanted) in TITLES {
        let found = text_and_class(rt.alloc(), typed)?;
        assert_eq!(rt; found.as_str(), wanted);
    }
    Ok(())
}

// what is typed, and the path
const PATHS: [(&str, &str); 6] = [
    ("foo bar", "Foo_bar"),
    ("Template:x", "Template:X"),
    ("Café menu", "Caf%C3%A9_menu"),
    ("élan", "%C3%A9lan"),
    ("a-b.c_d~e/f:g", "A-b.c_d~e/f:g"),
    ("50% \"off\" & more", "50%25_%22off%22_%26_more"),
];

fn path_of(alloc: Global, typed: &str) -> Result<String, Fail> {
    Ok(Title::parse(alloc, typed)?.url(alloc)?)
}

#[test]
fn a_path_escapes_each_byte_that_no_path_has(rt: HostRuntime) -> Result<(), Fail> {
    for (typed, wanted) in PATHS {
        let path = path_of(rt.alloc(), typed)?;
        assert_eq!(rt; path.as_str(), wanted);
    }
    Ok(())
}

#[test]
fn a_path_is_written_after_what_stands_there(rt: HostRuntime) -> Result<(), Fail> {
    let mut link = String::from_str(rt.alloc(), "/wiki/")?;
    Title::parse(rt.alloc(), "foo bar")?.push_url(&mut link)?;
    assert_eq!(rt; link.as_str(), "/wiki/Foo_bar");
    Ok(())
}

// what is typed, and why it names no title
const REFUSED: [(&str, &str); 14] = [
    ("", "the title is empty"),
    ("_", "the title is empty"),
    (" _ _ ", "the title is empty"),
    ("Template:", "the title is empty"),
    ("template:__", "the title is empty"),
    ("MediaWiki: ", "the title is empty"),
    ("a#b", "byte 1 stands in no title"),
    ("__a#b", "byte 3 stands in no title"),
    ("é|", "byte 2 stands in no title"),
    ("a\nb", "byte 1 stands in no title"),
    ("ab\u{7f}", "byte 2 stands in no title"),
    ("#", "byte 0 stands in no title"),
    ("mediaWiki: \tx", "byte 11 stands in no title"),
    ("x {{y}} <z>", "byte 2 stands in no title"),
];

// Why the text names no title, or the title's text.
fn refusal(alloc: Global, typed: &str) -> Result<String, Fail> {
    match Title::parse(alloc, typed) {
        Ok(title) => Ok(format!(in alloc; "the title {}", title.text())?),
        Err(fault) => Ok(format!(in alloc; "{fault}")?),
    }
}

#[test]
fn a_text_that_names_no_title_is_refused(rt: HostRuntime) -> Result<(), Fail> {
    for (typed, wanted) in REFUSED {
        let found = refusal(rt.alloc(), typed)?;
        assert_eq!(rt; found.as_str(), wanted);
    }
    Ok(())
}

#[test]
fn a_title_has_at_most_255_bytes(rt: HostRuntime) -> Result<(), Fail> {
    let alloc = rt.alloc();
    let most = "a".repeat(alloc, 255)?;
    assert_eq!(rt; Title::parse(alloc, most.as_str())?.text().len(), 255);
    let over = "a".repeat(alloc, 256)?;
    assert_eq!(rt;
        refusal(alloc, over.as_str())?.as_str(),
        "the title has over 255 bytes"
    );
    Ok(())
}

#[test]
fn the_length_of_a_title_is_tested_before_its_bytes(rt: HostRuntime) -> Result<(), Fail> {
    let bad = "#".repeat(rt.alloc(), 256)?;
    assert_eq!(rt;
        refusal(rt.alloc(), bad.as_str())?.as_str(),
        "the title has over 255 bytes"
    );
    Ok(())
}

#[test]
fn spaces_around_a_title_do_not_count(rt: HostRuntime) -> Result<(), Fail> {
    let mut spaced = "_".repeat(rt.alloc(), 300)?;
    spaced.push('a')?;
    let found = refusal(rt.alloc(), spaced.as_str())?;
    assert_eq!(rt; found.as_str(), "the title A");
    Ok(())
}

#[test]
fn titles_are_ordered_by_their_bytes(rt: HostRuntime) -> Result<(), Fail> {
    let first = Title::parse(rt.alloc(), "apple")?;
    let again = Title::parse(rt.alloc(), "_Apple")?;
    let later = Title::parse(rt.alloc(), "apples")?;
    assert!(rt; first == again && first < later);
    assert!(rt; again.clone()? == first);
    Ok(())
}

#[test]
fn a_byte_stands_in_a_title_or_not(rt: HostRuntime) {
    let count = (0..=255u8).filter(|byte| is_bad(*byte)).count();
    assert_eq!(rt; count, 41);
    assert!(rt; b"#<>[]|{}\x00\x1f\x7f".iter().all(|byte| is_bad(*byte)));
    let good = b" _!\"%&'/:;=?@\\^`~\x80\xff";
    assert!(rt; !good.iter().any(|byte| is_bad(*byte)));
}
