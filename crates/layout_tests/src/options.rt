// Which words are options of a served farm, and what they say.
use std::alloc::Global;
use std::test::Fail;
use wiki_layout::{Options, read_options, served_options};

// the words, a space between two, and their options
const OPTIONS: [(&str, &str); 8] = [
    ("", "connections 1, store None"),
    ("--connections 7", "connections 7, store None"),
    ("--connections=1000000", "connections 1000000, store None"),
    ("--store wiki.db", "connections 1, store Some(\"wiki.db\")"),
    ("--store=a=b", "connections 1, store Some(\"a=b\")"),
    (
        "--store wiki.db --connections 2",
        "connections 2, store Some(\"wiki.db\")",
    ),
    (
        "--connections=2 --store=wiki.db",
        "connections 2, store Some(\"wiki.db\")",
    ),
    (
        "--store=7 --connections 7",
        "connections 7, store Some(\"7\")",
    ),
];

#[test]
fn options_stand_in_any_order(rt: HostRuntime) -> Result<(), Fail> {
    for (text, wanted) in OPTIONS {
        let words = words_of(rt.alloc(), text)?;
        let by_hand = option_text(rt.alloc(), read_options(&words))?;
        assert_eq!(rt; by_hand.as_str(), wanted);
        let by_clap = option_text(rt.alloc(), served_options(rt.alloc(), &words)?)?;
        assert_eq!(rt; by_clap.as_str(), wanted);
    }
    Ok(())
}

// words that are no options, a space between two
const NO_OPTIONS: [&str; 21] = [
    "--connections",
    "--connections 0",
    "--connections 01",
    "--connections=1000001",
    "--connections 18446744073709551617",
    "--connections -1",
    "--connections +1",
    "--connections=",
    "--connections 1 --connections 1",
    "--connections=1 --connections 2",
    "--connection 1",
    "--store",
    "--store=",
    "--store ",
    "--store -x",
    "--store=-x",
    "--store a --store=a",
    "--help",
    "--",
    "wiki.db",
    "--link=1",
];

#[test]
fn other_words_are_no_options(rt: HostRuntime) -> Result<(), Fail> {
    for text in NO_OPTIONS {
        let words = words_of(rt.alloc(), text)?;
        let by_hand = option_text(rt.alloc(), read_options(&words))?;
        assert_eq!(rt; by_hand.as_str(), "none");
        let by_clap = option_text(rt.alloc(), served_options(rt.alloc(), &words)?)?;
        assert_eq!(rt; by_clap.as_str(), "none");
    }
    Ok(())
}

#[test]
fn a_link_is_read_by_hand_alone(rt: HostRuntime) -> Result<(), Fail> {
    let words = words_of(rt.alloc(), "--link --connections 3")?;
    let by_hand = option_text(rt.alloc(), read_options(&words))?;
    assert_eq!(rt; by_hand.as_str(), "connections 3, store None, link");
    let by_clap = option_text(rt.alloc(), served_options(rt.alloc(), &words)?)?;
    assert_eq!(rt; by_clap.as_str(), "none");
    Ok(())
}

fn words_of(alloc: Global, text: &str) -> Result<Vec<String>, Fail> {
    let mut words = Vec::new(alloc);
    if text.is_empty() {
        return Ok(words);
    }
    for word in text.split(' ') {
        words.push(String::from_str(alloc, word)?)?;
    }
    Ok(words)
}

fn option_text(alloc: Global, options: Option<Options<'_>>) -> Result<String, Fail> {
    match options {
        Some(options) => said(alloc, options),
        None => Ok(String::from_str(alloc, "none")?),
    }
}

fn said(alloc: Global, options: Options<'_>) -> Result<String, Fail> {
    let (connections, store) = (options.connections, options.store);
    let link = if options.link { ", link" } else { "" };
    Ok(format!(in alloc; "connections {connections}, store {store:?}{link}")?)
}
