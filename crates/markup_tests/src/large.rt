// Pages of 65,536 bytes, plain ones and ones made to be slow.
use crate::setting::{Case, Pieces, html_of, html_with, joined};
use std::alloc::Global;
use std::test::Fail;

const HI: [(&str, &str); 1] = [("Template:X", "hi\nthere")];

fn is_shown(alloc: Global, text: &str, blocks: &str, markup: u8) -> Result<bool, Fail> {
    let case = Case {
        text,
        templates: &HI,
        notice: None,
        markup,
    };
    let wanted = html_with(alloc, "", blocks)?;
    Ok(html_of(alloc, &case)?.as_str() == wanted.as_str())
}

// the text, and the blocks
const PAGES: [(Pieces<'static>, Pieces<'static>); 12] = [
    (
        &[("word ", 13_107), ("a", 1)],
        &[("<p>", 1), ("word ", 13_107), ("a</p>\n", 1)],
    ),
    (
        &[("'", 65_536)],
        &[
            ("<p>", 1),
            ("<b><i>'</i></b>", 5_957),
            ("<b>'</b>''</p>\n", 1),
        ],
    ),
    (
        &[("[[", 32_768)],
        &[("<p>", 1), ("[[", 32_768), ("</p>\n", 1)],
    ),
    (
        &[("{{", 32_768)],
        &[("<p>", 1), ("{{", 32_768), ("</p>\n", 1)],
    ),
    (
        &[("=", 65_536)],
        &[("<p>", 1), ("=", 65_536), ("</p>\n", 1)],
    ),
    (
        &[("'''''a[[b{{c", 5_461), ("''''", 1)],
        &[
            ("<p>", 1),
            ("<b><i>a[[b{{c</i></b>a[[b{{c", 2_730),
            ("<b>''a[[b{{c</b>'</p>\n", 1),
        ],
    ),
    (
        &[("*", 65_536)],
        &[("<ul>\n<li>", 1), ("*", 65_535), ("</li>\n</ul>\n", 1)],
    ),
    (
        &[("*\n", 32_768)],
        &[("<ul>\n", 1), ("<li></li>\n", 32_768), ("</ul>\n", 1)],
    ),
    (
        &[("<", 65_536)],
        &[("<p>", 1), ("&lt;", 65_536), ("</p>\n", 1)],
    ),
    (&[("\n", 65_536)], &[]),
    (
        &[("[[x]]", 13_107), ("a", 1)],
        &[
            ("<p>", 1),
            ("<a href=\"/wiki/X\">x</a>", 13_107),
            ("a</p>\n", 1),
        ],
    ),
    (
        &[("{{x}}", 13_107), ("a", 1)],
        &[("<p>", 1), ("hi there", 13_107), ("a</p>\n", 1)],
    ),
];

#[test]
fn a_page_of_the_greatest_size_is_shown(rt: HostRuntime) -> Result<(), Fail> {
    let alloc = rt.alloc();
    for (pieces, blocks) in PAGES {
        let text = joined(alloc, pieces)?;
        let blocks = joined(alloc, blocks)?;
        assert_eq!(rt; text.len(), 65_536);
        for markup in [1, 2] {
            let shown = is_shown(alloc, text.as_str(), blocks.as_str(), markup)?;
            assert!(rt; shown, "{pieces:?} in markup {markup}");
        }
    }
    Ok(())
}

#[test]
fn brackets_that_open_often_stay_text(rt: HostRuntime) -> Result<(), Fail> {
    let alloc = rt.alloc();
    let piece = joined(alloc, &[("[[", 250), ("]]", 1)])?;
    let text = joined(alloc, &[(piece.as_str(), 130), ("[[", 138)])?;
    let blocks = joined(alloc, &[("<p>", 1), (text.as_str(), 1), ("</p>\n", 1)])?;
    assert_eq!(rt; text.len(), 65_536);
    for markup in [1, 2] {
        assert!(rt; is_shown(alloc, text.as_str(), blocks.as_str(), markup)?);
    }
    Ok(())
}
