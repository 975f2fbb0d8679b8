// The bound on the template bytes that a page includes, which is four texts of the greatest size.
use crate::setting::{Pieces, html_by, html_with, joined, template_of};
use std::alloc::Global;
use std::test::Fail;
use wiki_titles::{Text, Title};

// Template pages of about 65,536 bytes, and one of a single byte.
fn great_templates(alloc: Global) -> Result<Vec<(Title, Text)>, Fail> {
    let big = "b".repeat(alloc, 65_536)?;
    let less = "l".repeat(alloc, 65_535)?;
    let full = joined(alloc, &[("f", 65_529), ("{{one}}", 1)])?;
    let nearly = joined(alloc, &[("n", 65_528), ("{{one}}", 1)])?;
    let mut templates = Vec::new(alloc);
    templates.push(template_of(alloc, "Template:Big", big.as_str())?)?;
    templates.push(template_of(alloc, "Template:Full", full.as_str())?)?;
    templates.push(template_of(alloc, "Template:Less", less.as_str())?)?;
    templates.push(template_of(alloc, "Template:Nearly", nearly.as_str())?)?;
    templates.push(template_of(alloc, "Template:One", "1")?)?;
    Ok(templates)
}

// the page, the markup, and the blocks
const PAGES: [(&str, u8, Pieces<'static>); 6] = [
    (
        "{{big}}{{big}}{{big}}{{big}}",
        1,
        &[("<p>", 1), ("b", 262_144), ("</p>\n", 1)],
    ),
    (
        "{{big}}{{big}}{{big}}{{big}}{{one}}",
        1,
        &[("<p>", 1), ("b", 262_144), ("{{one}}</p>\n", 1)],
    ),
    (
        "{{big}}{{big}}{{big}}{{less}}{{big}}{{one}}{{one}}",
        2,
        &[
            ("<p>", 1),
            ("b", 196_608),
            ("l", 65_535),
            ("{{big}}1{{one}}</p>\n", 1),
        ],
    ),
    (
        "{{big}}\n\n*{{big}}\n={{big}}=\n{{big}}\n\n{{one}}",
        1,
        &[
            ("<p>", 1),
            ("b", 65_536),
            ("</p>\n<ul>\n<li>", 1),
            ("b", 65_536),
            ("</li>\n</ul>\n<h1>", 1),
            ("b", 65_536),
            ("</h1>\n<p>", 1),
            ("b", 65_536),
            ("</p>\n<p>{{one}}</p>\n", 1),
        ],
    ),
    (
        "{{big}}{{big}}{{big}}{{full}}",
        2,
        &[
            ("<p>", 1),
            ("b", 196_608),
            ("f", 65_529),
            ("{{one}}</p>\n", 1),
        ],
    ),
    (
        "{{big}}{{big}}{{big}}{{nearly}}",
        2,
        &[("<p>", 1), ("b", 196_608), ("n", 65_528), ("1</p>\n", 1)],
    ),
];

#[test]
fn a_page_includes_262144_bytes(rt: HostRuntime) -> Result<(), Fail> {
    let alloc = rt.alloc();
    let templates = great_templates(alloc)?;
    for (text, markup, blocks) in PAGES {
        let blocks = joined(alloc, blocks)?;
        let wanted = html_with(alloc, "", blocks.as_str())?;
        let found = html_by(alloc, text, &templates, None, markup)?;
        assert!(rt;
            found.as_str() == wanted.as_str(),
            "{text} in markup {markup}"
        );
    }
    Ok(())
}
