// What a text looks like as a page, through the whole program.
use crate::setting::{drill_of, outcome_of};
use std::alloc::Global;
use std::test::Fail;

// the text of `A` as it stands in a script, and the blocks of its page; more texts are in `markup_tests`
const PAGES: [(&str, &str); 14] = [
    ("", ""),
    ("one", "<p>one</p>\n"),
    ("one\r", "<p>one</p>\n"),
    ("a\\nb\\n\\nc", "<p>a\nb</p>\n<p>c</p>\n"),
    ("a\\n\r\\n\rb", "<p>a</p>\n<p>b</p>\n"),
    ("a\\\\n\u{e9} ", "<p>a\\n\u{e9} </p>\n"),
    ("== H ==", "<h2>H</h2>\n"),
    ("* a\\n* b", "<ul>\n<li>a</li>\n<li>b</li>\n</ul>\n"),
    ("'''b''' ''i''", "<p><b>b</b> <i>i</i></p>\n"),
    ("[[c|see]]", "<p><a href=\"/wiki/C\">see</a></p>\n"),
    ("a<b & \"c\"", "<p>a&lt;b &amp; &quot;c&quot;</p>\n"),
    ("{{x}}", "<p>hi there</p>\n"),
    ("{{z}}", "<p>a {{x}} b</p>\n"),
    ("{{absent}}", "<p>{{absent}}</p>\n"),
];

// Two templates, then `A` with this text, and a view of it.
fn script_of(alloc: Global, text: &str) -> Result<String, Fail> {
    Ok(format!(in alloc;
        "\
edit 1 t1 Template:X 0 hi\\nthere
edit 1 t2 Template:Z 0 a {{{{x}}}} b
edit 1 t3 A 0 {text}
apply home 0 9
view home 2 - 0 A
end
"
    )?)
}

// The report of that script, if the page has these blocks.
fn report_of(alloc: Global, blocks: &str) -> Result<String, Fail> {
    let page = format!(in alloc; "<!DOCTYPE html>\n<title>A</title>\n<h1>A</h1>\n{blocks}")?;
    let bytes = page.len();
    Ok(format!(in alloc;
        "\
1 saved entry=1 revision=1 cookie=1@0
2 saved entry=2 revision=1 cookie=2@0
3 saved entry=3 revision=1 cookie=3@0
5 ok source=3 from=replica:0 lagged=0 bytes={bytes}
{page}end answers=4 entries=3
"
    )?)
}

#[test]
fn a_text_is_shown_as_a_page(rt: HostRuntime) -> Result<(), Fail> {
    for (text, blocks) in PAGES {
        let script = script_of(rt.alloc(), text)?;
        let found = outcome_of(&rt, rt.alloc(), drill_of(script.as_bytes()))?;
        let wanted = report_of(rt.alloc(), blocks)?;
        assert_eq!(rt; found.text.as_str(), wanted.as_str());
    }
    Ok(())
}
