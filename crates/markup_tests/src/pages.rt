// Worked pages, byte for byte.
use crate::setting::{Case, html_of, html_with};
use std::test::Fail;

const HI: [(&str, &str); 1] = [("Template:X", "hi\nthere")];

// the text, and the blocks
const IN_BOTH: [(&str, &str); 24] = [
    ("", ""),
    ("one", "<p>one</p>\n"),
    ("a\nb\n\nc", "<p>a\nb</p>\n<p>c</p>\n"),
    ("== H ==", "<h2>H</h2>\n"),
    ("=x", "<p>=x</p>\n"),
    ("====", "<p>====</p>\n"),
    ("* a\n* b", "<ul>\n<li>a</li>\n<li>b</li>\n</ul>\n"),
    ("'''b''' ''i''", "<p><b>b</b> <i>i</i></p>\n"),
    ("'''''x'''''", "<p><b><i>x</i></b></p>\n"),
    ("it''s", "<p>it''s</p>\n"),
    ("[[c|see]]", "<p><a href=\"/wiki/C\">see</a></p>\n"),
    ("[[a#b]]", "<p>[[a#b]]</p>\n"),
    ("a<b & \"c\"", "<p>a&lt;b &amp; &quot;c&quot;</p>\n"),
    ("{{x}}", "<p>hi there</p>\n"),
    ("{{absent}}", "<p>{{absent}}</p>\n"),
    ("{{x|1}}", "<p>{{x|1}}</p>\n"),
    ("====== six ======", "<h6>six</h6>\n"),
    ("======= seven =======", "<h6>= seven =</h6>\n"),
    ("== one =", "<h1>= one</h1>\n"),
    ("=  =", "<p>=  =</p>\n"),
    ("''''' ", "<p><i>'</i> </p>\n"),
    ("''a'''b''", "<p><i>a</i>'b''</p>\n"),
    (
        "[[a]] [[A|]] [[|b]]",
        "<p><a href=\"/wiki/A\">a</a> <a href=\"/wiki/A\">A</a> [[|b]]</p>\n",
    ),
    (
        "a\n*b\n= c =\nd",
        "<p>a</p>\n<ul>\n<li>b</li>\n</ul>\n<h1>c</h1>\n<p>d</p>\n",
    ),
];

#[test]
fn both_markups_agree_without_nesting(rt: HostRuntime) -> Result<(), Fail> {
    let alloc = rt.alloc();
    for (text, blocks) in IN_BOTH {
        let wanted = html_with(alloc, "", blocks)?;
        for markup in [1, 2] {
            let case = Case {
                text,
                templates: &HI,
                notice: None,
                markup,
            };
            assert_eq!(rt; html_of(alloc, &case)?.as_str(), wanted.as_str());
        }
    }
    Ok(())
}

const CHAIN: [(&str, &str); 8] = [
    ("Template:X", "a {{y}} b"),
    ("Template:Y", "yes"),
    ("Template:One", "1{{two}}"),
    ("Template:Two", "2{{three}}"),
    ("Template:Three", "3\n{{four}}"),
    ("Template:Four", "4{{five}}"),
    ("Template:Five", "5"),
    ("Template:Itself", "<{{itself}}>"),
];

// the text, the markup, and the blocks
const NESTED: [(&str, u8, &str); 7] = [
    ("{{x}}", 1, "<p>a {{y}} b</p>\n"),
    ("{{x}}", 2, "<p>a yes b</p>\n"),
    ("{{one}}", 1, "<p>1{{two}}</p>\n"),
    ("{{one}}", 2, "<p>123 4{{five}}</p>\n"),
    ("{{itself}}", 1, "<p>&lt;{{itself}}&gt;</p>\n"),
    (
        "'''{{itself}}'''",
        2,
        "<p><b>&lt;&lt;&lt;&lt;{{itself}}&gt;&gt;&gt;&gt;</b></p>\n",
    ),
    (
        "= {{y}} =\n* ''{{y}}''",
        1,
        "<h1>yes</h1>\n<ul>\n<li><i>yes</i></li>\n</ul>\n",
    ),
];

#[test]
fn templates_nest_in_the_second_markup(rt: HostRuntime) -> Result<(), Fail> {
    let alloc = rt.alloc();
    for (text, markup, blocks) in NESTED {
        let case = Case {
            text,
            templates: &CHAIN,
            notice: None,
            markup,
        };
        let wanted = html_with(alloc, "", blocks)?;
        assert_eq!(rt; html_of(alloc, &case)?.as_str(), wanted.as_str());
    }
    Ok(())
}

// the notice, and its line
const NOTICES: [(&str, &str); 4] = [
    ("'''n'''", "<div><b>n</b></div>\n"),
    ("", "<div></div>\n"),
    (
        "== a ==\n* [[b]]",
        "<div>== a == * <a href=\"/wiki/B\">b</a></div>\n",
    ),
    ("{{x}}", "<div>{{x}}</div>\n"),
];

#[test]
fn a_notice_stands_before_the_heading(rt: HostRuntime) -> Result<(), Fail> {
    let alloc = rt.alloc();
    for (notice, line) in NOTICES {
        let wanted = html_with(alloc, line, "<p>one</p>\n")?;
        for markup in [1, 2] {
            let case = Case {
                text: "one",
                templates: &HI,
                notice: Some(notice),
                markup,
            };
            assert_eq!(rt; html_of(alloc, &case)?.as_str(), wanted.as_str());
        }
    }
    Ok(())
}

// the text, the markup, and how many bytes the page has
const LENGTHS: [(&str, u8, usize); 4] = [
    ("", 1, 44),
    ("", 2, 44),
    ("{{x}}", 1, 61),
    ("{{x}}", 2, 59),
];

#[test]
fn pages_have_their_lengths(rt: HostRuntime) -> Result<(), Fail> {
    for (text, markup, length) in LENGTHS {
        let case = Case {
            text,
            templates: &CHAIN,
            notice: None,
            markup,
        };
        assert_eq!(rt; html_of(rt.alloc(), &case)?.len(), length);
    }
    Ok(())
}

const TWICE: [(&str, &str); 4] = [
    ("Template:Y", "1"),
    ("Template:X", "2"),
    ("Template:Y", "3"),
    ("X", "4"),
];

#[test]
fn of_pages_of_one_title_the_first_counts(rt: HostRuntime) -> Result<(), Fail> {
    let case = Case {
        text: "{{y}}{{x}}",
        templates: &TWICE,
        notice: None,
        markup: 1,
    };
    let wanted = html_with(rt.alloc(), "", "<p>12</p>\n")?;
    assert_eq!(rt; html_of(rt.alloc(), &case)?.as_str(), wanted.as_str());
    Ok(())
}
