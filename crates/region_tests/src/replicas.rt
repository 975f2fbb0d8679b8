// Entries that a replica takes, and the snapshots that it gives.
use crate::setting::{beat, replica_of, title_of};
use farm_base::Moment;
use replica_apply::{Applied, Replica, Snapshot};
use std::alloc::Global;
use std::test::Fail;

const GAP: Applied = Applied::Gap {
    have: 1,
    got: u64::MAX,
};

// the number of the entry, what became of it, how many are applied then
const ENTRIES: [(u64, Applied, u64); 7] = [
    (1, Applied::Applied, 1),
    (1, Applied::Repeat { have: 1 }, 1),
    (0, Applied::Repeat { have: 1 }, 1),
    (3, Applied::Gap { have: 1, got: 3 }, 1),
    (u64::MAX, GAP, 1),
    (2, Applied::Applied, 2),
    (3, Applied::Applied, 3),
];

#[test]
fn entries_are_taken_in_order(rt: HostRuntime) -> Result<(), Fail> {
    let mut replica = Replica::new(rt.alloc());
    for (number, expected, applied) in ENTRIES {
        assert_eq!(rt; replica.apply(number, &beat(7_000))?, expected);
        assert_eq!(rt; replica.applied(), applied);
    }
    assert_eq!(rt; replica.stamp(), Moment(7_000));
    Ok(())
}

const PAGES: [(&str, &str); 9] = [
    ("A", "old {{x}}"),
    ("Template:B", "b {{c}}"),
    ("Template:C", "c {{d}} [[{{b}}]]"),
    ("Template:D", "d {{e\nf}}"),
    ("Template:E f", "e {{g}}"),
    ("Template:G", "g"),
    ("Template:X", "x"),
    ("MediaWiki:Sitenotice", "note"),
    ("A", "{{b}} and {{missing}}"),
];

// A snapshot one line to a fact.
fn printed(alloc: Global, shot: &Snapshot) -> Result<String, Fail> {
    let page = shot.page.as_ref().map_or("-", |text| text.text());
    let notice = shot.notice.as_ref().map_or("-", |text| text.text());
    let mut lines = format!(in alloc;
        "upto {}\nstamp {}\nsince {}\nlag {}\npage {page}\nnotice {notice}\n",
        shot.upto, shot.stamp.0, shot.since.0, shot.lag
    )?;
    for (title, _) in shot.templates.as_slice() {
        lines.push_str(title.text())?;
        lines.push('\n')?;
    }
    Ok(lines)
}

const SNAPSHOT: &str = "\
upto 9
stamp 1000
since 4500
lag 3500
page {{b}} and {{missing}}
notice note
Template:B
Template:C
Template:D
Template:E f
";

#[test]
fn a_snapshot_has_what_four_stages_reach(rt: HostRuntime) -> Result<(), Fail> {
    let alloc = rt.alloc();
    let replica = replica_of(alloc, &PAGES)?;
    let shot = replica.snapshot(alloc, &title_of(alloc, "A")?, Moment(4_500))?;
    assert_eq!(rt; printed(alloc, &shot)?.as_str(), SNAPSHOT);
    Ok(())
}

const OF_NO_PAGE: &str = "\
upto 9
stamp 1000
since 999
lag 0
page -
notice note
";

#[test]
fn a_snapshot_of_no_page_has_the_notice(rt: HostRuntime) -> Result<(), Fail> {
    let alloc = rt.alloc();
    let replica = replica_of(alloc, &PAGES)?;
    let shot = replica.snapshot(alloc, &title_of(alloc, "Other")?, Moment(999))?;
    assert_eq!(rt; printed(alloc, &shot)?.as_str(), OF_NO_PAGE);
    Ok(())
}

// The page `A` of the replica of all pages, rendered from its snapshot.
fn rendered(alloc: Global, markup: u8) -> Result<String, Fail> {
    let title = title_of(alloc, "A")?;
    let shot = replica_of(alloc, &PAGES)?.snapshot(alloc, &title, Moment(1_000))?;
    let Some(text) = shot.page.as_ref() else {
        return Err(Fail::new("no page"));
    };
    let templates = shot.templates.as_slice();
    let page = page_render::render(alloc, &title, text, templates, shot.notice.as_ref(), markup)?;
    Ok(String::from_str(alloc, std::str::from_utf8(page.bytes())?)?)
}

const FIRST_MARKUP: &str = "\
<!DOCTYPE html>
<title>A</title>
<div>note</div>
<h1>A</h1>
<p>b {{c}} and {{missing}}</p>
";

const SECOND_MARKUP: &str = "\
<!DOCTYPE html>
<title>A</title>
<div>note</div>
<h1>A</h1>
<p>b c d e {{g}} [[b c {{d}} [[{{b}}]]]] and {{missing}}</p>
";

#[test]
fn a_page_is_rendered_from_its_snapshot(rt: HostRuntime) -> Result<(), Fail> {
    assert_eq!(rt; rendered(rt.alloc(), 1)?.as_str(), FIRST_MARKUP);
    assert_eq!(rt; rendered(rt.alloc(), 2)?.as_str(), SECOND_MARKUP);
    Ok(())
}
