// What sessions find after a restart: a second hosting over the keeper that the first one gave back.
use crate::setting::{always, door_of, host_of, host_on, said};
use revision_keeper::{Keeper, MemKeeper};
use sqlite::Connection;
use sqlite_keeper::SqliteKeeper;
use std::alloc::Global;
use std::process::Abort;
use std::test::Fail;
use std::thread::Threads;
use wiki_host::Hosted;

const OTHERS_EDIT: &str = "\
POST /edit HTTP/1.1\r
Host: wiki.example\r
User-Agent: Other/1.0\r
Content-Length: 31\r
\r
title=A&base=0&token=a&text=one";

const OWN_EDIT: &str = "\
POST /edit HTTP/1.1\r
Host: wiki.example\r
User-Agent: Browser/1.0\r
Content-Length: 31\r
\r
title=A&base=1&token=b&text=two";

// The client is the MD5 of the peer, a line feed and the agent: printf '192.0.2.7\nBrowser/1.0' | md5sum
const SAVED: &str = "\
HTTP/1.1 303 See Other\r
Content-Type: text/plain; charset=utf-8\r
Content-Length: 36\r
Location: /wiki/A\r
Set-Cookie: cpPosIndex=1@5#406c436b544577a93ec9a05694f2a44a; Max-Age=10; Path=/\r
Set-Cookie: UseDC=master; Max-Age=10; Path=/\r
Set-Cookie: UseCDNCache=false; Max-Age=10; Path=/\r
Connection: keep-alive\r
\r
saved entry=3 revision=2 cookie=1@5
";

const OWN_IN_WEST: &str = "\
GET /wiki/A HTTP/1.1\r
Host: west.wiki.example\r
User-Agent: Browser/1.0\r
\r
";

const OWN_AT_HOME: &str = "\
GET /wiki/A HTTP/1.1\r
Host: wiki.example\r
User-Agent: Browser/1.0\r
\r
";

// Another agent, and the cookie that the edit was answered with.
const COOKIE_IN_WEST: &str = "\
GET /wiki/A HTTP/1.1\r
Host: west.wiki.example\r
User-Agent: Phone/1.0\r
Cookie: cpPosIndex=1@5#406c436b544577a93ec9a05694f2a44a\r
\r
";

const STRANGER_IN_WEST: &str = "\
GET /wiki/A HTTP/1.1\r
Host: west.wiki.example\r
User-Agent: Reader/1.0\r
\r
";

const LAGS: &str = "\
HTTP/1.1 503 Service Unavailable\r
Content-Type: text/plain; charset=utf-8\r
Content-Length: 29\r
Connection: keep-alive\r
\r
lag entry needed=3 reached=1
";

const NO_PAGE: &str = "\
HTTP/1.1 404 Not Found\r
Content-Type: text/plain; charset=utf-8\r
Content-Length: 17\r
Wiki-Source: 1\r
Connection: keep-alive\r
\r
no-page source=1
";

const OLDER: &str = "\
HTTP/1.1 200 OK\r
Content-Type: text/html; charset=utf-8\r
Content-Length: 55\r
Wiki-Source: 2\r
Wiki-From: replica:0\r
Wiki-Lagged: 0\r
Connection: keep-alive\r
\r
<!DOCTYPE html>
<title>A</title>
<h1>A</h1>
<p>one</p>
";

const OWN: &str = "\
HTTP/1.1 200 OK\r
Content-Type: text/html; charset=utf-8\r
Content-Length: 55\r
Wiki-Source: 3\r
Wiki-From: replica:0\r
Wiki-Lagged: 0\r
Connection: keep-alive\r
\r
<!DOCTYPE html>
<title>A</title>
<h1>A</h1>
<p>two</p>
";

// The beat of the second hosting is entry 4.
const OWN_AT_ONCE: &str = "\
HTTP/1.1 200 OK\r
Content-Type: text/html; charset=utf-8\r
Content-Length: 55\r
Wiki-Source: 4\r
Wiki-From: replica:0\r
Wiki-Lagged: 0\r
Connection: keep-alive\r
\r
<!DOCTYPE html>
<title>A</title>
<h1>A</h1>
<p>two</p>
";

// Before each request every replica applies one entry.
const SLOW: &str = "[farm]\npace = 1\n";

// The default layout, by which replicas apply all entries before a request.
const FAST: &str = "";

// A keeper, and what was said over the connection.
#[derive(Drop)]
struct Told<K: Keeper + Drop> {
    keeper: K,
    text: String,
}

// Hosts one connection with this input over the keeper, with clocks that always read this.
fn tell<R: Threads + Sync, K: Keeper + Drop>(
    rt: &R,
    alloc: Global,
    keeper: K,
    layout: &str,
    input: &str,
    milliseconds: u64,
) -> Result<Told<K>, Fail> {
    let mut door = door_of(alloc, input, "", 0)?;
    let mut clock = always(alloc, milliseconds);
    let host = host_of(alloc, keeper, layout, 1)?;
    let Hosted { keeper, .. } = host_on(rt, alloc, host, &mut door, &mut clock);
    let text = said(alloc, &door, 0)?;
    Ok(Told { keeper, text })
}

// What a first hosting at 5,000 leaves: entry 1 is its beat, 2 the other's edit, 3 the session's own.
fn first_hosting<R: Threads + Sync>(rt: &R, alloc: Global) -> Result<Told<MemKeeper>, Fail> {
    let input = format!(in alloc; "{OTHERS_EDIT}{OWN_EDIT}")?;
    tell(rt, alloc, MemKeeper::new(alloc), FAST, &input, 5_000)
}

// What a second hosting says, at this moment.
fn second_hosting<R: Threads + Sync>(
    rt: &R,
    alloc: Global,
    layout: &str,
    input: &str,
    milliseconds: u64,
) -> Result<String, Fail> {
    let Told { keeper, .. } = first_hosting(rt, alloc)?;
    let Told { text, .. } = tell(rt, alloc, keeper, layout, input, milliseconds)?;
    Ok(text)
}

#[test]
fn an_edit_before_the_restart_is_told_of_the_session(rt: HostRuntime) -> Result<(), Fail> {
    let Told { text, .. } = first_hosting(&rt, rt.alloc())?;
    assert!(rt; text.as_str().ends_with(SAVED));
    Ok(())
}

// West's replica has one entry, then two, then three: the editor is told `lag`, a stranger is shown the page of the
// prefix of two, and the editor its own edit, though that older page is in the cache.
#[test]
fn an_editor_in_west_never_sees_a_page_without_its_edit(rt: HostRuntime) -> Result<(), Fail> {
    let alloc = rt.alloc();
    let input = format!(in alloc; "{OWN_IN_WEST}{STRANGER_IN_WEST}{OWN_IN_WEST}")?;
    let text = second_hosting(&rt, alloc, SLOW, &input, 6_000)?;
    let wanted = format!(in alloc; "{LAGS}{OLDER}{OWN}")?;
    assert_eq!(rt; text.as_str(), wanted.as_str());
    Ok(())
}

#[test]
fn a_cookie_from_before_the_restart_names_the_editor(rt: HostRuntime) -> Result<(), Fail> {
    let alloc = rt.alloc();
    let input = format!(in alloc; "{COOKIE_IN_WEST}{STRANGER_IN_WEST}{COOKIE_IN_WEST}")?;
    let text = second_hosting(&rt, alloc, SLOW, &input, 6_000)?;
    let wanted = format!(in alloc; "{LAGS}{OLDER}{OWN}")?;
    assert_eq!(rt; text.as_str(), wanted.as_str());
    Ok(())
}

#[test]
fn an_editor_sees_its_edit_in_both_regions_once_all_is_applied(
    rt: HostRuntime,
) -> Result<(), Fail> {
    let alloc = rt.alloc();
    let input = format!(in alloc; "{OWN_IN_WEST}{OWN_AT_HOME}")?;
    let text = second_hosting(&rt, alloc, FAST, &input, 6_000)?;
    let wanted = format!(in alloc; "{OWN_AT_ONCE}{OWN_AT_ONCE}")?;
    assert_eq!(rt; text.as_str(), wanted.as_str());
    Ok(())
}

// A position counts for a minute from the edit's moment, and no longer.
#[test]
fn a_position_is_known_to_its_last_moment_after_a_restart(rt: HostRuntime) -> Result<(), Fail> {
    let alloc = rt.alloc();
    let text = second_hosting(&rt, alloc, SLOW, OWN_IN_WEST, 64_999)?;
    assert_eq!(rt; text.as_str(), LAGS);
    let text = second_hosting(&rt, alloc, SLOW, OWN_IN_WEST, 65_000)?;
    assert_eq!(rt; text.as_str(), NO_PAGE);
    Ok(())
}

// Of the first keeper only the database comes over.
#[test]
fn a_second_farm_finds_what_was_served(rt: HostRuntime) -> Result<(), Fail> {
    let alloc = rt.alloc();
    let conn = Connection::open_in_memory(alloc)?;
    let keeper = serves_first(&rt, alloc, SqliteKeeper::new(alloc, Ok(conn)))?;
    serves_again(&rt, alloc, SqliteKeeper::new(alloc, keeper.into_opened()))
}

// Entry 1 is the beat, 2 the edit.
fn serves_first<R: Threads + Sync + Abort, K: Keeper + Drop>(
    rt: &R,
    alloc: Global,
    keeper: K,
) -> Result<K, Fail> {
    let input = format!(in alloc; "{OTHERS_EDIT}{STRANGER_IN_WEST}")?;
    let Told { keeper, text } = tell(rt, alloc, keeper, FAST, &input, 5_000)?;
    assert!(rt; text.as_str().ends_with(OLDER));
    Ok(keeper)
}

// Entry 3 is the beat of the second hosting, where west's replica has one entry and then two.
fn serves_again<R: Threads + Sync + Abort, K: Keeper + Drop>(
    rt: &R,
    alloc: Global,
    keeper: K,
) -> Result<(), Fail> {
    let input = format!(in alloc; "{STRANGER_IN_WEST}{STRANGER_IN_WEST}")?;
    let Told { text, .. } = tell(rt, alloc, keeper, SLOW, &input, 6_000)?;
    let wanted = format!(in alloc; "{NO_PAGE}{OLDER}")?;
    assert_eq!(rt; text.as_str(), wanted.as_str());
    Ok(())
}
