// Connections that are served one after another, byte for byte, and handed back.
use crate::setting::{both, door_of, end_at, has_said, host_of, host_on, keeper_after, said};
use farm_base::{MemClock, MemDoor};
use revision_keeper::{Keeper, MemKeeper};
use std::alloc::Global;
use std::process::Abort;
use std::test::Fail;
use std::thread::Threads;
use wiki_host::{HostEnd, Hosted};

const SAVING: &str = "\
POST /edit HTTP/1.1\r
Host: wiki.example\r
Content-Type: application/x-www-form-urlencoded\r
Content-Length: 45\r
Cookie: theme=dark; cpPosIndex=1%405%2300000000000000000000000000000001\r
\r
title=Caf%C3%A9_menu&base=0&token=k1&text=one";

const READING: &str = "\
GET /wiki/Caf%C3%A9_menu HTTP/1.1\r
Host: wiki.example\r
User-Agent: Browser/1.0\r
Accept: text/html\r
Accept-Language: en\r
Accept-Encoding: gzip\r
DNT: 1\r
Connection: keep-alive\r
Upgrade-Insecure-Requests: 1\r
Sec-Fetch-Dest: document\r
Sec-Fetch-Mode: navigate\r
Sec-Fetch-Site: same-origin\r
Referer: http://wiki.example/wiki/A\r
Pragma: no-cache\r
Cache-Control: no-cache\r
Cookie: theme=dark; cpPosIndex=1@5#00000000000000000000000000000001; UseDC=master\r
\r
";

const SAVED: &str = "\
HTTP/1.1 303 See Other\r
Content-Type: text/plain; charset=utf-8\r
Content-Length: 36\r
Location: /wiki/Caf%C3%A9_menu\r
Set-Cookie: cpPosIndex=1@5#00000000000000000000000000000001; Max-Age=10; Path=/\r
Set-Cookie: UseDC=master; Max-Age=10; Path=/\r
Set-Cookie: UseCDNCache=false; Max-Age=10; Path=/\r
Connection: keep-alive\r
\r
saved entry=2 revision=1 cookie=1@5
";

const READ: &str = "\
HTTP/1.1 200 OK\r
Content-Type: text/html; charset=utf-8\r
Content-Length: 73\r
Wiki-Source: 2\r
Wiki-From: replica:0\r
Wiki-Lagged: 0\r
Connection: keep-alive\r
\r
<!DOCTYPE html>
<title>Café menu</title>
<h1>Café menu</h1>
<p>one</p>
";

#[test]
fn an_edit_is_saved_and_its_page_is_seen(rt: HostRuntime) -> Result<(), Fail> {
    let input = format!(in rt.alloc(); "{SAVING}{READING}")?;
    let wanted = format!(in rt.alloc(); "{SAVED}{READ}")?;
    is_said(&rt, rt.alloc(), input.as_str(), wanted.as_str())
}

// The connection with this input is answered so.
fn is_said<R: Threads + Sync + Abort>(
    rt: &R,
    alloc: Global,
    input: &str,
    wanted: &str,
) -> Result<(), Fail> {
    let mut door = door_of(alloc, input, "", 0)?;
    let end = end_at(rt, alloc, &mut door, 1)?;
    assert_eq!(rt; end, HostEnd::Served { connections: 1 });
    has_said(rt, alloc, &door, 0, wanted)
}

#[test]
fn the_keeper_is_given_back_with_all_that_was_saved(rt: HostRuntime) -> Result<(), Fail> {
    let mut keeper = keeper_after(&rt, rt.alloc(), SAVING)?;
    assert!(rt; matches!(keeper.len(), Ok(2)));
    Ok(())
}

const IN_WEST: &str = "\
GET /wiki/Caf%C3%A9_menu HTTP/1.1\r
Host: west.wiki.example\r
Cookie: cpPosIndex=1@5#00000000000000000000000000000001\r
\r
";

// The first connection's editor opens a second one at west's host: it sees the edit, of which west heard by the wire.
#[test]
fn a_session_is_kept_from_one_connection_to_the_next_in_west(rt: HostRuntime) -> Result<(), Fail> {
    let mut door = door_of(rt.alloc(), SAVING, IN_WEST, 0)?;
    let end = end_at(&rt, rt.alloc(), &mut door, 2)?;
    assert_eq!(rt; end, HostEnd::Served { connections: 2 });
    has_said(&rt, rt.alloc(), &door, 0, SAVED)?;
    has_said(&rt, rt.alloc(), &door, 1, READ)
}

const PLAIN: &str = "\
GET /wiki/Caf%C3%A9_menu HTTP/1.1\r
Host: wiki.example\r
\r
";

const CACHED: &str = "\
HTTP/1.1 200 OK\r
Content-Type: text/html; charset=utf-8\r
Content-Length: 73\r
Wiki-Source: 3\r
Wiki-From: replica:0\r
Wiki-Lagged: 0\r
Connection: keep-alive\r
\r
<!DOCTYPE html>
<title>Café menu</title>
<h1>Café menu</h1>
<p>one</p>
HTTP/1.1 200 OK\r
Content-Type: text/html; charset=utf-8\r
Content-Length: 73\r
Wiki-Source: 3\r
Wiki-From: hit\r
Wiki-Lagged: 0\r
Connection: keep-alive\r
\r
<!DOCTYPE html>
<title>Café menu</title>
<h1>Café menu</h1>
<p>one</p>
";

// The clock gives a reading for the opening, one for the first request, and one more for all after it.
#[test]
fn a_page_is_kept_for_the_next_request(rt: HostRuntime) -> Result<(), Fail> {
    let input = format!(in rt.alloc(); "{SAVING}{PLAIN}{PLAIN}")?;
    let wanted = format!(in rt.alloc(); "{SAVED}{CACHED}")?;
    let mut door = door_of(rt.alloc(), input.as_str(), "", 0)?;
    hosts_from_5_to_30_seconds(&rt, rt.alloc(), &mut door)?;
    has_said(&rt, rt.alloc(), &door, 0, wanted.as_str())
}

fn hosts_from_5_to_30_seconds<R: Threads + Sync + Abort>(
    rt: &R,
    alloc: Global,
    door: &mut MemDoor,
) -> Result<(), Fail> {
    let host = host_of(alloc, MemKeeper::new(alloc), "", 1)?;
    let coming = [both(5_000), both(5_000)].to_vec(alloc)?;
    let mut clock = MemClock::new(coming, both(30_000));
    let Hosted { end, .. } = host_on(rt, alloc, host, door, &mut clock);
    assert_eq!(rt; end, HostEnd::Served { connections: 1 });
    Ok(())
}

const NESTED: &str = "\
POST /edit HTTP/1.1\r
Host: wiki.example\r
Content-Length: 40\r
\r
title=Template:B&base=0&token=b&text=two\
POST /edit HTTP/1.1\r
Host: wiki.example\r
Content-Length: 44\r
\r
title=Template:A&base=0&token=a&text={{B}}+x\
POST /edit HTTP/1.1\r
Host: wiki.example\r
Content-Length: 33\r
\r
title=P&base=0&token=p&text={{A}}\
GET /wiki/P HTTP/1.1\r
Host: wiki.example\r
\r
";

#[test]
fn templates_hold_templates_from_the_first_connection_on(rt: HostRuntime) -> Result<(), Fail> {
    let mut door = door_of(rt.alloc(), NESTED, "", 0)?;
    let end = end_at(&rt, rt.alloc(), &mut door, 1)?;
    assert_eq!(rt; end, HostEnd::Served { connections: 1 });
    let text = said(rt.alloc(), &door, 0)?;
    assert!(rt; text.as_str().ends_with("<h1>P</h1>\n<p>two x</p>\n"));
    Ok(())
}
