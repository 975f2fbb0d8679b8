// Several pages at once, byte for byte.
use crate::setting::{both, said_by, said_later, saved_three, small_farm};
use farm_base::{MemClock, Region};
use farm_core::{Farm, Page};
use purge_relay::{Deal, FarmWire};
use revision_keeper::{Keeper, MemKeeper};
use slot_cache::SlotCache;
use std::alloc::Global;
use std::process::Abort;
use std::test::Fail;
use std::thread::Threads;
use wan_cache::RegionStore;
use wiki_serve::ServedFarm;

fn carry<K: Keeper, S: RegionStore<Page>>(farm: &mut Farm<K, S>, number: u64) -> Result<(), Fail> {
    if !farm.is_whole() || farm.carry(both(5_000), number, None).is_some() {
        return Err(Fail::new("the message was not carried"));
    }
    Ok(())
}

/// A farm where A, B and C were saved, and west received the purges of A and C.
fn farm_of_three<K: Keeper + Drop>(
    alloc: Global,
    keeper: K,
) -> Result<ServedFarm<K, SlotCache<Page>>, Fail> {
    let mut served = saved_three(alloc, keeper)?;
    carry_first_and_last(&mut served.farm)?;
    Ok(served)
}

fn carry_first_and_last<K: Keeper, S: RegionStore<Page>>(
    farm: &mut Farm<K, S>,
) -> Result<(), Fail> {
    carry(farm, 1)?;
    carry(farm, 5)
}

/// What is written for this input at 30,000, where the wire has B's purge and no other message.
fn said_for<R: AllocGlobal + Threads + Sync, K: Keeper>(
    rt: &R,
    served: &mut ServedFarm<K, SlotCache<Page>>,
    input: &str,
) -> Result<String, Fail> {
    let mut deals = Vec::new(rt.alloc());
    deals.push(Deal::Carry(3))?;
    let mut wire = FarmWire::scripted(rt.alloc(), deals);
    said_later(rt, served, &mut wire, input)
}

/// The same on a farm of three over this keeper.
fn said_of_three<R: AllocGlobal + Threads + Sync, K: Keeper + Drop>(
    rt: &R,
    keeper: K,
    input: &str,
) -> Result<String, Fail> {
    let mut served = farm_of_three(rt.alloc(), keeper)?;
    said_for(rt, &mut served, input)
}

#[test]
fn three_pages_are_rendered_and_then_hit(rt: HostRuntime) -> Result<(), Fail> {
    renders_and_hits(&rt, MemKeeper::new(rt.alloc()))
}

const THREE_TWICE: &str = "\
GET /batch?titles=A%7CB%7CC HTTP/1.1\r
Host: west.wiki.example\r
\r
GET /batch?titles=A%7CB%7CC HTTP/1.1\r
Host: west.wiki.example\r
\r
";

const RENDERED_AND_HIT: &str = "\
HTTP/1.1 200 OK\r
Content-Type: text/plain; charset=utf-8\r
Content-Length: 306\r
Connection: keep-alive\r
\r
1 ok source=4 from=replica:0 lagged=0 bytes=55
<!DOCTYPE html>
<title>A</title>
<h1>A</h1>
<p>one</p>
2 ok source=4 from=replica:0 lagged=0 bytes=55
<!DOCTYPE html>
<title>B</title>
<h1>B</h1>
<p>two</p>
3 ok source=4 from=replica:0 lagged=0 bytes=55
<!DOCTYPE html>
<title>C</title>
<h1>C</h1>
<p>six</p>
HTTP/1.1 200 OK\r
Content-Type: text/plain; charset=utf-8\r
Content-Length: 294\r
Connection: keep-alive\r
\r
1 ok source=4 from=hit lagged=0 bytes=55
<!DOCTYPE html>
<title>A</title>
<h1>A</h1>
<p>one</p>
2 ok source=4 from=replica:0 lagged=0 bytes=55
<!DOCTYPE html>
<title>B</title>
<h1>B</h1>
<p>two</p>
3 ok source=4 from=hit lagged=0 bytes=55
<!DOCTYPE html>
<title>C</title>
<h1>C</h1>
<p>six</p>
";

fn renders_and_hits<R: AllocGlobal + Threads + Sync + Abort, K: Keeper + Drop>(
    rt: &R,
    keeper: K,
) -> Result<(), Fail> {
    let mut served = farm_of_three(rt.alloc(), keeper)?;
    says_three_twice(rt, &mut served)
}

fn says_three_twice<R: AllocGlobal + Threads + Sync + Abort, K: Keeper>(
    rt: &R,
    served: &mut ServedFarm<K, SlotCache<Page>>,
) -> Result<(), Fail> {
    let text = said_for(rt, served, THREE_TWICE)?;
    assert_eq!(rt; text.as_str(), RENDERED_AND_HIT);
    assert!(rt; served.farm.receipt(3, Region::West).is_some());
    Ok(())
}

#[test]
fn a_batch_of_one_hits_the_page_that_was_viewed(rt: HostRuntime) -> Result<(), Fail> {
    hits_what_was_viewed(&rt, MemKeeper::new(rt.alloc()))
}

const SAVED_VIEWED_AND_LISTED: &str = "\
POST /edit HTTP/1.1\r
Host: wiki.example\r
Content-Type: application/x-www-form-urlencoded\r
Content-Length: 45\r
Cookie: theme=dark; cpPosIndex=1%405%2300000000000000000000000000000001\r
\r
title=Caf%C3%A9_menu&base=0&token=k1&text=one\
GET /wiki/Caf%C3%A9_menu HTTP/1.1\r
Host: wiki.example\r
\r
GET /batch?titles=Caf%C3%A9_menu HTTP/1.1\r
Host: wiki.example\r
\r
";

const ONE_LISTED: &str = "\
HTTP/1.1 200 OK\r
Content-Type: text/html; charset=utf-8\r
Content-Length: 73\r
Wiki-Source: 3\r
Wiki-From: replica:0\r
Wiki-Lagged: 0\r
Connection: keep-alive\r
\r
<!DOCTYPE html>
<title>Café menu</title>
<h1>Café menu</h1>
<p>one</p>
HTTP/1.1 200 OK\r
Content-Type: text/plain; charset=utf-8\r
Content-Length: 114\r
Connection: keep-alive\r
\r
1 ok source=3 from=hit lagged=0 bytes=73
<!DOCTYPE html>
<title>Café menu</title>
<h1>Café menu</h1>
<p>one</p>
";

fn hits_what_was_viewed<R: AllocGlobal + Threads + Sync + Abort, K: Keeper + Drop>(
    rt: &R,
    keeper: K,
) -> Result<(), Fail> {
    let mut served = small_farm(rt.alloc(), keeper)?;
    says_one_listed(rt, &mut served)
}

fn says_one_listed<R: AllocGlobal + Threads + Sync + Abort, K: Keeper>(
    rt: &R,
    served: &mut ServedFarm<K, SlotCache<Page>>,
) -> Result<(), Fail> {
    let text = said_at_5_and_30_seconds(rt, served, SAVED_VIEWED_AND_LISTED)?;
    assert!(rt; text.as_str().ends_with(ONE_LISTED));
    Ok(())
}

/// What is written for this input, whose first request is read at 5,000 and whose others at 30,000.
fn said_at_5_and_30_seconds<R: AllocGlobal + Threads + Sync, K: Keeper>(
    rt: &R,
    served: &mut ServedFarm<K, SlotCache<Page>>,
    input: &str,
) -> Result<String, Fail> {
    let mut clock = clock_from_5_to_30_seconds(rt.alloc())?;
    let mut wire = FarmWire::new(rt.alloc());
    said_by(rt, served, &mut wire, &mut clock, input)
}

fn clock_from_5_to_30_seconds(alloc: Global) -> Result<MemClock, Fail> {
    let mut first = Vec::new(alloc);
    first.push(both(5_000))?;
    Ok(MemClock::new(first, both(30_000)))
}

#[test]
fn a_session_that_is_behind_is_told_so_for_the_whole_batch(rt: HostRuntime) -> Result<(), Fail> {
    let input = "\
GET /batch?titles=A%7CB HTTP/1.1\r
Host: west.wiki.example\r
Cookie: cpPosIndex=4@25#00000000000000000000000000000001\r
\r
";
    let wanted = "\
HTTP/1.1 503 Service Unavailable\r
Content-Type: text/plain; charset=utf-8\r
Content-Length: 29\r
Connection: keep-alive\r
\r
lag index needed=4 reached=0
";
    let text = said_of_three(&rt, MemKeeper::new(rt.alloc()), input)?;
    assert_eq!(rt; text.as_str(), wanted);
    Ok(())
}

const SIXTEEN: &str = "\
GET /batch?titles=A%7CD%7CD%7CD%7CD%7CD%7CD%7CD%7CD%7CD%7CD%7CD%7CD%7CD%7CD%7CA HTTP/1.1\r
Host: wiki.example\r
\r
";

const SIXTEEN_ANSWERS: &str = "\
HTTP/1.1 200 OK\r
Content-Type: text/plain; charset=utf-8\r
Content-Length: 471\r
Connection: keep-alive\r
\r
1 ok source=4 from=replica:0 lagged=0 bytes=55
<!DOCTYPE html>
<title>A</title>
<h1>A</h1>
<p>one</p>
2 no-page source=4
3 no-page source=4
4 no-page source=4
5 no-page source=4
6 no-page source=4
7 no-page source=4
8 no-page source=4
9 no-page source=4
10 no-page source=4
11 no-page source=4
12 no-page source=4
13 no-page source=4
14 no-page source=4
15 no-page source=4
16 ok source=4 from=hit lagged=0 bytes=55
<!DOCTYPE html>
<title>A</title>
<h1>A</h1>
<p>one</p>
";

#[test]
fn sixteen_titles_are_answered_in_their_order(rt: HostRuntime) -> Result<(), Fail> {
    let text = said_of_three(&rt, MemKeeper::new(rt.alloc()), SIXTEEN)?;
    assert_eq!(rt; text.as_str(), SIXTEEN_ANSWERS);
    Ok(())
}

#[test]
fn a_head_says_how_long_a_batch_is_and_does_not_send_it(rt: HostRuntime) -> Result<(), Fail> {
    let input = "HEAD /batch?titles=A%7CD HTTP/1.1\r\nHost: wiki.example\r\n\r\n";
    let wanted = "\
HTTP/1.1 200 OK\r
Content-Type: text/plain; charset=utf-8\r
Content-Length: 121\r
Connection: keep-alive\r
\r
";
    let text = said_of_three(&rt, MemKeeper::new(rt.alloc()), input)?;
    assert_eq!(rt; text.as_str(), wanted);
    Ok(())
}
