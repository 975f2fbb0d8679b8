// Messages that are sent and taken before a request, and what the second region then knows.
use crate::setting::{has_received, has_sent, said_at, said_at_once, small_farm};
use farm_core::Page;
use purge_relay::{Deal, FarmWire, Wire};
use revision_keeper::{Keeper, MemKeeper};
use slot_cache::SlotCache;
use std::process::Abort;
use std::test::Fail;
use std::thread::Threads;
use wiki_serve::ServedFarm;

#[test]
fn messages_are_sent_and_carried_before_the_next_request(rt: HostRuntime) -> Result<(), Fail> {
    sends_and_carries(&rt, MemKeeper::new(rt.alloc()))
}

fn sends_and_carries<R: AllocGlobal + Threads + Sync + Abort, K: Keeper + Drop>(
    rt: &R,
    keeper: K,
) -> Result<(), Fail> {
    let mut served = small_farm(rt.alloc(), keeper)?;
    are_carried_after(rt, &mut served, EDIT_AND_VIEW)
}

const EDIT_AND_VIEW: &str = "\
POST /edit HTTP/1.1\r
Host: wiki.example\r
Content-Length: 31\r
\r
title=A&base=0&token=k&text=one\
GET /wiki/B HTTP/1.1\r
Host: wiki.example\r
\r
";

// After this input the edit's two messages are sent, and west has received its purge.
fn are_carried_after<R: AllocGlobal + Threads + Sync + Abort, K: Keeper>(
    rt: &R,
    served: &mut ServedFarm<K, SlotCache<Page>>,
    input: &str,
) -> Result<(), Fail> {
    said_at_once(rt, served, input)?;
    assert_eq!(rt; served.farm.issued(), 2);
    has_sent(rt, served, 2)?;
    has_received(rt, served, true)
}

#[test]
fn the_next_connection_sends_what_was_left_unsent(rt: HostRuntime) -> Result<(), Fail> {
    sends_what_was_left(&rt, MemKeeper::new(rt.alloc()))
}

fn sends_what_was_left<R: AllocGlobal + Threads + Sync + Abort, K: Keeper + Drop>(
    rt: &R,
    keeper: K,
) -> Result<(), Fail> {
    let mut served = small_farm(rt.alloc(), keeper)?;
    sends_by_the_next(rt, &mut served)
}

fn sends_by_the_next<R: AllocGlobal + Threads + Sync + Abort, K: Keeper>(
    rt: &R,
    served: &mut ServedFarm<K, SlotCache<Page>>,
) -> Result<(), Fail> {
    leaves_unsent(rt, served)?;
    are_carried_after(
        rt,
        served,
        "GET /wiki/B HTTP/1.1\r\nHost: wiki.example\r\n\r\n",
    )
}

/// Its connection ends before there is a request whose housekeeping would send the edit's messages.
fn leaves_unsent<R: AllocGlobal + Threads + Sync + Abort, K: Keeper>(
    rt: &R,
    served: &mut ServedFarm<K, SlotCache<Page>>,
) -> Result<(), Fail> {
    let input = "\
POST /edit HTTP/1.1\r
Host: wiki.example\r
Content-Length: 31\r
\r
title=A&base=0&token=k&text=one";
    said_at_once(rt, served, input)?;
    assert_eq!(rt; served.farm.issued(), 2);
    has_sent(rt, served, 0)?;
    has_received(rt, served, false)
}

#[test]
fn a_take_that_fails_ends_the_taking(rt: HostRuntime) -> Result<(), Fail> {
    let mut deals = Vec::new(rt.alloc());
    deals.push(Deal::Skip)?;
    deals.push(Deal::Fail)?;
    deals.push(Deal::Carry(1))?;
    deals.push(Deal::Carry(1))?;
    let mut wire = FarmWire::scripted(rt.alloc(), deals);
    takes_later(&rt, MemKeeper::new(rt.alloc()), &mut wire)
}

fn takes_later<R: AllocGlobal + Threads + Sync + Abort, K: Keeper + Drop, W: Wire>(
    rt: &R,
    keeper: K,
    wire: &mut W,
) -> Result<(), Fail> {
    let mut served = small_farm(rt.alloc(), keeper)?;
    takes_at_last(rt, &mut served, wire)
}

fn takes_at_last<R: AllocGlobal + Threads + Sync + Abort, K: Keeper, W: Wire>(
    rt: &R,
    served: &mut ServedFarm<K, SlotCache<Page>>,
    wire: &mut W,
) -> Result<(), Fail> {
    let input = "\
POST /edit HTTP/1.1\r
Host: wiki.example\r
Content-Length: 31\r
\r
title=A&base=0&token=k&text=one\
GET /wiki/B HTTP/1.1\r
Host: wiki.example\r
\r
GET /wiki/B HTTP/1.1\r
Host: wiki.example\r
\r
";
    said_at(rt, served, wire, 5_000, input)?;
    has_sent(rt, served, 2)?;
    has_received(rt, served, true)
}
