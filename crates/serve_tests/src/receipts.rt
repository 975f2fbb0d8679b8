// Purges that come with a batch: west's round receives them after its views, or they are carried before it.
use crate::setting::{both, said_later, saved_three};
use farm_base::Region;
use farm_core::Page;
use purge_relay::{Deal, FarmWire, Message, Wire};
use revision_keeper::{Keeper, MemKeeper};
use slot_cache::SlotCache;
use std::alloc::Global;
use std::process::Abort;
use std::test::Fail;
use std::thread::Threads;
use wan_cache::RegionStore;
use wiki_serve::ServedFarm;

/// A wire of which the takes do these deals.
fn wire_by<const N: usize>(alloc: Global, deals: [Deal; N]) -> Result<FarmWire, Fail> {
    Ok(FarmWire::scripted(alloc, Vec::from_array(alloc, deals)?))
}

/// What is written for this input at 30,000 on a farm of three over this keeper.
fn said_of_three<R: AllocGlobal + Threads + Sync, K: Keeper + Drop, W: Wire>(
    rt: &R,
    keeper: K,
    wire: &mut W,
    input: &str,
) -> Result<String, Fail> {
    let mut served = saved_three(rt.alloc(), keeper)?;
    said_later(rt, &mut served, wire, input)
}

/// Which purges west has received.
#[derive(Clone, Copy, Debug, PartialEq, Eq)]
struct Received {
    a: bool,
    b: bool,
    c: bool,
}

/// What west has received after this input at 30,000 on a farm of three over this keeper.
fn received_of_three<R: AllocGlobal + Threads + Sync, K: Keeper + Drop, W: Wire>(
    rt: &R,
    keeper: K,
    wire: &mut W,
    input: &str,
) -> Result<Received, Fail> {
    let mut served = saved_three(rt.alloc(), keeper)?;
    said_later(rt, &mut served, wire, input)?;
    Ok(receipts_of(&served))
}

fn receipts_of<K: Keeper, S: RegionStore<Page>>(served: &ServedFarm<K, S>) -> Received {
    Received {
        a: served.farm.receipt(1, Region::West).is_some(),
        b: served.farm.receipt(3, Region::West).is_some(),
        c: served.farm.receipt(5, Region::West).is_some(),
    }
}

/// A batch of A in west.
const A_IN_WEST: &str = "GET /batch?titles=A HTTP/1.1\r\nHost: west.wiki.example\r\n\r\n";

const A_THREE_TIMES: &str = "\
GET /batch?titles=A HTTP/1.1\r
Host: west.wiki.example\r
\r
GET /batch?titles=A HTTP/1.1\r
Host: west.wiki.example\r
\r
GET /batch?titles=A HTTP/1.1\r
Host: west.wiki.example\r
\r
";

const A_HIT_AND_THEN_HELD_OFF: &str = "\
HTTP/1.1 200 OK\r
Content-Type: text/plain; charset=utf-8\r
Content-Length: 102\r
Connection: keep-alive\r
\r
1 ok source=4 from=replica:0 lagged=0 bytes=55
<!DOCTYPE html>
<title>A</title>
<h1>A</h1>
<p>one</p>
HTTP/1.1 200 OK\r
Content-Type: text/plain; charset=utf-8\r
Content-Length: 96\r
Connection: keep-alive\r
\r
1 ok source=4 from=hit lagged=0 bytes=55
<!DOCTYPE html>
<title>A</title>
<h1>A</h1>
<p>one</p>
HTTP/1.1 200 OK\r
Content-Type: text/plain; charset=utf-8\r
Content-Length: 102\r
Connection: keep-alive\r
\r
1 ok source=4 from=replica:0 lagged=0 bytes=55
<!DOCTYPE html>
<title>A</title>
<h1>A</h1>
<p>one</p>
";

#[test]
fn a_purge_counts_for_the_batch_after_the_one_that_it_came_with(
    rt: HostRuntime,
) -> Result<(), Fail> {
    let mut wire = wire_by(rt.alloc(), [Deal::Skip, Deal::Carry(1), Deal::Skip])?;
    let text = said_of_three(&rt, MemKeeper::new(rt.alloc()), &mut wire, A_THREE_TIMES)?;
    assert_eq!(rt; text.as_str(), A_HIT_AND_THEN_HELD_OFF);
    Ok(())
}

#[test]
fn a_purge_that_came_twice_with_a_batch_has_its_receipt(rt: HostRuntime) -> Result<(), Fail> {
    let deals = [Deal::Carry(3), Deal::Carry(3), Deal::Carry(2)];
    let mut wire = wire_by(rt.alloc(), deals)?;
    let west = received_of_three(&rt, MemKeeper::new(rt.alloc()), &mut wire, A_IN_WEST)?;
    assert!(rt; west.b);
    assert!(rt; !west.a && !west.c);
    Ok(())
}

/// Three pages are kept in west's cache, and then come fifteen titles with three purges, of which one finds room.
const FIFTEEN_WITH_THREE_PURGES: &str = "\
GET /batch?titles=A%7CB%7CC HTTP/1.1\r
Host: west.wiki.example\r
\r
GET /batch?titles=A%7CB%7CC%7CD%7CD%7CD%7CD%7CD%7CD%7CD%7CD%7CD%7CD%7CD%7CD HTTP/1.1\r
Host: west.wiki.example\r
\r
";

const ONE_HIT: &str = "\
HTTP/1.1 200 OK\r
Content-Type: text/plain; charset=utf-8\r
Content-Length: 534\r
Connection: keep-alive\r
\r
1 ok source=4 from=hit lagged=0 bytes=55
<!DOCTYPE html>
<title>A</title>
<h1>A</h1>
<p>one</p>
2 ok source=4 from=replica:0 lagged=0 bytes=55
<!DOCTYPE html>
<title>B</title>
<h1>B</h1>
<p>two</p>
3 ok source=4 from=replica:0 lagged=0 bytes=55
<!DOCTYPE html>
<title>C</title>
<h1>C</h1>
<p>six</p>
4 no-page source=4
5 no-page source=4
6 no-page source=4
7 no-page source=4
8 no-page source=4
9 no-page source=4
10 no-page source=4
11 no-page source=4
12 no-page source=4
13 no-page source=4
14 no-page source=4
15 no-page source=4
";

#[test]
fn beside_fifteen_titles_one_purge_is_held_and_two_are_carried_first(
    rt: HostRuntime,
) -> Result<(), Fail> {
    let deals = [Deal::Skip, Deal::Carry(1), Deal::Carry(3), Deal::Carry(5)];
    let mut wire = wire_by(rt.alloc(), deals)?;
    let keeper = MemKeeper::new(rt.alloc());
    let text = said_of_three(&rt, keeper, &mut wire, FIFTEEN_WITH_THREE_PURGES)?;
    assert!(rt; text.as_str().ends_with(ONE_HIT));
    Ok(())
}

#[test]
fn a_batch_at_home_carries_its_purges(rt: HostRuntime) -> Result<(), Fail> {
    let input = "GET /batch?titles=A HTTP/1.1\r\nHost: wiki.example\r\n\r\n";
    let mut wire = wire_by(rt.alloc(), [Deal::Carry(3)])?;
    let west = received_of_three(&rt, MemKeeper::new(rt.alloc()), &mut wire, input)?;
    assert!(rt; west.b);
    Ok(())
}

#[test]
fn a_batch_that_is_behind_carries_its_purges(rt: HostRuntime) -> Result<(), Fail> {
    let mut wire = wire_by(rt.alloc(), [Deal::Carry(1), Deal::Carry(3)])?;
    is_behind(&rt, MemKeeper::new(rt.alloc()), &mut wire)
}

fn is_behind<R: AllocGlobal + Threads + Sync + Abort, K: Keeper + Drop, W: Wire>(
    rt: &R,
    keeper: K,
    wire: &mut W,
) -> Result<(), Fail> {
    let mut served = saved_three(rt.alloc(), keeper)?;
    is_told_that_it_is_behind(rt, &mut served, wire)
}

fn is_told_that_it_is_behind<R: AllocGlobal + Threads + Sync + Abort, K: Keeper, W: Wire>(
    rt: &R,
    served: &mut ServedFarm<K, SlotCache<Page>>,
    wire: &mut W,
) -> Result<(), Fail> {
    let input = "\
GET /batch?titles=A%7CB HTTP/1.1\r
Host: west.wiki.example\r
Cookie: cpPosIndex=4@25#00000000000000000000000000000001\r
\r
";
    let text = said_later(rt, served, wire, input)?;
    assert!(rt;
        text.as_str()
            .ends_with("\r\n\r\nlag index needed=4 reached=0\n")
    );
    let west = receipts_of(served);
    assert!(rt; west.a && west.b);
    Ok(())
}

#[test]
fn a_dropped_purge_is_not_received(rt: HostRuntime) -> Result<(), Fail> {
    let mut wire = wire_by(rt.alloc(), [Deal::Carry(1), Deal::Carry(3)])?;
    let west = received_without_first(&rt, MemKeeper::new(rt.alloc()), &mut wire)?;
    assert!(rt; !west.a);
    assert!(rt; west.b);
    Ok(())
}

/// What west has received after a batch, where message 1 was dropped before.
fn received_without_first<R: AllocGlobal + Threads + Sync, K: Keeper + Drop, W: Wire>(
    rt: &R,
    keeper: K,
    wire: &mut W,
) -> Result<Received, Fail> {
    let mut served = saved_three(rt.alloc(), keeper)?;
    served.farm.drop_message(both(5_000), 1);
    said_later(rt, &mut served, wire, A_IN_WEST)?;
    Ok(receipts_of(&served))
}

#[test]
fn a_purge_under_the_number_of_another_is_not_received(rt: HostRuntime) -> Result<(), Fail> {
    let mut wire = FarmWire::new(rt.alloc());
    let west = received_under_other(&rt, MemKeeper::new(rt.alloc()), &mut wire)?;
    assert!(rt; !west.a && !west.b);
    assert!(rt; west.c);
    Ok(())
}

/// What west has received after a batch with which A's purge came under the number of B's, and C's under its own.
fn received_under_other<R: AllocGlobal + Threads + Sync, K: Keeper + Drop, W: Wire>(
    rt: &R,
    keeper: K,
    wire: &mut W,
) -> Result<Received, Fail> {
    let mut served = saved_three(rt.alloc(), keeper)?;
    send_under_other(&mut served, wire)?;
    said_later(rt, &mut served, wire, A_IN_WEST)?;
    Ok(receipts_of(&served))
}

fn send_under_other<K: Keeper, S: RegionStore<Page>, W: Wire>(
    served: &mut ServedFarm<K, S>,
    wire: &mut W,
) -> Result<(), Fail> {
    send_as(served, wire, 1, 3)?;
    send_as(served, wire, 5, 5)?;
    served.sent = served.farm.issued();
    Ok(())
}

/// Sends the body of message `of` under this number.
fn send_as<K: Keeper, S: RegionStore<Page>, W: Wire>(
    served: &ServedFarm<K, S>,
    wire: &mut W,
    of: u64,
    number: u64,
) -> Result<(), Fail> {
    let Some(message) = served.farm.message(of) else {
        return Err(Fail::new("there is no such message"));
    };
    let body = message.body.clone()?;
    match wire.send(&Message { number, body }) {
        Ok(()) => Ok(()),
        Err(_) => Err(Fail::new("the wire took no message")),
    }
}
