// A small farm over any keeper, and serving bytes on it.
use drill_script::{Script, read_script};
use edit_core::EditAsk;
use farm_base::{
    BOUND_MAX, Clock, Conn, Lots, MemClock, MemConn, MemLots, Moment, Readings, Region,
};
use farm_core::{Asked, Farm, Page};
use purge_relay::{FarmWire, Wire};
use revision_keeper::{Keeper, MemKeeper};
use slot_cache::SlotCache;
use std::alloc::Global;
use std::process::Abort;
use std::str;
use std::test::Fail;
use std::thread::Threads;
use wan_cache::RegionStore;
use wiki_serve::{ConnEnd, ServedFarm, serve_conn};
use wiki_titles::{ClientId, Text, Title, Token};

/// The first edit of a page, by a client with a cookie.
pub const SAVING: &str = "\
POST /edit HTTP/1.1\r
Host: wiki.example\r
Content-Type: application/x-www-form-urlencoded\r
Content-Length: 45\r
Cookie: theme=dark; cpPosIndex=1%405%2300000000000000000000000000000001\r
\r
title=Caf%C3%A9_menu&base=0&token=k1&text=one";

/// A view of that page with the cookie that the edit was answered with, as a browser asks.
pub const READING: &str = "\
GET /wiki/Caf%C3%A9_menu HTTP/1.1\r
Host: wiki.example\r
User-Agent: Browser/1.0\r
Accept: text/html\r
Accept-Language: en\r
Accept-Encoding: gzip\r
DNT: 1\r
Connection: keep-alive\r
Upgrade-Insecure-Requests: 1\r
Sec-Fetch-Dest: document\r
Sec-Fetch-Mode: navigate\r
Sec-Fetch-Site: same-origin\r
Referer: http://wiki.example/wiki/A\r
Pragma: no-cache\r
Cache-Control: no-cache\r
Cookie: theme=dark; cpPosIndex=1@5#00000000000000000000000000000001; UseDC=master\r
\r
";

/// What the edit is answered at 5,000 on an empty farm: entry 1 is the beat before it.
pub const SAVED: &str = "\
HTTP/1.1 303 See Other\r
Content-Type: text/plain; charset=utf-8\r
Content-Length: 36\r
Location: /wiki/Caf%C3%A9_menu\r
Set-Cookie: cpPosIndex=1@5#00000000000000000000000000000001; Max-Age=10; Path=/\r
Set-Cookie: UseDC=master; Max-Age=10; Path=/\r
Set-Cookie: UseCDNCache=false; Max-Age=10; Path=/\r
Connection: keep-alive\r
\r
saved entry=2 revision=1 cookie=1@5
";

/// What the view is answered after it.
pub const READ: &str = "\
HTTP/1.1 200 OK\r
Content-Type: text/html; charset=utf-8\r
Content-Length: 73\r
Wiki-Source: 2\r
Wiki-From: replica:0\r
Wiki-Lagged: 0\r
Connection: keep-alive\r
\r
<!DOCTYPE html>
<title>Café menu</title>
<h1>Café menu</h1>
<p>one</p>
";

/// How many entries a replica applies before a request, unless a layout says otherwise.
const PACE: u32 = 1_000; // entries

/// A farm of the default plan over this keeper, opened at 5,000 of both regions.
pub fn small_farm<K: Keeper + Drop>(
    alloc: Global,
    keeper: K,
) -> Result<ServedFarm<K, SlotCache<Page>>, Fail> {
    farm_of_slots(alloc, keeper, 65_536)
}

/// The same, with this number of slots in each cache.
pub fn farm_of_slots<K: Keeper + Drop>(
    alloc: Global,
    keeper: K,
    slots: u32,
) -> Result<ServedFarm<K, SlotCache<Page>>, Fail> {
    let Script { plan, .. } = read_script(alloc, b"end\n")?;
    let mut plan = plan;
    plan.pace = PACE;
    let hold_off = plan.bounds.hold_off();
    let weights = plan.home.weights.as_slice().len().wrapping_sub(1) < 8
        && plan.west.weights.as_slice().len().wrapping_sub(1) < 8;
    if !weights || plan.bounds.commit_delay > BOUND_MAX || hold_off == 0 || hold_off > 180_000 {
        return Err(Fail::new("no plan of a farm"));
    }
    if slots < 256 || 65_536 < slots {
        return Err(Fail::new("a cache has from 256 to 65,536 slots"));
    }
    let home = SlotCache::new(alloc, slots, hold_off)?;
    let west = SlotCache::new(alloc, slots, hold_off)?;
    match Farm::new(alloc, keeper, plan, home, west, both(5_000)) {
        Ok(farm) => Ok(ServedFarm { farm, sent: 0 }),
        Err(_) => Err(Fail::new("no farm")),
    }
}

/// A farm where A, B and C were saved at 5,000. Messages 1, 3 and 5 are their purges.
pub fn saved_three<K: Keeper + Drop>(
    alloc: Global,
    keeper: K,
) -> Result<ServedFarm<K, SlotCache<Page>>, Fail> {
    let mut served = small_farm(alloc, keeper)?;
    save_three(alloc, &mut served.farm)?;
    Ok(served)
}

fn save_three<K: Keeper, S: RegionStore<Page>>(
    alloc: Global,
    farm: &mut Farm<K, S>,
) -> Result<(), Fail> {
    save(alloc, farm, "A", "one")?;
    save(alloc, farm, "B", "two")?;
    save(alloc, farm, "C", "six")
}

/// Saves the first text of a page at 5,000, without housekeeping. Its title is its token.
fn save<K: Keeper, S: RegionStore<Page>>(
    alloc: Global,
    farm: &mut Farm<K, S>,
    title: &str,
    text: &str,
) -> Result<(), Fail> {
    let asked = Asked::Edit(EditAsk {
        client: ClientId::number(1),
        token: Token::parse(alloc, title)?,
        title: Title::parse(alloc, title)?,
        base: 0,
        text: Text::parse(alloc, text)?,
    });
    if farm.is_open(1) || farm.arrive(both(5_000), 1, asked).is_some() {
        return Err(Fail::new("the edit did not arrive"));
    }
    commit(farm)
}

fn commit<K: Keeper, S: RegionStore<Page>>(farm: &mut Farm<K, S>) -> Result<(), Fail> {
    if !farm.is_whole() || farm.begin(both(5_000), 1).is_some() {
        return Err(Fail::new("the edit did not begin"));
    }
    if !farm.is_whole() {
        return Err(Fail::new("a cache is lent"));
    }
    farm.commit(both(5_000), 1);
    Ok(())
}

/// Both clocks read this.
pub fn both(milliseconds: u64) -> Readings {
    Readings {
        home: Moment(milliseconds),
        west: Moment(milliseconds),
    }
}

/// A connection over this input, which moves at most `piece` bytes a call; no call fails.
pub fn conn_of(alloc: Global, input: &[u8], piece: usize) -> Result<MemConn, Fail> {
    conn_failing(alloc, input, piece, Vec::new(alloc), Vec::new(alloc))
}

/// The same, whose reads and writes of these numbers fail.
pub fn conn_failing(
    alloc: Global,
    input: &[u8],
    piece: usize,
    reads: Vec<u64>,
    writes: Vec<u64>,
) -> Result<MemConn, Fail> {
    let mut bytes = Vec::new(alloc);
    bytes.extend_from_slice(input)?;
    let peer = String::from_str(alloc, "192.0.2.7")?;
    if piece == 0 {
        return Err(Fail::new("a call moves one byte at least"));
    }
    Ok(MemConn::new(alloc, bytes, peer, piece, reads, writes))
}

/// Serves the connection at this moment of both regions, with words that are 0.
pub fn serve_at<R: AllocGlobal + Threads + Sync, K: Keeper, X: Conn, W: Wire>(
    rt: &R,
    served: &mut ServedFarm<K, SlotCache<Page>>,
    conn: &mut X,
    wire: &mut W,
    now: u64,
) -> Result<ConnEnd, Fail> {
    let mut clock = MemClock::new(Vec::new(rt.alloc()), both(now));
    serve_by(rt, served, conn, wire, &mut clock)
}

/// Serves the connection by this clock, with words that are 0.
pub fn serve_by<R: AllocGlobal + Threads + Sync, K: Keeper, X: Conn, W: Wire, C: Clock>(
    rt: &R,
    served: &mut ServedFarm<K, SlotCache<Page>>,
    conn: &mut X,
    wire: &mut W,
    clock: &mut C,
) -> Result<ConnEnd, Fail> {
    let mut lots = MemLots::new(Vec::new(rt.alloc()), 0);
    serve(rt, served, conn, clock, &mut lots, wire)
}

/// Serves the connection, if its conditions hold: every test serves through here.
fn serve<R: AllocGlobal + Threads + Sync, K: Keeper, X: Conn, C: Clock, L: Lots, W: Wire>(
    rt: &R,
    served: &mut ServedFarm<K, SlotCache<Page>>,
    conn: &mut X,
    clock: &mut C,
    lots: &mut L,
    wire: &mut W,
) -> Result<ConnEnd, Fail> {
    if !served.farm.is_whole() || served.farm.is_open(0) {
        return Err(Fail::new("the farm is not ready to be served"));
    }
    Ok(serve_conn(rt, served, conn, clock, lots, wire))
}

/// What one connection wrote, and how it ended.
pub struct Talked {
    pub end: ConnEnd,
    pub text: String,
}

/// Serves this input at 5,000 on an empty farm, in calls of any size.
pub fn talk<R: AllocGlobal + Threads + Sync>(rt: &R, input: &[u8]) -> Result<Talked, Fail> {
    talk_in_pieces(rt, input, 65_536)
}

pub fn talk_in_pieces<R: AllocGlobal + Threads + Sync>(
    rt: &R,
    input: &[u8],
    piece: usize,
) -> Result<Talked, Fail> {
    let mut conn = conn_of(rt.alloc(), input, piece)?;
    let end = serve_new(rt, &mut conn)?;
    Ok(Talked {
        end,
        text: written(rt.alloc(), &conn)?,
    })
}

/// Serves the connection at 5,000 on an empty farm.
pub fn serve_new<R: AllocGlobal + Threads + Sync, X: Conn>(
    rt: &R,
    conn: &mut X,
) -> Result<ConnEnd, Fail> {
    serve_over(rt, MemKeeper::new(rt.alloc()), conn)
}

/// Serves the connection at 5,000 on a farm over this keeper.
fn serve_over<R: AllocGlobal + Threads + Sync, K: Keeper + Drop, X: Conn>(
    rt: &R,
    keeper: K,
    conn: &mut X,
) -> Result<ConnEnd, Fail> {
    let mut served = small_farm(rt.alloc(), keeper)?;
    let mut wire = FarmWire::new(rt.alloc());
    serve_at(rt, &mut served, conn, &mut wire, 5_000)
}

/// What is written for this input at 30,000, over this wire.
pub fn said_later<R: AllocGlobal + Threads + Sync, K: Keeper, W: Wire>(
    rt: &R,
    served: &mut ServedFarm<K, SlotCache<Page>>,
    wire: &mut W,
    input: &str,
) -> Result<String, Fail> {
    said_at(rt, served, wire, 30_000, input)
}

/// What is written for this input at 5,000, over a wire of its own.
pub fn said_at_once<R: AllocGlobal + Threads + Sync, K: Keeper>(
    rt: &R,
    served: &mut ServedFarm<K, SlotCache<Page>>,
    input: &str,
) -> Result<String, Fail> {
    let mut wire = FarmWire::new(rt.alloc());
    said_at(rt, served, &mut wire, 5_000, input)
}

/// What is written for this input at this moment of both regions, over this wire.
pub fn said_at<R: AllocGlobal + Threads + Sync, K: Keeper, W: Wire>(
    rt: &R,
    served: &mut ServedFarm<K, SlotCache<Page>>,
    wire: &mut W,
    now: u64,
    input: &str,
) -> Result<String, Fail> {
    let mut clock = MemClock::new(Vec::new(rt.alloc()), both(now));
    said_by(rt, served, wire, &mut clock, input)
}

/// What is written for this input by this clock, over this wire.
pub fn said_by<R: AllocGlobal + Threads + Sync, K: Keeper, W: Wire, C: Clock>(
    rt: &R,
    served: &mut ServedFarm<K, SlotCache<Page>>,
    wire: &mut W,
    clock: &mut C,
    input: &str,
) -> Result<String, Fail> {
    let mut conn = conn_of(rt.alloc(), input.as_bytes(), 65_536)?;
    is_closed(serve_by(rt, served, &mut conn, wire, clock)?)?;
    written(rt.alloc(), &conn)
}

fn is_closed(end: ConnEnd) -> Result<(), Fail> {
    match end {
        ConnEnd::Closed => Ok(()),
        _ => Err(Fail::new("the connection was not closed")),
    }
}

/// What was written over the connection.
pub fn written(alloc: Global, conn: &MemConn) -> Result<String, Fail> {
    Ok(String::from_str(alloc, str::from_utf8(conn.written())?)?)
}

/// So many messages were sent.
pub fn has_sent<K: Keeper, S: RegionStore<Page>>(
    rt: &impl Abort,
    served: &ServedFarm<K, S>,
    count: u64,
) -> Result<(), Fail> {
    assert_eq!(rt; served.sent, count);
    Ok(())
}

/// Whether west has received the first purge.
pub fn has_received<K: Keeper, S: RegionStore<Page>>(
    rt: &impl Abort,
    served: &ServedFarm<K, S>,
    wanted: bool,
) -> Result<(), Fail> {
    assert_eq!(rt; served.farm.receipt(1, Region::West).is_some(), wanted);
    Ok(())
}
