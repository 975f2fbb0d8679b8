// A door over inputs, and hosting a wiki on it.
use farm_base::{MemClock, MemConn, MemDoor, MemLots, Moment, Readings};
use purge_relay::FarmWire;
use revision_keeper::{Keeper, MemKeeper};
use std::alloc::Global;
use std::process::Abort;
use std::str;
use std::test::Fail;
use std::thread::Threads;
use wiki_host::{Host, HostEnd, Hosted, serve_door};

/// Both clocks read this.
pub fn both(milliseconds: u64) -> Readings {
    Readings {
        home: Moment(milliseconds),
        west: Moment(milliseconds),
    }
}

/// Both clocks always read this.
pub fn always(alloc: Global, milliseconds: u64) -> MemClock {
    MemClock::new(Vec::new(alloc), both(milliseconds))
}

/// A connection over this input, which moves at most 4,096 bytes a call; no call fails.
pub fn conn_of(alloc: Global, input: &str) -> Result<MemConn, Fail> {
    let mut bytes = Vec::new(alloc);
    bytes.extend_from_slice(input.as_bytes())?;
    let peer = String::from_str(alloc, "192.0.2.7")?;
    Ok(MemConn::new(alloc, bytes, peer, 4_096, Vec::new(alloc), Vec::new(alloc)))
}

/// A door over two connections with these inputs; the call of `next` of this number fails, or none if it is 0.
pub fn door_of(alloc: Global, first: &str, second: &str, failing: u64) -> Result<MemDoor, Fail> {
    let mut conns = Vec::new(alloc);
    conns.push(conn_of(alloc, first)?)?;
    conns.push(conn_of(alloc, second)?)?;
    let mut calls = Vec::new(alloc);
    calls.push(failing)?;
    Ok(MemDoor::new(conns, calls))
}

/// A hosting of so many connections by this layout, over this keeper.
pub fn host_of<K: Keeper + Drop>(
    alloc: Global,
    keeper: K,
    layout: &str,
    wanted: u64,
) -> Result<Host<K>, Fail> {
    let mut bytes = Vec::new(alloc);
    bytes.extend_from_slice(layout.as_bytes())?;
    Ok(Host {
        keeper,
        layout: bytes,
        wanted,
    })
}

/// Hosts it on the door, with a wire of its own and words that are 0.
pub fn host_on<R: Threads + Sync, K: Keeper + Drop>(
    rt: &R,
    alloc: Global,
    host: Host<K>,
    door: &mut MemDoor,
    clock: &mut MemClock,
) -> Hosted<K> {
    let mut lots = MemLots::new(Vec::new(alloc), 0);
    let mut wire = FarmWire::new(alloc);
    serve_door(&(rt, alloc), host, door, clock, &mut lots, &mut wire)
}

/// Hosts so many connections of the door at 5,000 by the default layout, over an empty history; how that ended.
pub fn end_at<R: Threads + Sync>(
    rt: &R,
    alloc: Global,
    door: &mut MemDoor,
    wanted: u64,
) -> Result<HostEnd, Fail> {
    end_by(rt, alloc, door, "", wanted)
}

/// How a hosting by this layout ended, over an empty history at 5,000, with two connections that ask for nothing.
pub fn end_by_layout<R: Threads + Sync>(
    rt: &R,
    alloc: Global,
    layout: &str,
) -> Result<HostEnd, Fail> {
    let mut door = door_of(alloc, "", "", 0)?;
    end_by(rt, alloc, &mut door, layout, 2)
}

fn end_by<R: Threads + Sync>(
    rt: &R,
    alloc: Global,
    door: &mut MemDoor,
    layout: &str,
    wanted: u64,
) -> Result<HostEnd, Fail> {
    let host = host_of(alloc, MemKeeper::new(alloc), layout, wanted)?;
    let mut clock = always(alloc, 5_000);
    let Hosted { end, .. } = host_on(rt, alloc, host, door, &mut clock);
    Ok(end)
}

/// The keeper of a hosting at 5,000 of one connection with this input.
pub fn keeper_after<R: Threads + Sync>(
    rt: &R,
    alloc: Global,
    input: &str,
) -> Result<MemKeeper, Fail> {
    let mut door = door_of(alloc, input, "", 0)?;
    let host = host_of(alloc, MemKeeper::new(alloc), "", 1)?;
    let mut clock = always(alloc, 5_000);
    let Hosted { keeper, .. } = host_on(rt, alloc, host, &mut door, &mut clock);
    Ok(keeper)
}

/// What was written over the connection that the door gave at this place, counted from 0, once it was handed back.
pub fn said(alloc: Global, door: &MemDoor, place: usize) -> Result<String, Fail> {
    match door.returned(place) {
        Some(conn) => Ok(String::from_str(alloc, str::from_utf8(conn.written())?)?),
        None => Err(Fail::new("it was not handed back")),
    }
}

/// This was written over the connection of this place, which was handed back.
pub fn has_said(
    rt: &impl Abort,
    alloc: Global,
    door: &MemDoor,
    place: usize,
    wanted: &str,
) -> Result<(), Fail> {
    let text = said(alloc, door, place)?;
    assert_eq!(rt; text.as_str(), wanted);
    Ok(())
}
