// Layouts, histories that are there already, and keepers that fail.
use crate::failing_keeper::FailingKeeper;
use crate::setting::{always, both, door_of, end_by_layout, host_of, host_on, keeper_after, said};
use farm_base::{Clock, MemClock, MemDoor};
use revision_keeper::{Keeper, MemKeeper};
use std::alloc::Global;
use std::process::Abort;
use std::test::Fail;
use std::thread::Threads;
use wiki_host::{HostEnd, Hosted};

const WHOLE: &str = "\
[home]
weights = [3, 1]
slots = 256

[west]
weights = [1]
slots = 512

[farm]
epoch = 0
workers = 2
pace = 100
commit_delay = 2000
read_lag = 5000
skew = 500
";

#[test]
fn a_layout_says_replicas_slots_workers_and_bounds(rt: HostRuntime) -> Result<(), Fail> {
    let end = end_by_layout(&rt, rt.alloc(), WHOLE)?;
    assert_eq!(rt; end, HostEnd::Served { connections: 2 });
    Ok(())
}

#[test]
fn a_layout_is_refused_by_the_first_rule_that_it_breaks(rt: HostRuntime) -> Result<(), Fail> {
    let end = end_by_layout(&rt, rt.alloc(), "[home\n")?;
    assert_eq!(rt; end, HostEnd::BadLayout { rule: 1 });
    let end = end_by_layout(&rt, rt.alloc(), "[east]\nslots = 1\n")?;
    assert_eq!(rt; end, HostEnd::BadLayout { rule: 2 });
    let end = end_by_layout(&rt, rt.alloc(), "[home]\nslots = \"1\"\n")?;
    assert_eq!(rt; end, HostEnd::BadLayout { rule: 3 });
    let end = end_by_layout(&rt, rt.alloc(), "[home]\nslots = 1\n")?;
    assert_eq!(rt; end, HostEnd::BadLayout { rule: 4 });
    Ok(())
}

#[test]
fn a_refused_layout_reads_no_clock_and_takes_no_connection(rt: HostRuntime) -> Result<(), Fail> {
    let mut door = door_of(rt.alloc(), "", "", 0)?;
    reads_no_clock(&rt, rt.alloc(), &mut door)?;
    assert!(rt; door.returned(0).is_none());
    Ok(())
}

fn reads_no_clock<R: Threads + Sync + Abort>(
    rt: &R,
    alloc: Global,
    door: &mut MemDoor,
) -> Result<(), Fail> {
    let host = host_of(alloc, MemKeeper::new(alloc), "[home]\nslots = 1\n", 2)?;
    let mut clock = MemClock::new([both(7)].to_vec(alloc)?, both(9));
    let Hosted { end, .. } = host_on(rt, alloc, host, door, &mut clock);
    assert_eq!(rt; end, HostEnd::BadLayout { rule: 4 });
    assert_eq!(rt; clock.readings().home.0, 7);
    Ok(())
}

const SAVING: &str = "\
POST /edit HTTP/1.1\r
Host: wiki.example\r
Content-Length: 31\r
\r
title=A&base=0&token=k&text=one";

const READING: &str = "GET /wiki/A HTTP/1.0\r\nHost: wiki.example\r\n\r\n";

#[test]
fn a_second_hosting_goes_on_with_the_history(rt: HostRuntime) -> Result<(), Fail> {
    let mut door = door_of(rt.alloc(), READING, "", 0)?;
    goes_on(&rt, rt.alloc(), &mut door)?;
    let text = said(rt.alloc(), &door, 0)?;
    assert!(rt; text.as_str().ends_with("<h1>A</h1>\n<p>one</p>\n"));
    Ok(())
}

fn goes_on<R: Threads + Sync + Abort>(
    rt: &R,
    alloc: Global,
    door: &mut MemDoor,
) -> Result<(), Fail> {
    let host = host_of(alloc, keeper_after(rt, alloc, SAVING)?, WHOLE, 1)?;
    let mut clock = always(alloc, 5_000);
    let Hosted { end, .. } = host_on(rt, alloc, host, door, &mut clock);
    assert_eq!(rt; end, HostEnd::Served { connections: 1 });
    Ok(())
}

#[test]
fn a_keeper_that_fails_at_its_start_opens_nothing(rt: HostRuntime) -> Result<(), Fail> {
    let mut door = door_of(rt.alloc(), READING, "", 0)?;
    opens_nothing(&rt, rt.alloc(), &mut door)?;
    assert!(rt; door.returned(0).is_none());
    Ok(())
}

fn opens_nothing<R: Threads + Sync + Abort>(
    rt: &R,
    alloc: Global,
    door: &mut MemDoor,
) -> Result<(), Fail> {
    let keeper = FailingKeeper::new(alloc, [1u64].to_vec(alloc)?);
    // The layout is a faulty one, and is not read.
    let host = host_of(alloc, keeper, "[home", 1)?;
    let mut clock = always(alloc, 5_000);
    let Hosted { keeper, end } = host_on(rt, alloc, host, door, &mut clock);
    assert_eq!(rt; end, HostEnd::StoreFault);
    let mut keeper = keeper;
    assert!(rt; matches!(keeper.start(), Ok(())));
    Ok(())
}
