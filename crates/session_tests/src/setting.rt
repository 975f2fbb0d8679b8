// A drill over forms in memory, and the report that it must write.
use farm_base::{MemClock, MemDoor, MemLots, MemSink, Moment, Readings, SureSource};
use purge_relay::FarmWire;
use revision_keeper::MemKeeper;
use std::alloc::Global;
use std::process::Abort;
use std::test::Fail;
use std::thread::Threads;
use wiki_cli::{Outside, Status, run};

// What the clocks show as long as a drill lasts.
const STILL: Readings = Readings {
    home: Moment(0),
    west: Moment(0),
};

/// A drill of this script over an empty keeper is done, and writes this report.
pub fn assert_report<R: Abort + Threads + Sync>(
    rt: &R,
    alloc: Global,
    script: &str,
    report: &str,
) -> Result<(), Fail> {
    let (status, sink) = drilled(rt, alloc, script)?;
    assert_eq!(rt; std::str::from_utf8(sink.bytes())?, report);
    assert_eq!(rt; status, Status::Ok);
    Ok(())
}

// How a drill of this script ended, and what it wrote. Nothing comes through the door, and the clocks stand.
fn drilled<R: Threads + Sync>(
    rt: &R,
    alloc: Global,
    script: &str,
) -> Result<(Status, MemSink), Fail> {
    let mut words = Vec::new(alloc);
    words.push(String::from_str(alloc, "drill")?)?;
    let mut outside = Outside {
        source: SureSource::new(script.as_bytes().to_vec(alloc)?),
        sink: MemSink::new(alloc, Vec::new(alloc)),
        keeper: Some(MemKeeper::new(alloc)),
        door: MemDoor::new(Vec::new(alloc), Vec::new(alloc)),
        clock: MemClock::new(Vec::new(alloc), STILL),
        lots: MemLots::new(Vec::new(alloc), 0),
        wire: FarmWire::new(alloc),
    };
    let status = run(rt, alloc, &words, &mut outside);
    let Outside { sink, .. } = outside;
    Ok((status, sink))
}
