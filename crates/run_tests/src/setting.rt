// One run over forms in memory.
use farm_base::{MemClock, MemDoor, MemLots, MemSink, MemSource, Moment, Readings, Sink, Source};
use purge_relay::FarmWire;
use revision_keeper::{Keeper, MemKeeper};
use std::alloc::Global;
use std::process::Abort;
use std::test::Fail;
use std::thread::Threads;
use wiki_cli::{Outside, Status, run};

/// What a run is given: its words, its input, and which reads and writes fail, counted from 1.
#[derive(Clone, Copy)]
pub struct Given<'a> {
    pub words: &'a [&'a str],
    pub input: &'a [u8],
    pub reads: &'a [u64],
    pub writes: &'a [u64],
}

/// A drill of this input in which no read and no write fails.
pub fn drill_of(input: &[u8]) -> Given<'_> {
    Given {
        words: &["drill"],
        input,
        reads: &[],
        writes: &[],
    }
}

/// These words and an empty script; no read and no write fails.
pub fn words_of<'a>(words: &'a [&'a str]) -> Given<'a> {
    Given {
        words,
        input: b"end\n",
        reads: &[],
        writes: &[],
    }
}

/// How a run ended, all that it wrote, and the keeper that it gave back.
#[derive(Drop)]
pub struct Outcome<K: Drop> {
    pub status: Status,
    pub text: String,
    pub keeper: K,
}

/// A run over this keeper.
pub fn outcome_on<R: Threads + Sync, K: Keeper + Drop>(
    rt: &R,
    alloc: Global,
    keeper: K,
    given: Given<'_>,
) -> Result<Outcome<K>, Fail> {
    let source = source_of(alloc, given.input, given.reads)?;
    let sink = MemSink::new(alloc, given.writes.to_vec(alloc)?);
    let (status, sink, keeper) = run_over(rt, alloc, given.words, source, sink, keeper)?;
    let text = text_of(alloc, &sink)?;
    Ok(Outcome {
        status,
        text,
        keeper,
    })
}

/// A source of this input; its reads of these numbers fail.
pub fn source_of(alloc: Global, input: &[u8], reads: &[u64]) -> Result<MemSource, Fail> {
    Ok(MemSource::new(input.to_vec(alloc)?, reads.to_vec(alloc)?))
}

/// What was written.
pub fn text_of(alloc: Global, sink: &MemSink) -> Result<String, Fail> {
    Ok(String::from_str(alloc, std::str::from_utf8(sink.bytes())?)?)
}

/// A run over an empty keeper.
pub fn outcome_of<R: Threads + Sync>(
    rt: &R,
    alloc: Global,
    given: Given<'_>,
) -> Result<Outcome<MemKeeper>, Fail> {
    outcome_on(rt, alloc, MemKeeper::new(alloc), given)
}

/// A run over these streams and this keeper: how it ended, the sink, and the keeper that was given back. Nothing comes
/// through the door, and the clocks stand.
pub fn run_over<R: Threads + Sync, I: Source + Drop, O: Sink + Drop, K: Keeper + Drop>(
    rt: &R,
    alloc: Global,
    words: &[&str],
    source: I,
    sink: O,
    keeper: K,
) -> Result<(Status, O, K), Fail> {
    let words = owned(alloc, words)?;
    let still = Readings {
        home: Moment(0),
        west: Moment(0),
    };
    let mut outside = Outside {
        source,
        sink,
        door: MemDoor::new(Vec::new(alloc), Vec::new(alloc)),
        keeper: Some(keeper),
        clock: MemClock::new(Vec::new(alloc), still),
        lots: MemLots::new(Vec::new(alloc), 0),
        wire: FarmWire::new(alloc),
    };
    let status = run(rt, alloc, &words, &mut outside);
    let Outside { sink, keeper, .. } = outside;
    match keeper {
        Some(keeper) => Ok((status, sink, keeper)),
        None => Err(Fail::new("the keeper was not given back")),
    }
}

/// The words as texts of their own.
pub fn owned(alloc: Global, words: &[&str]) -> Result<Vec<String>, Fail> {
    let mut owned = Vec::new(alloc);
    for word in words {
        owned.push(String::from_str(alloc, word)?)?;
    }
    Ok(owned)
}

/// A drill of this script over this keeper is done, and writes this report.
pub fn assert_report_on<R: Abort + Threads + Sync, K: Keeper + Drop>(
    rt: &R,
    alloc: Global,
    keeper: K,
    script: &str,
    report: &str,
) -> Result<(), Fail> {
    let found = outcome_on(rt, alloc, keeper, drill_of(script.as_bytes()))?;
    assert_eq!(rt; found.text.as_str(), report);
    assert_eq!(rt; found.status, Status::Ok);
    Ok(())
}

/// A drill of this script over an empty keeper is done, and writes this report.
pub fn assert_report<R: Abort + Threads + Sync>(
    rt: &R,
    alloc: Global,
    script: &str,
    report: &str,
) -> Result<(), Fail> {
    assert_report_on(rt, alloc, MemKeeper::new(alloc), script, report)
}
