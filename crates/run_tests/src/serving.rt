// The command `serve`: a layout is read, connections are served, and one line says how it ended.
use crate::failing_keeper::FailingKeeper;
use crate::setting::{owned, source_of, text_of};
use farm_base::{MemClock, MemConn, MemDoor, MemLots, MemSink, Moment, Readings};
use purge_relay::FarmWire;
use revision_keeper::{Keeper, MemKeeper};
use std::alloc::Global;
use std::process::Abort;
use std::str;
use std::test::Fail;
use std::thread::Threads;
use wiki_cli::{Outside, Status, run};

/// What a run of `serve` is given: its words, its layout, the inputs of the door's connections, and which reads of the
/// layout, writes of the line and calls of the door fail, counted from 1.
#[derive(Clone, Copy)]
struct Given<'a> {
    words: &'a [&'a str],
    layout: &'a str,
    inputs: &'a [&'a str],
    reads: &'a [u64],
    writes: &'a [u64],
    doors: &'a [u64],
}

/// These words and the default layout; the door has connections with these inputs, and no call fails.
fn serving<'a>(words: &'a [&'a str], inputs: &'a [&'a str]) -> Given<'a> {
    Given {
        words,
        layout: "",
        inputs,
        reads: &[],
        writes: &[],
        doors: &[],
    }
}

/// How the run ended, what it wrote, and the door.
#[derive(Drop)]
struct Outcome {
    status: Status,
    text: String,
    door: MemDoor,
}

/// A run over this keeper; both clocks always read 5,000, and all words are 0.
fn outcome_on<R: Threads + Sync, K: Keeper + Drop>(
    rt: &R,
    alloc: Global,
    keeper: K,
    given: Given<'_>,
) -> Result<Outcome, Fail> {
    let source = source_of(alloc, given.layout.as_bytes(), given.reads)?;
    let sink = MemSink::new(alloc, given.writes.to_vec(alloc)?);
    let door = door_of(alloc, given.inputs, given.doors)?;
    let words = owned(alloc, given.words)?;
    let now = Readings {
        home: Moment(5_000),
        west: Moment(5_000),
    };
    let mut outside = Outside {
        source,
        sink,
        door,
        keeper: Some(keeper),
        clock: MemClock::new(Vec::new(alloc), now),
        lots: MemLots::new(Vec::new(alloc), 0),
        wire: FarmWire::new(alloc),
    };
    let status = run(rt, alloc, &words, &mut outside);
    let Outside {
        sink,
        keeper,
        door,
        ..
    } = outside;
    match keeper {
        Some(_) => ended(alloc, status, &sink, door),
        None => Err(Fail::new("the keeper was not given back")),
    }
}

fn ended(alloc: Global, status: Status, sink: &MemSink, door: MemDoor) -> Result<Outcome, Fail> {
    let text = text_of(alloc, sink)?;
    Ok(Outcome { status, text, door })
}

/// A run over an empty history.
fn outcome_of<R: Threads + Sync>(rt: &R, alloc: Global, given: Given<'_>) -> Result<Outcome, Fail> {
    outcome_on(rt, alloc, MemKeeper::new(alloc), given)
}

/// A door over connections with these inputs; the calls of `next` of these numbers fail.
fn door_of(alloc: Global, inputs: &[&str], failing: &[u64]) -> Result<MemDoor, Fail> {
    let mut conns = Vec::new(alloc);
    for input in inputs {
        conns.push(conn_of(alloc, input)?)?;
    }
    Ok(MemDoor::new(conns, failing.to_vec(alloc)?))
}

fn conn_of(alloc: Global, input: &str) -> Result<MemConn, Fail> {
    Ok(MemConn::new(
        alloc,
        input.as_bytes().to_vec(alloc)?,
        String::from_str(alloc, "192.0.2.7")?,
        4_096,
        Vec::new(alloc),
        Vec::new(alloc),
    ))
}

/// This was written over the connection that the door gave at this place.
fn has_said(
    rt: &impl Abort,
    alloc: Global,
    door: &MemDoor,
    place: usize,
    wanted: &str,
) -> Result<(), Fail> {
    let text = said(alloc, door, place)?;
    assert_eq!(rt; text.as_str(), wanted);
    Ok(())
}

/// What was written over the connection that the door gave at this place, counted from 0.
fn said(alloc: Global, door: &MemDoor, place: usize) -> Result<String, Fail> {
    match door.returned(place) {
        Some(conn) => Ok(String::from_str(alloc, str::from_utf8(conn.written())?)?),
        None => Err(Fail::new("it was not handed back")),
    }
}

const SAVING: &str = "\
POST /edit HTTP/1.1\r
Host: wiki.example\r
Content-Length: 31\r
Cookie: cpPosIndex=1@5#00000000000000000000000000000001\r
\r
title=A&base=0&token=k&text=one";

const READING: &str = "\
GET /wiki/A HTTP/1.1\r
Host: wiki.example\r
Cookie: cpPosIndex=1@5#00000000000000000000000000000001\r
\r
";

const SAVED: &str = "\
HTTP/1.1 303 See Other\r
Content-Type: text/plain; charset=utf-8\r
Content-Length: 36\r
Location: /wiki/A\r
Set-Cookie: cpPosIndex=1@5#00000000000000000000000000000001; Max-Age=10; Path=/\r
Set-Cookie: UseDC=master; Max-Age=10; Path=/\r
Set-Cookie: UseCDNCache=false; Max-Age=10; Path=/\r
Connection: keep-alive\r
\r
saved entry=2 revision=1 cookie=1@5
";

const READ: &str = "\
HTTP/1.1 200 OK\r
Content-Type: text/html; charset=utf-8\r
Content-Length: 55\r
Wiki-Source: 2\r
Wiki-From: replica:0\r
Wiki-Lagged: 0\r
Connection: keep-alive\r
\r
<!DOCTYPE html>
<title>A</title>
<h1>A</h1>
<p>one</p>
";

#[test]
fn an_edit_and_a_view_are_served_on_one_connection(rt: HostRuntime) -> Result<(), Fail> {
    let alloc = rt.alloc();
    let input = format!(in alloc; "{SAVING}{READING}")?;
    let wanted = format!(in alloc; "{SAVED}{READ}")?;
    let found = outcome_of(&rt, alloc, serving(&["serve"], &[&input]))?;
    assert_eq!(rt; found.text.as_str(), "served connections=1\n");
    assert_eq!(rt; found.status, Status::Ok);
    has_said(&rt, alloc, &found.door, 0, wanted.as_str())
}

#[test]
fn connections_are_served_one_after_another(rt: HostRuntime) -> Result<(), Fail> {
    let alloc = rt.alloc();
    let words = &["serve", "--connections", "2"];
    let found = outcome_of(&rt, alloc, serving(words, &[SAVING, READING, READING]))?;
    assert_eq!(rt; found.text.as_str(), "served connections=2\n");
    assert!(rt; found.door.returned(2).is_none());
    has_said(&rt, alloc, &found.door, 0, SAVED)?;
    has_said(&rt, alloc, &found.door, 1, READ)
}

#[test]
fn a_door_that_has_no_more_ends_the_serving(rt: HostRuntime) -> Result<(), Fail> {
    let given = serving(&["serve", "--connections=5", "--store", "x"], &["", ""]);
    let found = outcome_of(&rt, rt.alloc(), given)?;
    assert_eq!(rt; found.text.as_str(), "served connections=2\n");
    assert_eq!(rt; found.status, Status::Ok);
    Ok(())
}

// A layout, and the first rule that it breaks: it is no document, a name is unknown, a value is of another kind, a
// number is out of its range.
const REFUSED: [(&str, u8); 9] = [
    ("=", 1),
    ("[home\n", 1),
    ("[edge]\n", 2),
    ("[home]\nslots = 1\n\n[edge]\n", 2),
    ("[farm]\npace = \"x\"\n", 3),
    ("[farm]\npace = 0\n", 4),
    ("[farm]\nskew = 0\n", 4),
    ("[home]\nslots = 1\n", 4),
    ("[west]\nweights = []\n", 4),
];

#[test]
fn a_layout_is_refused_by_the_first_rule_that_it_breaks(rt: HostRuntime) -> Result<(), Fail> {
    for (layout, rule) in REFUSED {
        assert_refused(&rt, rt.alloc(), layout, rule)?;
    }
    Ok(())
}

fn assert_refused<R: Abort + Threads + Sync>(
    rt: &R,
    alloc: Global,
    layout: &str,
    rule: u8,
) -> Result<(), Fail> {
    let given = Given {
        layout,
        ..serving(&["serve"], &[READING])
    };
    let found = outcome_of(rt, alloc, given)?;
    let wanted = format!(in alloc; "layout rule={rule}\n")?;
    assert_eq!(rt; found.text.as_str(), wanted.as_str());
    assert_eq!(rt; found.status, Status::Layout { rule });
    assert!(rt; found.door.returned(0).is_none());
    Ok(())
}

const WHOLE: &str = "\
[home]
weights = [3, 1]
slots = 4096

[west]
weights = [1]
slots = 4096

[farm]
epoch = 0
workers = 2
pace = 1000
";

#[test]
fn a_layout_may_name_each_key(rt: HostRuntime) -> Result<(), Fail> {
    let alloc = rt.alloc();
    let given = Given {
        layout: WHOLE,
        ..serving(&["serve"], &[SAVING])
    };
    let found = outcome_of(&rt, alloc, given)?;
    assert_eq!(rt; found.text.as_str(), "served connections=1\n");
    assert_eq!(rt; found.status, Status::Ok);
    has_said(&rt, alloc, &found.door, 0, SAVED)
}

#[test]
fn a_layout_that_is_too_long_is_no_document(rt: HostRuntime) -> Result<(), Fail> {
    let alloc = rt.alloc();
    let layout = "#".repeat(alloc, 65_537)?;
    let given = Given {
        layout: &layout,
        ..serving(&["serve"], &[READING])
    };
    let found = outcome_of(&rt, alloc, given)?;
    assert_eq!(rt; found.text.as_str(), "layout rule=1\n");
    assert_eq!(rt; found.status, Status::Layout { rule: 1 });
    Ok(())
}

#[test]
fn a_door_that_fails_is_named(rt: HostRuntime) -> Result<(), Fail> {
    let alloc = rt.alloc();
    let given = Given {
        doors: &[2],
        ..serving(&["serve", "--connections", "2"], &[SAVING, READING])
    };
    let found = outcome_of(&rt, alloc, given)?;
    assert_eq!(rt; found.text.as_str(), "door-fault\n");
    assert_eq!(rt; found.status, Status::DoorFault);
    has_said(&rt, alloc, &found.door, 0, SAVED)
}

#[test]
fn a_keeper_that_cannot_be_made_ready_is_named(rt: HostRuntime) -> Result<(), Fail> {
    let alloc = rt.alloc();
    let keeper = FailingKeeper::new(alloc, (&[1u64]).to_vec(alloc)?, Vec::new(alloc));
    // The layout would be refused, and is not read.
    let given = Given {
        layout: "[home",
        reads: &[1],
        ..serving(&["serve"], &[READING])
    };
    let found = outcome_on(&rt, alloc, keeper, given)?;
    assert_eq!(rt; found.text.as_str(), "store-fault\n");
    assert_eq!(rt; found.status, Status::StoreFault);
    Ok(())
}

#[test]
fn a_layout_that_cannot_be_read_is_named(rt: HostRuntime) -> Result<(), Fail> {
    let given = Given {
        reads: &[1],
        ..serving(&["serve"], &[READING])
    };
    let found = outcome_of(&rt, rt.alloc(), given)?;
    assert_eq!(rt; found.text.as_str(), "read-fault\n");
    assert_eq!(rt; found.status, Status::ReadFault);
    assert!(rt; found.door.returned(0).is_none());
    Ok(())
}

#[test]
fn a_line_that_cannot_be_written_leaves_what_was_served(rt: HostRuntime) -> Result<(), Fail> {
    let alloc = rt.alloc();
    let given = Given {
        writes: &[1],
        ..serving(&["serve"], &[SAVING])
    };
    let found = outcome_of(&rt, alloc, given)?;
    assert_eq!(rt; found.text.as_str(), "");
    assert_eq!(rt; found.status, Status::WriteFault);
    has_said(&rt, alloc, &found.door, 0, SAVED)
}

const USAGE: &str =
    "usage: wiki drill | wiki stir SEED STEPS | wiki serve [--connections N] [--store PATH]\n";

#[test]
fn words_that_are_no_options_serve_nothing(rt: HostRuntime) -> Result<(), Fail> {
    let alloc = rt.alloc();
    let refused: &[&[&str]] = &[
        &["serve", "--connections", "0"],
        &["serve", "--connections", "01"],
        &["serve", "--connections=1000001"],
        &["serve", "--connections=1", "--connections=1"],
        &["serve", "--store", "-x"],
        &["serve", "--store="],
        &["serve", "--link"],
        &["serve", "--help"],
    ];
    for words in refused {
        let found = outcome_of(&rt, alloc, serving(words, &[READING]))?;
        assert_eq!(rt; found.text.as_str(), USAGE);
        assert_eq!(rt; found.status, Status::Usage);
        assert!(rt; found.door.returned(0).is_none());
    }
    Ok(())
}
