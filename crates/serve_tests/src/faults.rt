// Each fault that an edit may meet, at each place: what is written, how the connection ends, and what is saved.
use crate::failing_wire::FailingWire;
use crate::setting::{
    READ, READING, SAVED, SAVING, conn_failing, farm_of_slots, has_received, has_sent, said_at,
    serve_at, small_farm, written,
};
use farm_base::{Conn, MemConn};
use farm_core::Page;
use purge_relay::{Deal, FarmWire, Wire};
use revision_keeper::{Keeper, MemKeeper};
use slot_cache::SlotCache;
use std::alloc::Global;
use std::process::Abort;
use std::str;
use std::test::Fail;
use std::thread::Threads;
use wiki_serve::{ConnEnd, ServedFarm};

/// A connection of which a call moves at most `piece` bytes, and of which the read and the write of these numbers fail,
/// counted from 1; 0: none.
#[derive(Clone, Copy)]
struct Calls {
    piece: usize,
    read: u64,
    write: u64,
}

/// No call fails.
const SURE: Calls = Calls {
    piece: 65_536,
    read: 0,
    write: 0,
};

/// How a connection ended and what was written over it; how many entries and messages there then are.
#[derive(Drop)]
struct Seen {
    end: ConnEnd,
    text: String,
    entries: u64,
    issued: u64,
}

/// Serves this input at 5,000.
fn see<R: AllocGlobal + Threads + Sync, K: Keeper>(
    rt: &R,
    served: &mut ServedFarm<K, SlotCache<Page>>,
    input: &[u8],
    calls: Calls,
) -> Result<Seen, Fail> {
    let mut conn = conn_by(rt.alloc(), input, calls)?;
    let end = serve_once(rt, served, &mut conn)?;
    seen_of(rt.alloc(), served, &conn, end)
}

fn conn_by(alloc: Global, input: &[u8], calls: Calls) -> Result<MemConn, Fail> {
    let reads = list_of_one(alloc, calls.read)?;
    let writes = list_of_one(alloc, calls.write)?;
    conn_failing(alloc, input, calls.piece, reads, writes)
}

fn list_of_one(alloc: Global, number: u64) -> Result<Vec<u64>, Fail> {
    let mut list = Vec::new(alloc);
    list.push(number)?;
    Ok(list)
}

fn serve_once<R: AllocGlobal + Threads + Sync, K: Keeper, X: Conn>(
    rt: &R,
    served: &mut ServedFarm<K, SlotCache<Page>>,
    conn: &mut X,
) -> Result<ConnEnd, Fail> {
    let mut wire = FarmWire::new(rt.alloc());
    serve_at(rt, served, conn, &mut wire, 5_000)
}

fn seen_of<K: Keeper>(
    alloc: Global,
    served: &mut ServedFarm<K, SlotCache<Page>>,
    conn: &MemConn,
    end: ConnEnd,
) -> Result<Seen, Fail> {
    let entries = served.farm.entries()?;
    Ok(Seen {
        end,
        text: written(alloc, conn)?,
        entries,
        issued: served.farm.issued(),
    })
}

/// The same on a new farm over this keeper.
fn see_new<R: AllocGlobal + Threads + Sync, K: Keeper + Drop>(
    rt: &R,
    keeper: K,
    input: &[u8],
    calls: Calls,
) -> Result<Seen, Fail> {
    let mut served = new_farm(rt.alloc(), keeper)?;
    see(rt, &mut served, input, calls)
}

/// A farm with as few slots as a cache may have, since many farms are made.
fn new_farm<K: Keeper + Drop>(
    alloc: Global,
    keeper: K,
) -> Result<ServedFarm<K, SlotCache<Page>>, Fail> {
    farm_of_slots(alloc, keeper, 256)
}

/// The number of entries and of messages.
#[derive(Clone, Copy)]
struct Counts {
    entries: u64,
    issued: u64,
}

const NOTHING: Counts = Counts {
    entries: 0,
    issued: 0,
};

/// A beat and the edit; its purge and its position.
const THE_EDIT: Counts = Counts {
    entries: 2,
    issued: 2,
};

fn assert_seen<R: Abort>(
    rt: &R,
    seen: Seen,
    end: ConnEnd,
    text: &str,
    counts: Counts,
) -> Result<(), Fail> {
    assert_eq!(rt; seen.text.as_str(), text);
    assert_eq!(rt; seen.end, end);
    assert_eq!(rt; seen.entries, counts.entries);
    assert_eq!(rt; seen.issued, counts.issued);
    Ok(())
}

#[test]
fn an_edit_that_is_cut_is_not_saved(rt: HostRuntime) -> Result<(), Fail> {
    let whole = SAVING.as_bytes();
    for length in 1..whole.len() {
        let (begun, _) = whole.split_at(length);
        let seen = see_new(&rt, MemKeeper::new(rt.alloc()), begun, SURE)?;
        assert_seen(&rt, seen, ConnEnd::Cut, "", NOTHING)?;
    }
    Ok(())
}

#[test]
fn a_connection_without_a_byte_is_closed(rt: HostRuntime) -> Result<(), Fail> {
    let seen = see_new(&rt, MemKeeper::new(rt.alloc()), b"", SURE)?;
    assert_seen(&rt, seen, ConnEnd::Closed, "", NOTHING)
}

// How many bytes a call moves, and how many reads the 230 bytes of the edit then take.
const READS: [(usize, u64); 4] = [(1, 230), (7, 33), (100, 3), (65_536, 1)];

// A call moves at most `piece` bytes, and the read of this number fails.
fn reading(piece: usize, read: u64) -> Calls {
    Calls {
        piece,
        read,
        write: 0,
    }
}

#[test]
fn an_edit_of_which_a_read_fails_is_not_saved(rt: HostRuntime) -> Result<(), Fail> {
    for (piece, reads) in READS {
        for before in 0..reads {
            let calls = reading(piece, before + 1);
            let seen = see_new(&rt, MemKeeper::new(rt.alloc()), SAVING.as_bytes(), calls)?;
            assert_seen(&rt, seen, ConnEnd::ReadFault, "", NOTHING)?;
        }
    }
    Ok(())
}

// The next read fails after the edit was answered; the one after that is never made.
#[test]
fn a_read_that_fails_after_an_edit_ends_the_connection(rt: HostRuntime) -> Result<(), Fail> {
    for (piece, reads) in READS {
        let calls = reading(piece, reads.saturating_add(1));
        let seen = see_new(&rt, MemKeeper::new(rt.alloc()), SAVING.as_bytes(), calls)?;
        assert_seen(&rt, seen, ConnEnd::ReadFault, SAVED, THE_EDIT)?;
        let calls = reading(piece, reads.saturating_add(2));
        let seen = see_new(&rt, MemKeeper::new(rt.alloc()), SAVING.as_bytes(), calls)?;
        assert_seen(&rt, seen, ConnEnd::Closed, SAVED, THE_EDIT)?;
    }
    Ok(())
}

// A call moves at most `piece` bytes, and the write of this number fails.
fn writing(piece: usize, write: u64) -> Calls {
    Calls {
        piece,
        read: 0,
        write,
    }
}

#[test]
fn an_edit_of_which_a_write_fails_is_saved_and_told_again(rt: HostRuntime) -> Result<(), Fail> {
    let whole = SAVED.as_bytes();
    for length in 0..whole.len() {
        let (part, _) = whole.split_at(length);
        leaves_a_part(&rt, MemKeeper::new(rt.alloc()), part)?;
    }
    Ok(())
}

// Byte by byte, the write after this part of the answer fails. The next connection with the same bytes gets all of it.
fn leaves_a_part<R: AllocGlobal + Threads + Sync + Abort, K: Keeper + Drop>(
    rt: &R,
    keeper: K,
    part: &[u8],
) -> Result<(), Fail> {
    let part = str::from_utf8(part)?;
    let calls = writing(1, (part.len() as u64).saturating_add(1));
    let mut served = new_farm(rt.alloc(), keeper)?;
    tells_part_and_all(rt, &mut served, calls, part)
}

fn tells_part_and_all<R: AllocGlobal + Threads + Sync + Abort, K: Keeper>(
    rt: &R,
    served: &mut ServedFarm<K, SlotCache<Page>>,
    calls: Calls,
    part: &str,
) -> Result<(), Fail> {
    tells_part(rt, served, calls, part)?;
    tells_all(rt, served)
}

fn tells_part<R: AllocGlobal + Threads + Sync + Abort, K: Keeper>(
    rt: &R,
    served: &mut ServedFarm<K, SlotCache<Page>>,
    calls: Calls,
    part: &str,
) -> Result<(), Fail> {
    let seen = see(rt, served, SAVING.as_bytes(), calls)?;
    assert_seen(rt, seen, ConnEnd::WriteFault, part, THE_EDIT)
}

fn tells_all<R: AllocGlobal + Threads + Sync + Abort, K: Keeper>(
    rt: &R,
    served: &mut ServedFarm<K, SlotCache<Page>>,
) -> Result<(), Fail> {
    let seen = see(rt, served, SAVING.as_bytes(), SURE)?;
    assert_seen(rt, seen, ConnEnd::Closed, SAVED, THE_EDIT)
}

#[test]
fn an_edit_whose_answer_was_lost_is_told_again(rt: HostRuntime) -> Result<(), Fail> {
    tells_again(&rt, MemKeeper::new(rt.alloc()))
}

fn tells_again<R: AllocGlobal + Threads + Sync + Abort, K: Keeper + Drop>(
    rt: &R,
    keeper: K,
) -> Result<(), Fail> {
    let mut served = small_farm(rt.alloc(), keeper)?;
    tells_part_and_all(rt, &mut served, writing(65_536, 1), "")
}

// How many bytes a call moves. With 7 the answer takes 52 writes, with more fewer.
const PIECES: [usize; 3] = [7, 100, 65_536];

#[test]
fn a_write_that_fails_leaves_a_part_of_the_answer(rt: HostRuntime) -> Result<(), Fail> {
    for piece in PIECES {
        for write in 1..54 {
            leaves_some(&rt, MemKeeper::new(rt.alloc()), writing(piece, write))?;
        }
    }
    Ok(())
}

// A part of the answer was written if a write failed, and else all of it; the edit is saved.
fn leaves_some<R: AllocGlobal + Threads + Sync + Abort, K: Keeper + Drop>(
    rt: &R,
    keeper: K,
    calls: Calls,
) -> Result<(), Fail> {
    let seen = see_new(rt, keeper, SAVING.as_bytes(), calls)?;
    let text = seen.text.as_str();
    assert!(rt; SAVED.starts_with(text));
    let whole = text.len() == SAVED.len();
    assert_eq!(rt; seen.end == ConnEnd::WriteFault, !whole);
    assert_eq!(rt; seen.end == ConnEnd::Closed, whole);
    assert_eq!(rt; seen.entries, 2);
    assert_eq!(rt; seen.issued, 2);
    Ok(())
}

const REFUSED: &str = "\
HTTP/1.1 502 Bad Gateway\r
Content-Type: text/plain; charset=utf-8\r
Content-Length: 6\r
Connection: keep-alive\r
\r
store
";

// The first append is the beat's, the second the edit's.
#[test]
fn an_append_that_fails_is_told(rt: HostRuntime) -> Result<(), Fail> {
    let keeper = MemKeeper::failing(rt.alloc(), list_of_one(rt.alloc(), 2)?);
    let seen = see_new(&rt, keeper, SAVING.as_bytes(), SURE)?;
    let beat_and_purge = Counts {
        entries: 1,
        issued: 1,
    };
    assert_seen(&rt, seen, ConnEnd::Closed, REFUSED, beat_and_purge)
}

#[test]
fn an_edit_that_the_keeper_refused_may_come_again(rt: HostRuntime) -> Result<(), Fail> {
    let keeper = MemKeeper::failing(rt.alloc(), list_of_one(rt.alloc(), 2)?);
    let twice = format!(in rt.alloc(); "{SAVING}{SAVING}")?;
    let seen = see_new(&rt, keeper, twice.as_bytes(), SURE)?;
    let wanted = format!(in rt.alloc(); "{REFUSED}{SAVED}")?;
    // The purge of the first try stays.
    let counts = Counts {
        entries: 2,
        issued: 3,
    };
    assert_seen(&rt, seen, ConnEnd::Closed, wanted.as_str(), counts)
}

const SAVED_AS_FIRST: &str = "\
HTTP/1.1 303 See Other\r
Content-Type: text/plain; charset=utf-8\r
Content-Length: 36\r
Location: /wiki/Caf%C3%A9_menu\r
Set-Cookie: cpPosIndex=1@5#00000000000000000000000000000001; Max-Age=10; Path=/\r
Set-Cookie: UseDC=master; Max-Age=10; Path=/\r
Set-Cookie: UseCDNCache=false; Max-Age=10; Path=/\r
Connection: keep-alive\r
\r
saved entry=1 revision=1 cookie=1@5
";

#[test]
fn a_beat_that_fails_is_not_told(rt: HostRuntime) -> Result<(), Fail> {
    let keeper = MemKeeper::failing(rt.alloc(), list_of_one(rt.alloc(), 1)?);
    let seen = see_new(&rt, keeper, SAVING.as_bytes(), SURE)?;
    let only_the_edit = Counts {
        entries: 1,
        issued: 2,
    };
    assert_seen(&rt, seen, ConnEnd::Closed, SAVED_AS_FIRST, only_the_edit)
}

#[test]
fn a_send_that_fails_leaves_the_messages_for_a_later_request(rt: HostRuntime) -> Result<(), Fail> {
    let mut wire = FailingWire::new(rt.alloc(), list_of_one(rt.alloc(), 1)?);
    sends_later(&rt, MemKeeper::new(rt.alloc()), &mut wire)
}

const ELSEWHERE: &str = "GET /wiki/B HTTP/1.1\r\nHost: wiki.example\r\n\r\n";

const NO_PAGE: &str = "\
HTTP/1.1 404 Not Found\r
Content-Type: text/plain; charset=utf-8\r
Content-Length: 17\r
Wiki-Source: 2\r
Connection: keep-alive\r
\r
no-page source=2
";

fn sends_later<R: AllocGlobal + Threads + Sync + Abort, K: Keeper + Drop, W: Wire>(
    rt: &R,
    keeper: K,
    wire: &mut W,
) -> Result<(), Fail> {
    let mut served = small_farm(rt.alloc(), keeper)?;
    sends_at_last(rt, &mut served, wire)
}

fn sends_at_last<R: AllocGlobal + Threads + Sync + Abort, K: Keeper, W: Wire>(
    rt: &R,
    served: &mut ServedFarm<K, SlotCache<Page>>,
    wire: &mut W,
) -> Result<(), Fail> {
    saves_and_reads(rt, served, wire)?;
    has_sent(rt, served, 0)?;
    has_received(rt, served, false)?;
    asks_elsewhere(rt, served, wire)?;
    has_sent(rt, served, 2)?;
    has_received(rt, served, true)
}

fn asks_elsewhere<R: AllocGlobal + Threads + Sync + Abort, K: Keeper, W: Wire>(
    rt: &R,
    served: &mut ServedFarm<K, SlotCache<Page>>,
    wire: &mut W,
) -> Result<(), Fail> {
    let text = said_at(rt, served, wire, 5_000, ELSEWHERE)?;
    assert_eq!(rt; text.as_str(), NO_PAGE);
    Ok(())
}

// The edit and the view are answered as over a wire that never fails.
fn saves_and_reads<R: AllocGlobal + Threads + Sync + Abort, K: Keeper, W: Wire>(
    rt: &R,
    served: &mut ServedFarm<K, SlotCache<Page>>,
    wire: &mut W,
) -> Result<(), Fail> {
    let input = format!(in rt.alloc(); "{SAVING}{READING}")?;
    let text = said_at(rt, served, wire, 5_000, input.as_str())?;
    let wanted = format!(in rt.alloc(); "{SAVED}{READ}")?;
    assert_eq!(rt; text.as_str(), wanted.as_str());
    Ok(())
}

// The first request's take fails, and the second's gives the purge.
#[test]
fn a_take_that_fails_leaves_the_purge_for_the_next_request(rt: HostRuntime) -> Result<(), Fail> {
    let mut deals = Vec::new(rt.alloc());
    deals.push(Deal::Fail)?;
    deals.push(Deal::Carry(1))?;
    let mut wire = FarmWire::scripted(rt.alloc(), deals);
    takes_later(&rt, MemKeeper::new(rt.alloc()), &mut wire)
}

fn takes_later<R: AllocGlobal + Threads + Sync + Abort, K: Keeper + Drop, W: Wire>(
    rt: &R,
    keeper: K,
    wire: &mut W,
) -> Result<(), Fail> {
    let mut served = small_farm(rt.alloc(), keeper)?;
    takes_at_last(rt, &mut served, wire)
}

fn takes_at_last<R: AllocGlobal + Threads + Sync + Abort, K: Keeper, W: Wire>(
    rt: &R,
    served: &mut ServedFarm<K, SlotCache<Page>>,
    wire: &mut W,
) -> Result<(), Fail> {
    saves_and_reads(rt, served, wire)?;
    has_sent(rt, served, 2)?;
    has_received(rt, served, true)
}
