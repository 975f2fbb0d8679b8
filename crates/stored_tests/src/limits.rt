// Rows that no history has, and entries that no row takes: each is a fault of the call that meets it.
use crate::setting::{Questions, answers, edit_of, new_keeper, started};
use crate::twins::Twins;
use commit_feed::Entry;
use farm_base::{MOMENT_MAX, Moment};
use revision_keeper::{KeepFault, Keeper};
use sqlite::{Alter, Connection, Error, MemStore, params};
use sqlite_keeper::SqliteKeeper;
use std::alloc::Global;
use std::process::Abort;
use std::test::Fail;
use wiki_titles::{ClientId, TEXT_MAX, Text, Title, Token};

// Which call meets the changed row. Titles and clients are those of the only page.
#[derive(Clone, Copy)]
enum Call {
    Start,
    Entry(u64),
    LatestIn(u64),
    Writes,
    Append,
}

// What is done to a beat and two commits of client 1 on `A`, and the call that then is a fault.
const CHANGES: [(&str, Call); 27] = [
    (
        "UPDATE entry SET stamp = 4000000000000001 WHERE n = 1",
        Call::Entry(1),
    ),
    ("UPDATE entry SET stamp = -1 WHERE n = 1", Call::Entry(1)),
    ("UPDATE entry SET stamp = -1 WHERE n = 3", Call::Entry(3)),
    (
        "UPDATE entry SET stamp = 4000000000000001 WHERE n = 3",
        Call::Writes,
    ),
    ("DELETE FROM entry WHERE n = 1", Call::Entry(1)),
    ("UPDATE change SET purge = -1 WHERE n = 2", Call::Entry(2)),
    (
        "UPDATE change SET revision = -1 WHERE n = 2",
        Call::Entry(2),
    ),
    (
        "UPDATE change SET revision = -1 WHERE n = 2",
        Call::LatestIn(2),
    ),
    (
        "UPDATE change SET revision = 4 WHERE n = 3",
        Call::LatestIn(2),
    ),
    ("UPDATE change SET client = 'X' WHERE n = 2", Call::Entry(2)),
    (
        "UPDATE change SET client = '0000000000000000000000000000000A' WHERE n = 2",
        Call::Entry(2),
    ),
    ("UPDATE change SET ix = -1 WHERE n = 2", Call::Entry(2)),
    ("UPDATE change SET ix = -1 WHERE n = 3", Call::Writes),
    (
        "UPDATE change SET token = 'a b' WHERE n = 2",
        Call::Entry(2),
    ),
    ("UPDATE change SET token = '' WHERE n = 2", Call::Entry(2)),
    ("UPDATE change SET base = -1 WHERE n = 2", Call::Entry(2)),
    (
        "UPDATE change SET body = 'a\rb' WHERE n = 2",
        Call::Entry(2),
    ),
    ("UPDATE title SET body = '' WHERE id = 2", Call::Entry(2)),
    ("UPDATE title SET body = 'a#b' WHERE id = 2", Call::Entry(2)),
    ("UPDATE title SET body = 'A_b' WHERE id = 2", Call::Entry(2)),
    (
        "INSERT INTO entry (n, stamp) VALUES (9223372036854775807, 5)",
        Call::Append,
    ),
    ("UPDATE farm SET version = 3", Call::Start),
    ("UPDATE farm SET version = 0", Call::Start),
    ("UPDATE farm SET version = -1", Call::Start),
    ("DELETE FROM farm", Call::Start),
    ("DROP TABLE farm", Call::Start),
    (
        "DELETE FROM change; DELETE FROM title; DELETE FROM entry; INSERT INTO entry (n, stamp) VALUES (-5, 0)",
        Call::Start,
    ),
];

fn two_commits(alloc: Global) -> Result<SqliteKeeper<MemStore>, Fail> {
    let first = edit_of(alloc, 1, "t1", "A", 1, "one")?;
    let second = edit_of(alloc, 1, "t2", "A", 2, "two")?;
    let twins = Twins::new(alloc, new_keeper(alloc)?).beat(0)?;
    let Twins { keeper, .. } = twins.commit(1_000, first)?.commit(1_000, second)?;
    Ok(keeper)
}

// A keeper over the changed rows, which is not made ready.
fn changed(alloc: Global, sql: &str) -> Result<SqliteKeeper<MemStore>, Fail> {
    let mut conn = two_commits(alloc)?.into_opened()?;
    conn.execute_batch(sql)?;
    Ok(SqliteKeeper::new(alloc, Ok(conn)))
}

fn is_fault<T: Drop>(found: Result<T, KeepFault>) -> bool {
    matches!(found, Err(KeepFault::Fault))
}

// Makes the keeper ready, and then the call; whether that was a fault, and the only one.
fn is_only_fault(
    alloc: Global,
    keeper: &mut SqliteKeeper<MemStore>,
    call: Call,
) -> Result<bool, Fail> {
    if let Call::Start = call {
        return Ok(is_fault(keeper.start()) && keeper.faults() == 1);
    }
    keeper.start()?;
    let failed = match call {
        Call::Start => false,
        Call::Entry(n) => is_fault(keeper.entry(n)),
        Call::LatestIn(upto) => is_fault(keeper.latest(&Title::parse(alloc, "A")?, upto)),
        Call::Writes => is_fault(keeper.writes_of(&ClientId::number(1))),
        Call::Append => is_fault(keeper.append(Entry::Beat { stamp: Moment(9) })),
    };
    Ok(failed && keeper.faults() == 1)
}

#[test]
fn a_row_that_no_history_has_is_a_fault(rt: HostRuntime) -> Result<(), Fail> {
    for (sql, call) in CHANGES {
        assert!(rt; meets_fault(rt.alloc(), sql, call)?, "{sql}");
    }
    Ok(())
}

fn meets_fault(alloc: Global, sql: &str, call: Call) -> Result<bool, Fail> {
    let mut keeper = changed(alloc, sql)?;
    is_only_fault(alloc, &mut keeper, call)
}

#[test]
fn a_stored_text_past_its_limit_is_a_fault(rt: HostRuntime) -> Result<(), Fail> {
    for (bytes, fails) in [(TEXT_MAX, false), (TEXT_MAX + 1, true)] {
        let mut keeper = with_text(rt.alloc(), bytes)?;
        assert_eq!(rt; is_fault(keeper.entry(2)), fails);
    }
    Ok(())
}

// A keeper of which the text of entry 2 has so many bytes.
fn with_text(alloc: Global, bytes: usize) -> Result<SqliteKeeper<MemStore>, Fail> {
    let mut conn = two_commits(alloc)?.into_opened()?;
    set_text(&mut conn, "x".repeat(alloc, bytes)?.as_str())?;
    started(alloc, conn)
}

fn set_text(conn: &mut Connection<MemStore>, body: &str) -> Result<usize, Error> {
    conn.execute("UPDATE change SET body = ?1 WHERE n = 2", params![body])
}

#[test]
fn a_fault_of_one_row_leaves_the_others(rt: HostRuntime) -> Result<(), Fail> {
    let title = Title::parse(rt.alloc(), "A")?;
    let mut keeper = changed(rt.alloc(), "UPDATE change SET client = 'X' WHERE n = 2")?;
    keeper.start()?;
    leaves_the_others(&rt, &mut keeper, &title);
    Ok(())
}

fn leaves_the_others<S: Alter + Drop>(
    rt: &impl Abort,
    keeper: &mut SqliteKeeper<S>,
    title: &Title,
) {
    assert!(rt; is_fault(keeper.entry(2)));
    assert_eq!(rt; keeper.latest(title, 3), Ok(Some(3)));
    assert!(rt; is_fault(keeper.entry(2)));
    assert!(rt; keeper.entry(3).is_ok() && keeper.entry(1).is_ok());
    assert_eq!(rt; keeper.faults(), 2);
}

// The next commit on `A` by client 1, but for what a test changes.
#[derive(Clone, Copy)]
struct Numbers {
    stamp: u64,
    purge: u64,
    revision: u64,
    index: u64,
    base: u64,
}

const NEXT: Numbers = Numbers {
    stamp: 3_000,
    purge: 3,
    revision: 3,
    index: 3,
    base: 2,
};

const OVER: u64 = 9_223_372_036_854_775_808; // 2^63

fn commit_of(alloc: Global, title: &str, token: &str, n: Numbers) -> Result<Entry, Fail> {
    Ok(Entry::Commit {
        stamp: Moment(n.stamp),
        purge: n.purge,
        title: Title::parse(alloc, title)?,
        revision: n.revision,
        client: ClientId::number(1),
        index: n.index,
        token: Token::parse(alloc, token)?,
        base: n.base,
        text: Text::parse(alloc, "three")?,
    })
}

const NO_NUMBERS: [Numbers; 7] = [
    Numbers {
        stamp: MOMENT_MAX + 1,
        ..NEXT
    },
    Numbers {
        purge: OVER,
        ..NEXT
    },
    Numbers {
        revision: OVER,
        ..NEXT
    },
    Numbers {
        index: OVER,
        ..NEXT
    },
    Numbers { base: OVER, ..NEXT },
    Numbers {
        revision: 1,
        ..NEXT
    },
    Numbers {
        revision: 2,
        ..NEXT
    },
];

// Entries that no row takes: a number or a stamp past its limit, a title's first commit again, a revision again, a
// later one of a title without a first, and a token again.
fn refused_entries(alloc: Global) -> Result<Vec<Entry>, Fail> {
    let mut made = Vec::new(alloc);
    for numbers in NO_NUMBERS {
        made.push(commit_of(alloc, "A", "t3", numbers)?)?;
    }
    made.push(commit_of(alloc, "B", "t3", NEXT)?)?;
    made.push(commit_of(alloc, "A", "t2", NEXT)?)?;
    Ok(made)
}

const ASKED: Questions<'static> = Questions {
    upto: 4,
    titles: &["A", "B"],
    clients: &[1],
    tokens: &["t1", "t2", "t3"],
};

#[test]
fn a_refused_entry_leaves_the_history(rt: HostRuntime) -> Result<(), Fail> {
    let mut keeper = two_commits(rt.alloc())?;
    refuses_all(&rt, rt.alloc(), &mut keeper)?;
    assert_eq!(rt;
        keeper.append(commit_of(rt.alloc(), "A", "t3", NEXT)?),
        Ok(4)
    );
    Ok(())
}

fn refuses_all<S: Alter + Drop>(
    rt: &impl Abort,
    alloc: Global,
    keeper: &mut SqliteKeeper<S>,
) -> Result<(), Fail> {
    let before = answers(alloc, keeper, &ASKED)?;
    let mut refused = 0u64;
    for entry in refused_entries(alloc)? {
        refuses(rt, keeper, entry, refused);
        refused = refused.saturating_add(1);
        answers_as(rt, alloc, keeper, before.as_str())?;
    }
    Ok(())
}

// The append is one fault more.
fn refuses<S: Alter + Drop>(
    rt: &impl Abort,
    keeper: &mut SqliteKeeper<S>,
    entry: Entry,
    refused: u64,
) {
    assert!(rt; is_fault(keeper.append(entry)), "{refused}");
    assert_eq!(rt; keeper.faults(), refused.saturating_add(1));
}

fn answers_as<K: Keeper>(
    rt: &impl Abort,
    alloc: Global,
    keeper: &mut K,
    wanted: &str,
) -> Result<(), Fail> {
    let found = answers(alloc, keeper, &ASKED)?;
    assert_eq!(rt; found.as_str(), wanted);
    Ok(())
}
