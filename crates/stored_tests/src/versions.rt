// Files of version 1, of another version and of another program, and what is left of a file that is refused.
use crate::setting::{Questions, answers, new_keeper, number_text, started};
use revision_keeper::{KeepFault, Keeper};
use sqlite::types::ValueRef;
use sqlite::{Alter, Connection, Error, MemStore, Row, params};
use sqlite_keeper::SqliteKeeper;
use std::alloc::Global;
use std::process::Abort;
use std::test::Fail;

// The tables of version 1, where each commit has its title as a text.
const VERSION_1: &str =
    "CREATE TABLE farm (id INTEGER PRIMARY KEY CHECK (id = 1), version INTEGER NOT NULL) STRICT;
CREATE TABLE entry (n INTEGER PRIMARY KEY, stamp INTEGER NOT NULL) STRICT;
CREATE TABLE revision (
  n INTEGER PRIMARY KEY REFERENCES entry (n),
  purge INTEGER NOT NULL, title TEXT NOT NULL, revision INTEGER NOT NULL,
  client TEXT NOT NULL, ix INTEGER NOT NULL, token TEXT NOT NULL,
  base INTEGER NOT NULL, body TEXT NOT NULL,
  UNIQUE (title, revision), UNIQUE (client, token)) STRICT;
INSERT INTO farm (id, version) VALUES (1, 1);";

// A beat, and three commits on two titles by two clients.
const HISTORY: &str =
    "INSERT INTO entry (n, stamp) VALUES (1, 500), (2, 1000), (3, 2000), (4, 2000);
INSERT INTO revision (n, purge, title, revision, client, ix, token, base, body) VALUES
  (2, 1, 'A', 1, '00000000000000000000000000000001', 1, 't1', 0, 'one'),
  (3, 2, 'Template:B c', 1, '00000000000000000000000000000002', 1, 't1', 0, ''),
  (4, 4, 'A', 2, '00000000000000000000000000000001', 2, 't2', 1, 'three');";

const ASKED: Questions<'static> = Questions {
    upto: 4,
    titles: &["A", "Template:B c", "C"],
    clients: &[1, 2, 3],
    tokens: &["t1", "t2"],
};

const ANSWERS: &str = "len 4
entry 0: none
entry 1: beat at 500
entry 2: A revision 1 from 0, client 00000000000000000000000000000001 index 1 token t1, purge 1 at 1000: one
entry 3: Template:B c revision 1 from 0, client 00000000000000000000000000000002 index 1 token t1, purge 2 at 2000: 
entry 4: A revision 2 from 1, client 00000000000000000000000000000001 index 2 token t2, purge 4 at 2000: three
entry 5: none
latest A in 0: none
latest A in 1: none
latest A in 2: 2
latest A in 3: 2
latest A in 4: 4
latest A in 5: 4
latest Template:B c in 0: none
latest Template:B c in 1: none
latest Template:B c in 2: none
latest Template:B c in 3: 3
latest Template:B c in 4: 3
latest Template:B c in 5: 3
latest C in 0: none
latest C in 1: none
latest C in 2: none
latest C in 3: none
latest C in 4: none
latest C in 5: none
client 1 token t1: 2
client 1 token t2: 4
client 1 wrote 2, last 4 at 2000
client 2 token t1: 3
client 2 token t2: none
client 2 wrote 1, last 3 at 2000
client 3 token t1: none
client 3 token t2: none
client 3 wrote 0, last 0 at 0
";

fn version_1(alloc: Global, history: &str) -> Result<Connection<MemStore>, Fail> {
    let mut conn = Connection::open_in_memory(alloc)?;
    conn.execute_batch(VERSION_1)?;
    conn.execute_batch(history)?;
    Ok(conn)
}

// The first row that a query shows.
fn row_of(
    conn: &mut Connection<MemStore>,
    sql: &str,
    values: &[ValueRef<'_>],
) -> Result<Option<Row>, Fail> {
    match conn.query_row(sql, values) {
        Ok(row) => Ok(Some(row)),
        Err(Error::QueryReturnedNoRows) => Ok(None),
        Err(error) => Err(Fail::new(error)),
    }
}

fn number_of(
    conn: &mut Connection<MemStore>,
    sql: &str,
    values: &[ValueRef<'_>],
) -> Result<Option<u64>, Fail> {
    match row_of(conn, sql, values)? {
        Some(row) => Ok(Some(row.get::<u64>(0)?)),
        None => Ok(None),
    }
}

// The answers of a file of version 1, by the statements of that version.
fn answers_of_version_1(alloc: Global, conn: &mut Connection<MemStore>) -> Result<String, Fail> {
    let length = number_of(conn, "SELECT n FROM entry ORDER BY n DESC LIMIT 1", &[])?.unwrap_or(0);
    let mut made = format!(in alloc; "len {length}\n")?;
    push_entries(alloc, &mut made, conn)?;
    push_latest(alloc, &mut made, conn)?;
    push_clients(alloc, &mut made, conn)?;
    Ok(made)
}

fn push_entries(
    alloc: Global,
    made: &mut String,
    conn: &mut Connection<MemStore>,
) -> Result<(), Fail> {
    for n in 0..ASKED.upto.saturating_add(2) {
        made.push_str(entry_line(alloc, conn, n.cast_signed())?.as_str())?;
    }
    Ok(())
}

fn push_latest(
    alloc: Global,
    made: &mut String,
    conn: &mut Connection<MemStore>,
) -> Result<(), Fail> {
    for title in ASKED.titles {
        for upto in 0..ASKED.upto.saturating_add(2) {
            made.push_str(latest_line(alloc, conn, title, upto.cast_signed())?.as_str())?;
        }
    }
    Ok(())
}

fn push_clients(
    alloc: Global,
    made: &mut String,
    conn: &mut Connection<MemStore>,
) -> Result<(), Fail> {
    for client in ASKED.clients {
        for token in ASKED.tokens {
            made.push_str(token_line(alloc, conn, *client, token)?.as_str())?;
        }
        made.push_str(writes_line(alloc, conn, *client)?.as_str())?;
    }
    Ok(())
}

fn entry_line(alloc: Global, conn: &mut Connection<MemStore>, n: i64) -> Result<String, Fail> {
    match stamp_at(conn, n)? {
        Some(at) => {
            let entry = entry_text(alloc, conn, n, at)?;
            Ok(format!(in alloc; "entry {n}: {entry}\n")?)
        }
        None => Ok(format!(in alloc; "entry {n}: none\n")?),
    }
}

fn stamp_at(conn: &mut Connection<MemStore>, n: i64) -> Result<Option<u64>, Fail> {
    number_of(conn, "SELECT stamp FROM entry WHERE n = ?1", params![n])
}

fn entry_text(
    alloc: Global,
    conn: &mut Connection<MemStore>,
    n: i64,
    at: u64,
) -> Result<String, Fail> {
    match revision_row(conn, n)? {
        Some(row) => commit_text(alloc, &row, at),
        None => Ok(format!(in alloc; "beat at {at}")?),
    }
}

fn revision_row(conn: &mut Connection<MemStore>, n: i64) -> Result<Option<Row>, Fail> {
    row_of(
        conn,
        "SELECT title, revision, base, client, ix, token, purge, body FROM revision WHERE n = ?1",
        params![n],
    )
}

fn commit_text(alloc: Global, row: &Row, at: u64) -> Result<String, Fail> {
    let (title, revision, base) = (
        row.get::<String>(0)?,
        row.get::<u64>(1)?,
        row.get::<u64>(2)?,
    );
    let (client, index, token) = (
        row.get::<String>(3)?,
        row.get::<u64>(4)?,
        row.get::<String>(5)?,
    );
    let (purge, body) = (row.get::<u64>(6)?, row.get::<String>(7)?);
    let page = format!(in alloc; "{title} revision {revision} from {base}")?;
    let edit = format!(in alloc; "client {client} index {index} token {token}")?;
    Ok(format!(in alloc; "{page}, {edit}, purge {purge} at {at}: {body}")?)
}

fn latest_line(
    alloc: Global,
    conn: &mut Connection<MemStore>,
    title: &str,
    upto: i64,
) -> Result<String, Fail> {
    let found = number_of(
        conn,
        "SELECT n FROM revision WHERE title = ?1 AND n <= ?2 ORDER BY n DESC LIMIT 1",
        params![title, upto],
    )?;
    let number = number_text(alloc, found)?;
    Ok(format!(in alloc; "latest {title} in {upto}: {number}\n")?)
}

fn token_line(
    alloc: Global,
    conn: &mut Connection<MemStore>,
    client: u64,
    token: &str,
) -> Result<String, Fail> {
    let digits = format!(in alloc; "{client:032x}")?;
    let found = number_by_token(conn, digits.as_str(), token)?;
    let number = number_text(alloc, found)?;
    Ok(format!(in alloc; "client {client} token {token}: {number}\n")?)
}

fn number_by_token<'a>(
    conn: &mut Connection<MemStore>,
    digits: &'a str,
    token: &'a str,
) -> Result<Option<u64>, Fail> {
    number_of(
        conn,
        "SELECT n FROM revision WHERE client = ?1 AND token = ?2",
        params![digits, token],
    )
}

fn writes_line(
    alloc: Global,
    conn: &mut Connection<MemStore>,
    client: u64,
) -> Result<String, Fail> {
    let digits = format!(in alloc; "{client:032x}")?;
    let (count, last) = count_and_last(conn, digits.as_str())?;
    let at = stamp_at(conn, last)?.unwrap_or(0);
    Ok(format!(in alloc; "client {client} wrote {count}, last {last} at {at}\n")?)
}

fn count_and_last(conn: &mut Connection<MemStore>, digits: &str) -> Result<(u64, i64), Fail> {
    let row = conn.query_row(
        "SELECT count(*), max(n) FROM revision WHERE client = ?1",
        params![digits],
    )?;
    Ok((row.get::<u64>(0)?, row.get::<Option<i64>>(1)?.unwrap_or(0)))
}

#[test]
fn a_file_of_version_1_answers_alike_before_and_after(rt: HostRuntime) -> Result<(), Fail> {
    let mut conn = version_1(rt.alloc(), HISTORY)?;
    answers_before(&rt, rt.alloc(), &mut conn)?;
    let mut keeper = started(rt.alloc(), conn)?;
    answers_after(&rt, rt.alloc(), &mut keeper)?;
    is_brought_over(&rt, &mut keeper.into_opened()?)
}

fn answers_before(
    rt: &impl Abort,
    alloc: Global,
    conn: &mut Connection<MemStore>,
) -> Result<(), Fail> {
    let before = answers_of_version_1(alloc, conn)?;
    assert_eq!(rt; before.as_str(), ANSWERS);
    Ok(())
}

fn answers_after<S: Alter + Drop>(
    rt: &impl Abort,
    alloc: Global,
    keeper: &mut SqliteKeeper<S>,
) -> Result<(), Fail> {
    let after = answers(alloc, keeper, &ASKED)?;
    assert_eq!(rt; after.as_str(), ANSWERS);
    assert_eq!(rt; keeper.faults(), 0);
    Ok(())
}

fn is_brought_over(rt: &impl Abort, conn: &mut Connection<MemStore>) -> Result<(), Fail> {
    assert_eq!(rt; number_of(conn, "SELECT version FROM farm", &[])?, Some(2));
    assert_eq!(rt;
        number_of(conn, "SELECT count(*) FROM revision", &[])?,
        Some(0)
    );
    Ok(())
}

#[test]
fn a_new_file_is_of_version_2(rt: HostRuntime) -> Result<(), Fail> {
    let mut conn = new_keeper(rt.alloc())?.into_opened()?;
    is_new(&rt, &mut conn)
}

fn is_new(rt: &impl Abort, conn: &mut Connection<MemStore>) -> Result<(), Fail> {
    assert_eq!(rt; number_of(conn, "SELECT version FROM farm", &[])?, Some(2));
    assert_eq!(rt; tables_named(conn, "revision")?, 0);
    Ok(())
}

fn tables_named(conn: &mut Connection<MemStore>, name: &str) -> Result<u64, Fail> {
    let found = number_of(
        conn,
        "SELECT count(*) FROM sqlite_schema WHERE name = ?1",
        params![name],
    )?;
    Ok(found.unwrap_or(0))
}

// More commits of version 1 on one title than a migration reads at a time, with one value of the commit `n` changed.
fn many_commits(alloc: Global, change: &str) -> Result<Connection<MemStore>, Fail> {
    let mut conn = version_1(alloc, "")?;
    put_commits(alloc, &mut conn)?;
    conn.execute_batch(change)?;
    Ok(conn)
}

fn put_commits(alloc: Global, conn: &mut Connection<MemStore>) -> Result<(), Fail> {
    for n in 1..301i64 {
        put_entry(conn, n)?;
        put_revision(conn, n, format!(in alloc; "t{n}")?.as_str())?;
    }
    Ok(())
}

fn put_entry(conn: &mut Connection<MemStore>, n: i64) -> Result<usize, Error> {
    conn.execute("INSERT INTO entry (n, stamp) VALUES (?1, ?1)", params![n])
}

fn put_revision(conn: &mut Connection<MemStore>, n: i64, token: &str) -> Result<usize, Error> {
    conn.execute(
        "INSERT INTO revision (n, purge, title, revision, client, ix, token, base, body)
            VALUES (?1, 1, 'A', ?1, '00000000000000000000000000000001', ?1, ?2, 0, 'text')",
        params![n, token],
    )
}

#[test]
fn a_migration_goes_on_past_the_first_rows(rt: HostRuntime) -> Result<(), Fail> {
    let mut keeper = started(rt.alloc(), many_commits(rt.alloc(), "")?)?;
    assert_eq!(rt; keeper.len()?, 300);
    has_300_on_one_title(&rt, &mut keeper.into_opened()?)
}

fn has_300_on_one_title(rt: &impl Abort, conn: &mut Connection<MemStore>) -> Result<(), Fail> {
    assert_eq!(rt;
        number_of(conn, "SELECT count(*) FROM change", &[])?,
        Some(300)
    );
    assert_eq!(rt;
        number_of(conn, "SELECT count(*) FROM title", &[])?,
        Some(1)
    );
    Ok(())
}

// What is done to a file of version 1 that is then refused.
const REFUSED: [&str; 5] = [
    "UPDATE revision SET client = 'x' WHERE n = 290",
    "UPDATE revision SET base = -1 WHERE n = 1",
    "UPDATE revision SET title = 'A_b' WHERE n = 300",
    "DELETE FROM revision WHERE n = 1",
    "INSERT INTO entry (n, stamp) VALUES (-9223372036854775808, 0);
UPDATE revision SET n = -9223372036854775808 WHERE n = 7",
];

fn stays_of_version_1(
    rt: &impl Abort,
    conn: &mut Connection<MemStore>,
    commits: u64,
) -> Result<(), Fail> {
    assert_eq!(rt; number_of(conn, "SELECT version FROM farm", &[])?, Some(1));
    assert_eq!(rt;
        number_of(conn, "SELECT count(*) FROM revision", &[])?,
        Some(commits)
    );
    assert_eq!(rt; tables_named(conn, "change")?, 0);
    assert_eq!(rt; tables_named(conn, "title")?, 0);
    Ok(())
}

#[test]
fn a_refused_migration_leaves_version_1(rt: HostRuntime) -> Result<(), Fail> {
    for change in REFUSED {
        let conn = many_commits(rt.alloc(), change)?;
        is_refused(&rt, rt.alloc(), conn, change)?;
    }
    Ok(())
}

fn is_refused(
    rt: &impl Abort,
    alloc: Global,
    conn: Connection<MemStore>,
    change: &str,
) -> Result<(), Fail> {
    let mut conn = conn;
    let commits = number_of(&mut conn, "SELECT count(*) FROM revision", &[])?.unwrap_or(0);
    let mut keeper = SqliteKeeper::new(alloc, Ok(conn));
    assert_eq!(rt; keeper.start(), Err(KeepFault::Fault), "{change}");
    assert_eq!(rt; keeper.len(), Err(KeepFault::Fault));
    assert_eq!(rt; keeper.faults(), 2);
    stays_of_version_1(rt, &mut keeper.into_opened()?, commits)
}

#[test]
fn a_file_of_another_program_is_refused(rt: HostRuntime) -> Result<(), Fail> {
    let mut keeper = SqliteKeeper::new(rt.alloc(), Ok(of_another_program(rt.alloc())?));
    assert_eq!(rt; keeper.start(), Err(KeepFault::Fault));
    assert_eq!(rt; keeper.faults(), 1);
    has_no_farm(&rt, &mut keeper.into_opened()?)
}

fn of_another_program(alloc: Global) -> Result<Connection<MemStore>, Fail> {
    let mut conn = Connection::open_in_memory(alloc)?;
    conn.execute_batch("CREATE TABLE note (id INTEGER PRIMARY KEY, body TEXT)")?;
    Ok(conn)
}

fn has_no_farm(rt: &impl Abort, conn: &mut Connection<MemStore>) -> Result<(), Fail> {
    assert_eq!(rt; tables_named(conn, "farm")?, 0);
    Ok(())
}
