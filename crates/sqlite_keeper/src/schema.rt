// The tables of version 2, and how a file comes to have them.
use crate::appends::{begin, put_rest};
use crate::questions::first_row;
use crate::rows::{commit_in, number_at, stored};
use crate::table_fault::TableFault;
use farm_base::Moment;
use sqlite::{Alter, Connection, Row, Transaction, params};
use std::alloc::Global;

// The tables that both versions have, in a new file.
const MAKE_ENTRIES: &str =
    "CREATE TABLE farm (id INTEGER PRIMARY KEY CHECK (id = 1), version INTEGER NOT NULL) STRICT;
CREATE TABLE entry (n INTEGER PRIMARY KEY, stamp INTEGER NOT NULL) STRICT;
INSERT INTO farm (id, version) VALUES (1, 2);";

// The tables of commits, which keep each title once.
const MAKE_CHANGES: &str = "CREATE TABLE title (
  id INTEGER PRIMARY KEY REFERENCES entry (n), body TEXT NOT NULL UNIQUE) STRICT;
CREATE TABLE change (
  n INTEGER PRIMARY KEY REFERENCES entry (n),
  purge INTEGER NOT NULL, title INTEGER NOT NULL REFERENCES title (id),
  revision INTEGER NOT NULL, client TEXT NOT NULL, ix INTEGER NOT NULL,
  token TEXT NOT NULL, base INTEGER NOT NULL, body TEXT NOT NULL,
  UNIQUE (title, revision), UNIQUE (client, token)) STRICT;
CREATE INDEX change_client ON change (client, n);";

// The table of commits of version 1 stays, without rows.
const LEAVE_REVISIONS: &str = "DELETE FROM revision;
UPDATE farm SET version = 2 WHERE id = 1;";

/// Makes the tables in a new file, and brings those of version 1 to version 2. Tables of version 2 stay as they are;
/// any other version is refused. A file that is refused is as it was.
pub(crate) fn make_ready<S: Alter>(
    alloc: Global,
    conn: &mut Connection<S>,
) -> Result<(), TableFault> {
    if is_new(conn)? {
        return make(conn);
    }
    match version(conn)? {
        1 => migrate(alloc, conn),
        2 => Ok(()),
        _ => Err(TableFault::Refused),
    }
}

// The file has no table at all.
fn is_new<S: Alter>(conn: &mut Connection<S>) -> Result<bool, TableFault> {
    let found = first_row(conn, "SELECT name FROM sqlite_schema LIMIT 1", &[])?;
    Ok(found.is_none())
}

fn make<S: Alter>(conn: &mut Connection<S>) -> Result<(), TableFault> {
    let mut tx = begin(conn)?;
    tx.execute_batch(MAKE_ENTRIES)?;
    tx.execute_batch(MAKE_CHANGES)?;
    tx.commit()?;
    Ok(())
}

fn version<S: Alter>(conn: &mut Connection<S>) -> Result<u64, TableFault> {
    match first_row(conn, "SELECT version FROM farm WHERE id = 1", &[])? {
        Some(row) => number_at(&row, 0),
        None => Err(TableFault::Refused),
    }
}

// Takes each commit to the new tables, by one transaction.
fn migrate<S: Alter>(alloc: Global, conn: &mut Connection<S>) -> Result<(), TableFault> {
    let mut tx = begin(conn)?;
    tx.execute_batch(MAKE_CHANGES)?;
    copy_commits(alloc, &mut tx)?;
    tx.execute_batch(LEAVE_REVISIONS)?;
    tx.commit()?;
    Ok(())
}

fn copy_commits<S: Alter>(alloc: Global, tx: &mut Transaction<'_, S>) -> Result<(), TableFault> {
    // Also a number below 1 is read, and refused there, since what is not copied would be lost.
    let mut next = Some(i64::MIN);
    for _ in 0..u64::MAX {
        let Some(first) = next else {
            return Ok(());
        };
        let rows = commits_from(tx, first)?;
        next = copy_rows(alloc, tx, &rows)?;
    }
    Err(TableFault::Refused)
}

// The first commits of version 1 from a number on: what `commit_in` reads, and then the number.
fn commits_from<S: Alter>(tx: &mut Transaction<'_, S>, n: i64) -> Result<Vec<Row>, TableFault> {
    let rows = tx.query_all(
        "SELECT purge, title, revision, client, ix, token, base, body, n FROM revision WHERE n >= ?1
            ORDER BY n LIMIT 256",
        params![n],
    )?;
    Ok(rows)
}

// Copies commits, and answers from which number on there may be more; None if there are no more.
fn copy_rows<S: Alter>(
    alloc: Global,
    tx: &mut Transaction<'_, S>,
    rows: &[Row],
) -> Result<Option<i64>, TableFault> {
    let mut next = None;
    for row in rows {
        let n = copy_row(alloc, tx, row)?;
        next = n.checked_add(1);
    }
    Ok(next)
}

// Copies a commit, and answers its number.
fn copy_row<S: Alter>(
    alloc: Global,
    tx: &mut Transaction<'_, S>,
    row: &Row,
) -> Result<i64, TableFault> {
    let n = stored(number_at(row, 8)?)?;
    // The stamp is not copied: it stands in `entry`, which stays.
    let entry = commit_in(alloc, row, Moment(0))?;
    put_rest(tx, n, &entry, None)?;
    Ok(n)
}
