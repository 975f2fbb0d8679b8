// What is written: an entry by one transaction, so that it is there whole or not at all.
use crate::questions::{TITLE_ROW, digits_text};
use crate::rows::{number_at, stored, stored_stamp};
use crate::table_fault::TableFault;
use commit_feed::Entry;
use sqlite::{Alter, Connection, Error, Transaction, params};

/// Appends entry `n`, and answers the row of its title if it is a commit. The row may be known before.
pub(crate) fn append<S: Alter>(
    conn: &mut Connection<S>,
    n: i64,
    entry: &Entry,
    known: Option<i64>,
) -> Result<Option<i64>, TableFault> {
    let stamp = stored_stamp(entry.stamp())?;
    let mut tx = begin(conn)?;
    put_entry(&mut tx, n, stamp)?;
    let title = put_rest(&mut tx, n, entry, known)?;
    tx.commit()?;
    Ok(title)
}

/// A transaction, if none is open.
pub(crate) fn begin<S: Alter>(conn: &mut Connection<S>) -> Result<Transaction<'_, S>, TableFault> {
    if !conn.is_autocommit() {
        return Err(TableFault::Refused);
    }
    Ok(conn.transaction())
}

fn put_entry<S: Alter>(tx: &mut Transaction<'_, S>, n: i64, stamp: i64) -> Result<usize, Error> {
    tx.execute(
        "INSERT INTO entry (n, stamp) VALUES (?1, ?2)",
        params![n, stamp],
    )
}

/// Writes what an entry has beside its number and stamp, which is nothing for a beat. Answers the row of a commit's
/// title, which may be known before.
pub(crate) fn put_rest<S: Alter>(
    tx: &mut Transaction<'_, S>,
    n: i64,
    entry: &Entry,
    known: Option<i64>,
) -> Result<Option<i64>, TableFault> {
    match entry {
        Entry::Beat { .. } => Ok(None),
        Entry::Commit {
            purge,
            title,
            revision,
            client,
            index,
            token,
            base,
            text,
            ..
        } => {
            let digits = client.digits();
            let row = put_title(tx, n, title.text(), *revision, known)?;
            let change = ChangeRow {
                n,
                purge: stored(*purge)?,
                title: row,
                revision: stored(*revision)?,
                client: digits_text(&digits)?,
                index: stored(*index)?,
                token: token.text(),
                base: stored(*base)?,
                body: text.text(),
            };
            put_change(tx, &change)?;
            Ok(Some(row))
        }
    }
}

// The row of the title of commit `n`. A title is kept once, at its first commit, and its row has that one's number.
fn put_title<S: Alter>(
    tx: &mut Transaction<'_, S>,
    n: i64,
    title: &str,
    revision: u64,
    known: Option<i64>,
) -> Result<i64, TableFault> {
    if revision == 1 {
        add_title(tx, n, title)?;
        return Ok(n);
    }
    if let Some(row) = known {
        return Ok(row);
    }
    let row = tx.query_row(TITLE_ROW, params![title])?;
    stored(number_at(&row, 0)?)
}

fn add_title<S: Alter>(tx: &mut Transaction<'_, S>, n: i64, title: &str) -> Result<usize, Error> {
    tx.execute(
        "INSERT INTO title (id, body) VALUES (?1, ?2)",
        params![n, title],
    )
}

// A row of `change`.
#[derive(Clone, Copy)]
struct ChangeRow<'a> {
    n: i64,
    purge: i64,
    title: i64,
    revision: i64,
    client: &'a str,
    index: i64,
    token: &'a str,
    base: i64,
    body: &'a str,
}

fn put_change<S: Alter>(tx: &mut Transaction<'_, S>, c: &ChangeRow<'_>) -> Result<usize, Error> {
    tx.execute(
        "INSERT INTO change (n, purge, title, revision, client, ix, token, base, body)
            VALUES (?1, ?2, ?3, ?4, ?5, ?6, ?7, ?8, ?9)",
        params![
            c.n, c.purge, c.title, c.revision, c.client, c.index, c.token, c.base, c.body
        ],
    )
}
