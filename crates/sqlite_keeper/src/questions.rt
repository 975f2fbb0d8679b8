// What is asked of the tables. None of it costs more as the history grows, but for the depth of the database's trees:
// each statement goes to its rows by an index, and the last of a kind is the first in falling order.
ghost use Rattle.std.specs.Prelude.{◌<◌, ◌^◌, IfOk, IfSome};
ghost use Rattle.commit_feed.specs.AsModel.{entry_of};
ghost use Rattle.revision_keeper.specs.Bounds.{IsSmall, AreSmall};

use crate::last_answers::LastCommit;
use crate::rows::{commit_in, number_at, number_of, stamp_at, stored, writes_in};
use crate::table_fault::TableFault;
use commit_feed::{Entry, Writes};
use farm_base::Moment;
use sqlite::types::ValueRef;
use sqlite::{Alter, Connection, Error, Row, params};
use std::alloc::Global;
use wiki_titles::{ClientId, Title, Token};

/// The row of a title. It is looked up by this statement alone: inside another query, a title that is to be found
/// first makes the kit's planner go over the whole table.
pub(crate) const TITLE_ROW: &str = "SELECT id FROM title WHERE body = ?1";

const NO_WRITES: Writes = Writes {
    count: 0,
    last: 0,
    stamp: Moment(0),
};

/// The number of entries, as the column has it.
pub(crate) fn last_number<S: Alter>(conn: &mut Connection<S>) -> Result<i64, TableFault> {
    match first_row(conn, "SELECT n FROM entry ORDER BY n DESC LIMIT 1", &[])? {
        Some(row) => Ok(row.get(0)?),
        None => Ok(0),
    }
}

/// Entry `n`, which is there. It is a commit if it has a row in `change`.
pub(crate) fn entry<S: Alter>(
    alloc: Global,
    conn: &mut Connection<S>,
    n: u64,
) -> Result<Entry, TableFault>
    ensures { IfOk result (λ entry. IsSmall (entry_of entry)) }
{
    let n = stored(n)?;
    // A number up to the last that has no row would be a hole in the history.
    let row = entry_row(conn, n)?.ok_or(TableFault::Refused)?;
    let stamp = stamp_at(&row, 0)?;
    match change_row(conn, n)? {
        Some(row) => commit_in(alloc, &row, stamp),
        None => Ok(Entry::Beat { stamp }),
    }
}

fn entry_row<S: Alter>(conn: &mut Connection<S>, n: i64) -> Result<Option<Row>, TableFault> {
    first_row(conn, "SELECT stamp FROM entry WHERE n = ?1", params![n])
}

// What `commit_in` reads.
fn change_row<S: Alter>(conn: &mut Connection<S>, n: i64) -> Result<Option<Row>, TableFault> {
    first_row(
        conn,
        "SELECT c.purge, t.body, c.revision, c.client, c.ix, c.token, c.base, c.body
            FROM change c JOIN title t ON t.id = c.title WHERE c.n = ?1",
        params![n],
    )
}

/// The last commit on the title.
pub(crate) fn last_on<S: Alter>(
    conn: &mut Connection<S>,
    title: &Title,
) -> Result<Option<LastCommit>, TableFault> {
    let Some(row) = first_row(conn, TITLE_ROW, params![title.text()])? else {
        return Ok(None);
    };
    let title = stored(number_at(&row, 0)?)?;
    let Some(row) = last_change(conn, title)? else {
        return Ok(None);
    };
    Ok(Some(LastCommit {
        title,
        n: row.get(0)?,
        revision: row.get(1)?,
    }))
}

/// The number of the last commit on a title among the first `upto` entries, if this is the last of all.
pub(crate) fn latest<S: Alter>(
    conn: &mut Connection<S>,
    last: LastCommit,
    upto: u64,
) -> Result<Option<u64>, TableFault>
    ensures { IfOk result (λ found. IfSome found (λ n. n < 2 ^ 63)) }
{
    let n = number_of(last.n)?;
    if n <= upto {
        return Ok(Some(n));
    }
    earlier(conn, last.title, upto, number_of(last.revision)?)
}

fn last_change<S: Alter>(conn: &mut Connection<S>, title: i64) -> Result<Option<Row>, TableFault> {
    first_row(
        conn,
        "SELECT n, revision FROM change WHERE title = ?1 ORDER BY revision DESC LIMIT 1",
        params![title],
    )
}

// The same, if the commit of this revision is after that prefix. The numbers of a title's commits rise with their
// revisions, and no revision is missing, so the last within the prefix is found by halving.
fn earlier<S: Alter>(
    conn: &mut Connection<S>,
    title: i64,
    upto: u64,
    revision: u64,
) -> Result<Option<u64>, TableFault>
    ensures { IfOk result (λ found. IfSome found (λ n. n < 2 ^ 63)) }
{
    // Revisions below `low` are within the prefix, the last of them at `found`; those from `high` are after it.
    let (mut low, mut high, mut found) = (1u64, revision, None);
    for _ in 0..u64::BITS {
        if high <= low {
            break;
        }
        let middle = low.midpoint(high);
        let n = number_of_revision(conn, title, middle)?;
        if n <= upto {
            low = middle.saturating_add(1);
            found = Some(n);
        } else {
            high = middle;
        }
    }
    Ok(found)
}

fn number_of_revision<S: Alter>(
    conn: &mut Connection<S>,
    title: i64,
    revision: u64,
) -> Result<u64, TableFault>
    ensures { IfOk result (λ n. n < 2 ^ 63) }
{
    let row = revision_row(conn, title, stored(revision)?)?.ok_or(TableFault::Refused)?;
    number_at(&row, 0)
}

fn revision_row<S: Alter>(
    conn: &mut Connection<S>,
    title: i64,
    revision: i64,
) -> Result<Option<Row>, TableFault> {
    first_row(
        conn,
        "SELECT n FROM change WHERE title = ?1 AND revision = ?2",
        params![title, revision],
    )
}

/// The number of the client's commit with the token.
pub(crate) fn by_token<S: Alter>(
    conn: &mut Connection<S>,
    client: &ClientId,
    token: &Token,
) -> Result<Option<u64>, TableFault>
    ensures { IfOk result (λ found. IfSome found (λ n. n < 2 ^ 63)) }
{
    let digits = client.digits();
    match token_row(conn, digits_text(&digits)?, token.text())? {
        Some(row) => Ok(Some(number_at(&row, 0)?)),
        None => Ok(None),
    }
}

fn token_row<'a, S: Alter>(
    conn: &mut Connection<S>,
    client: &'a str,
    token: &'a str,
) -> Result<Option<Row>, TableFault> {
    first_row(
        conn,
        "SELECT n FROM change WHERE client = ?1 AND token = ?2",
        params![client, token],
    )
}

/// What the client has committed.
pub(crate) fn writes_of<S: Alter>(
    conn: &mut Connection<S>,
    client: &ClientId,
) -> Result<Writes, TableFault>
    ensures { IfOk result AreSmall }
{
    let digits = client.digits();
    match writes_row(conn, digits_text(&digits)?)? {
        Some(row) => writes_in(&row),
        None => Ok(NO_WRITES),
    }
}

// What `writes_in` reads.
fn writes_row<S: Alter>(conn: &mut Connection<S>, client: &str) -> Result<Option<Row>, TableFault> {
    first_row(
        conn,
        "SELECT c.n, c.ix, e.stamp FROM change c JOIN entry e ON e.n = c.n WHERE c.client = ?1
            ORDER BY c.n DESC LIMIT 1",
        params![client],
    )
}

/// The digits of a client as a text; they are ASCII.
pub(crate) fn digits_text(digits: &[u8; 32]) -> Result<&str, TableFault> {
    std::str::from_utf8(digits).map_err(|_| TableFault::Refused)
}

/// The first row that a query shows.
pub(crate) fn first_row<S: Alter>(
    conn: &mut Connection<S>,
    sql: &str,
    values: &[ValueRef<'_>],
) -> Result<Option<Row>, TableFault> {
    match conn.query_row(sql, values) {
        Ok(row) => Ok(Some(row)),
        Err(Error::QueryReturnedNoRows) => Ok(None),
        Err(error) => Err(TableFault::from(error)),
    }
}
