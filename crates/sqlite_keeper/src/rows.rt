// What stands in a row, each value tested as it comes in, and what may be written into one.
ghost use Rattle.std.specs.Prelude.{◌≡◌, ◌≤◌, ◌<◌, ◌^◌, IfOk, IfSome};
ghost use Rattle.wiki_model.specs.Limits.{greatest_moment};
ghost use Rattle.commit_feed.specs.AsModel.{entry_of};
ghost use Rattle.revision_keeper.specs.Bounds.{IsSmall, AreSmall};

use crate::table_fault::TableFault;
use commit_feed::{Entry, Writes};
use farm_base::{MOMENT_MAX, Moment};
use sqlite::Row;
use sqlite::types::ValueRef;
use std::alloc::Global;
use wiki_titles::{ClientId, Text, Title, Token};

/// A number of a column as the history has it: from 0, and below 2^63 as everything in a column.
pub(crate) fn number_of(n: i64) -> Result<u64, TableFault>
    ensures { IfOk result (λ k. k < 2 ^ 63) }
{
    if n < 0 {
        return Err(TableFault::Refused);
    }
    Ok(n.cast_unsigned())
}

/// A number of the history as a column has it.
pub(crate) fn stored(n: u64) -> Result<i64, TableFault> {
    i64::try_from(n).map_err(|_| TableFault::Refused)
}

/// A stamp as a column has it.
pub(crate) fn stored_stamp(stamp: Moment) -> Result<i64, TableFault> {
    if MOMENT_MAX < stamp.0 {
        return Err(TableFault::Refused);
    }
    stored(stamp.0)
}

/// The number in a column.
pub(crate) fn number_at(row: &Row, at: usize) -> Result<u64, TableFault>
    ensures { IfOk result (λ k. k < 2 ^ 63) }
{
    let n: i64 = row.get(at)?;
    number_of(n)
}

/// The stamp in a column.
pub(crate) fn stamp_at(row: &Row, at: usize) -> Result<Moment, TableFault>
    ensures { IfOk result (λ stamp. stamp ≤ greatest_moment) }
{
    let n = number_at(row, at)?;
    if MOMENT_MAX < n {
        return Err(TableFault::Refused);
    }
    Ok(Moment(n))
}

// What is answered again is tested too.

/// A number, if it is below 2^63.
fn small(n: u64) -> Result<u64, TableFault>
    ensures small { IfOk result (λ k. k < 2 ^ 63) }
    ensures value { IfOk result (λ k. k ≡ n) }
{
    if i64::MAX.cast_unsigned() < n {
        return Err(TableFault::Refused);
    }
    Ok(n)
}

fn small_stamp(stamp: Moment) -> Result<Moment, TableFault>
    ensures small { IfOk result (λ again. again ≤ greatest_moment) }
    ensures value { IfOk result (λ again. again ≡ stamp) }
{
    if MOMENT_MAX < stamp.0 {
        return Err(TableFault::Refused);
    }
    Ok(stamp)
}

/// A number that may be missing, if it is below 2^63.
pub(crate) fn checked_number(found: Option<u64>) -> Result<Option<u64>, TableFault>
    ensures small { IfOk result (λ again. IfSome again (λ n. n < 2 ^ 63)) }
    ensures value { IfOk result (λ again. again ≡ found) }
{
    match found {
        Some(n) => Ok(Some(small(n)?)),
        None => Ok(None),
    }
}

/// What a client has committed, if its numbers are within their limits.
pub(crate) fn checked_writes(writes: Writes) -> Result<Writes, TableFault>
    ensures small { IfOk result AreSmall }
    ensures value { IfOk result (λ again. again ≡ writes) }
{
    let count = small(writes.count)?;
    let last = small(writes.last)?;
    let stamp = small_stamp(writes.stamp)?;
    Ok(Writes { count, last, stamp })
}

/// An entry, if its numbers are within their limits.
pub(crate) fn checked_entry(entry: Entry) -> Result<Entry, TableFault>
    ensures small { IfOk result (λ again. IsSmall (entry_of again)) }
    ensures value { IfOk result (λ again. again ≡ entry) }
{
    match entry {
        Entry::Beat { stamp } => Ok(Entry::Beat {
            stamp: small_stamp(stamp)?,
        }),
        Entry::Commit {
            stamp,
            purge,
            title,
            revision,
            client,
            index,
            token,
            base,
            text,
        } => Ok(Entry::Commit {
            stamp: small_stamp(stamp)?,
            purge,
            title,
            revision: small(revision)?,
            client,
            index: small(index)?,
            token,
            base,
            text,
        }),
    }
}

/// The commit of a row of purge, title, revision, client, index, token, base and body.
pub(crate) fn commit_in(alloc: Global, row: &Row, stamp: Moment) -> Result<Entry, TableFault>
    requires { stamp ≤ greatest_moment }
    ensures { IfOk result (λ entry. IsSmall (entry_of entry)) }
{
    let purge = number_at(row, 0)?;
    let title = title_at(alloc, row, 1)?;
    let revision = number_at(row, 2)?;
    let client = client_at(row, 3)?;
    let index = number_at(row, 4)?;
    let token = token_at(alloc, row, 5)?;
    let base = number_at(row, 6)?;
    let text = body_at(alloc, row, 7)?;
    Ok(Entry::Commit {
        stamp,
        purge,
        title,
        revision,
        client,
        index,
        token,
        base,
        text,
    })
}

/// What a client has committed, from a row of its last commit: number, index and stamp.
///
/// A client's commits are counted from 1 and each has its index, so the last index is their count.
pub(crate) fn writes_in(row: &Row) -> Result<Writes, TableFault>
    ensures { IfOk result AreSmall }
{
    let last = number_at(row, 0)?;
    let count = number_at(row, 1)?;
    let stamp = stamp_at(row, 2)?;
    Ok(Writes { count, last, stamp })
}

// What is read has to stand in the row as it is read. A title `a_b` would be asked for as `A b`, and not be found.

fn title_at(alloc: Global, row: &Row, at: usize) -> Result<Title, TableFault> {
    let text = text_at(row, at)?;
    let title = Title::parse(alloc, text)?;
    if title.text() != text {
        return Err(TableFault::Refused);
    }
    Ok(title)
}

fn client_at(row: &Row, at: usize) -> Result<ClientId, TableFault> {
    ClientId::parse(text_at(row, at)?).ok_or(TableFault::Refused)
}

fn token_at(alloc: Global, row: &Row, at: usize) -> Result<Token, TableFault> {
    Ok(Token::parse(alloc, text_at(row, at)?)?)
}

fn body_at(alloc: Global, row: &Row, at: usize) -> Result<Text, TableFault> {
    let text = text_at(row, at)?;
    let body = Text::parse(alloc, text)?;
    if body.text() != text {
        return Err(TableFault::Refused);
    }
    Ok(body)
}

fn text_at(row: &Row, at: usize) -> Result<&str, TableFault> {
    match row.get_ref(at)? {
        ValueRef::Text(bytes) => std::str::from_utf8(bytes).map_err(|_| TableFault::Refused),
        _ => Err(TableFault::Refused),
    }
}
