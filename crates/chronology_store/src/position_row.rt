// What is kept of one client, and the table of all clients.
ghost use Rattle.std.specs.Prelude.{◌≡◌, IsOk, OnOk, OnErr, option_and_then};
ghost use Rattle.chronology_store.specs.PositionRow.{is_newer, later, unless_past, swept, row_with, IsNeeded};
ghost use Rattle.chronology_store.specs.ChronologyStore.{row_of, IsSetTo, HasRow, Sweeps, AreNeeded};

use db_position::Position;
use farm_base::{Memory, Moment};
use std::collections::BTreeMap;
use wiki_titles::ClientId;

/// A position that was told of a client.
#[derive(Clone, Copy, Debug, PartialEq, Eq)]
pub struct HeldPosition {
    /// Which of the client's commits it is, counted from 1.
    pub index: u64,
    /// The place of that commit in the history.
    pub position: Position,
    /// From this moment on it counts no more.
    pub expires: Moment,
}

/// What is kept of a client.
#[derive(Clone, Copy, Debug, PartialEq, Eq)]
pub struct PositionRow {
    /// Whether the row stays for good, so that a commit finds its place.
    pub reserved: bool,
    /// The position with the greatest index that was told, also if it has expired; None before the first and
    /// after a sweep.
    pub held: Option<HeldPosition>,
}

impl PositionRow {
    /// Whether this index is above the one that is held, or none is.
    pub fn is_newer(&self, index: u64) -> bool
        ensures { result ≡ is_newer self.now.held index }
    {
        match self.held {
            None => true,
            Some(held) => held.index < index,
        }
    }

    /// The row without a position that has expired.
    pub fn swept(&self, now: Moment) -> PositionRow
        ensures { result ≡ swept now self.now }
    {
        PositionRow {
            reserved: self.reserved,
            held: unless_past(self.held, now),
        }
    }
}

/// The one with the greater index; of two with the same, the one that is held.
pub(crate) fn later(held: Option<HeldPosition>, told: HeldPosition) -> HeldPosition
    ensures { result ≡ later held told }
{
    match held {
        Some(held) if told.index <= held.index => held,
        _ => told,
    }
}

/// A position that has not expired.
pub(crate) fn unless_past(held: Option<HeldPosition>, now: Moment) -> Option<HeldPosition>
    ensures { result ≡ option_and_then (unless_past now) held }
{
    held.filter(|held| now < held.expires)
}

/// The row of the client, and an empty one if it has none.
pub(crate) fn row_of(rows: &BTreeMap<ClientId, PositionRow>, client: &ClientId) -> PositionRow
    ensures { result ≡ row_of rows.now.entries client.now }
{
    let row = rows.get(client).copied();
    row.unwrap_or(PositionRow {
        reserved: false,
        held: None,
    })
}

/// Sets the client's row. It takes no memory if the client has one.
pub(crate) fn put(
    rows: &mut BTreeMap<ClientId, PositionRow>,
    client: &ClientId,
    reserved: bool,
    held: Option<HeldPosition>,
) -> Result<(), Memory>
    ensures ok { OnOk result (IsSetTo client.now (row_with reserved held) rows.old.entries rows.new.entries) }
    ensures err { OnErr result (rows.new.entries ≡ rows.old.entries) }
    ensures there { HasRow rows.old.entries client.now → IsOk result }
    ensures needed { IsNeeded (row_with reserved held) → AreNeeded rows.old.entries → AreNeeded rows.new.entries }
{
    match rows.insert(*client, PositionRow { reserved, held }) {
        Ok(_) => Ok(()),
        Err(_) => Err(Memory),
    }
}

/// Sweeps each row, and lets those go that are not needed. It takes no memory.
pub(crate) fn sweep(rows: &mut BTreeMap<ClientId, PositionRow>, now: Moment)
    ensures swept { Sweeps now rows.old.entries rows.new.entries }
    ensures needed { AreNeeded rows.new.entries }
{
    rows.retain(|_, row| {
        *row = row.swept(now);
        row.reserved || row.held.is_some()
    });
}
