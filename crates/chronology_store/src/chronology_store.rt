// Positions by client: reserve, note, find, take a message, sweep, rebuild.
ghost use Rattle.std.specs.Prelude.{◌≡◌, ◌≤◌, ◌+◌, IsTrue, IfOk, OnOk, OnErr, [], length, option_map, All};
ghost use Rattle.wiki_model.specs.Limits.{greatest_moment, position_life};
ghost use Rattle.chronology_store.specs.PositionRow.{shown, taken, with_reserved};
ghost use Rattle.chronology_store.specs.ChronologyStore.{row_of, is_reserved, find_in, Changes, TellsPosition, Sweeps, TellsAll, TellsPrefix};
ghost use Rattle.chronology_store.specs.Calls.{FindsGreatest};

use crate::position_row::{HeldPosition, PositionRow, later, put, row_of, sweep, unless_past};
use crate::{ClientCommit, KnownPosition, RelayAnswer};
use db_position::Position;
use farm_base::{Memory, Moment, POSITION_LIFE};
use std::alloc::Global;
use std::collections::BTreeMap;
use std::marker::Model;
use wiki_titles::ClientId;

/// When the position of a commit with this stamp expires.
pub fn expiry(stamp: Moment) -> Moment
    requires { stamp ≤ greatest_moment }
    ensures { result ≡ stamp + position_life }
{
    Moment(stamp.0 + POSITION_LIFE)
}

/// The positions of clients. Contracts see it as its rows, in the order of the clients.
#[derive(Drop)]
pub struct ChronologyStore {
    /// Each row is reserved or holds a position.
    rows: BTreeMap<ClientId, PositionRow>,
}

impl Model for ChronologyStore {
    ghost use Rattle.std.specs.Prelude.{List, ℕ};
    ghost use Rattle.chronology_store.specs.declared.position_row.PositionRow.{PositionRow};
    ghost use Rattle.chronology_store.specs.ChronologyStore.{IsStore};

    ghost Value = { List (List ℕ × PositionRow) };

    ghost view = { λ s. s.rows.entries };

    ghost invariant = { λ s. IsStore s.rows.entries };
}

impl ChronologyStore {
    /// A store that knows nothing. It takes no memory.
    pub fn new(alloc: Global) -> Self
        ensures { result ≡ [] }
    {
        ChronologyStore {
            rows: BTreeMap::new(alloc),
        }
    }

    /// How many clients have a row: those that are reserved, and those of whom a position is held. A sweep is
    /// worth its cost when they have doubled since the last.
    pub fn rows(&self) -> usize
        ensures { result ≡ length self.now }
    {
        self.rows.len()
    }

    /// Makes room for the client's position for good, so that `note` needs none. If memory is refused nothing has
    /// changed. Its cost grows with the logarithm of the rows, as does that of `note`, `find` and `take_relay`.
    #[tactic(auto, using(crate::proofs::Lookups::needed_reserved))]
    pub fn reserve(&mut self, client: &ClientId) -> Result<(), Memory>
        ensures ok { OnOk result (Changes client.now with_reserved self.old self.new) }
        ensures err { OnErr result (self.new ≡ self.old) }
    {
        let row = row_of(&self.rows, client);
        put(&mut self.rows, client, true, row.held)
    }

    /// Keeps the position if its index is above the one that is held. It takes no memory.
    #[tactic(auto, using(crate::proofs::Lookups::needed_held))]
    pub fn note(&mut self, client: &ClientId, index: u64, position: Position, expires: Moment)
        requires { IsTrue (is_reserved self.old client.now) }
        ensures { TellsPosition client.now index position expires self.old self.new }
    {
        let told = HeldPosition {
            index,
            position,
            expires,
        };
        let row = row_of(&self.rows, client);
        // The row is there, so it cannot be refused.
        let _ = put(
            &mut self.rows,
            client,
            row.reserved,
            Some(later(row.held, told)),
        );
    }

    /// What is known of the client, unless its position has expired. It takes no memory.
    pub fn find(&self, client: &ClientId, now: Moment) -> Option<KnownPosition>
        ensures { option_map shown result ≡ find_in self.now client.now now }
    {
        let held = unless_past(row_of(&self.rows, client).held, now)?;
        Some(KnownPosition {
            index: held.index,
            position: held.position,
        })
    }

    /// Keeps the position of a message if its index is above the one that is held, or if none is. If memory is
    /// refused nothing has changed.
    #[tactic(auto, using(crate::proofs::Lookups::needed_held))]
    pub fn take_relay(
        &mut self,
        client: &ClientId,
        index: u64,
        position: Position,
        expires: Moment,
    ) -> Result<RelayAnswer, Memory>
        ensures answer { IfOk result (λ answer. answer ≡ taken (row_of self.old client.now).held index) }
        ensures ok { OnOk result (TellsPosition client.now index position expires self.old self.new) }
        ensures err { OnErr result (self.new ≡ self.old) }
    {
        let told = HeldPosition {
            index,
            position,
            expires,
        };
        let row = row_of(&self.rows, client);
        if !row.is_newer(index) {
            return Ok(RelayAnswer::Older);
        }
        put(
            &mut self.rows,
            client,
            row.reserved,
            Some(later(row.held, told)),
        )?;
        Ok(RelayAnswer::Newer)
    }

    /// Forgets the positions that have expired, and the rows that nobody has reserved and that hold none.
    /// Its cost is linear in the rows. It takes no memory.
    pub fn sweep(&mut self, now: Moment)
        ensures { Sweeps now self.old self.new }
    {
        sweep(&mut self.rows, now);
    }

    /// Takes each commit as a message, in turn. If memory is refused, those before it are taken.
    pub fn rebuild(&mut self, rows: &[ClientCommit]) -> Result<(), Memory>
        requires { All (λ written. written.stamp ≤ greatest_moment) rows.now }
        ensures ok { OnOk result (TellsAll rows.now self.old self.new) }
        ensures err { OnErr result (TellsPrefix rows.now self.old self.new) }
    {
        for written in rows {
            let position = Position {
                entry: written.entry,
            };
            let expires = expiry(written.stamp);
            self.take_relay(&written.client, written.index, position, expires)?;
        }
        Ok(())
    }
}

/// What `find` gives after any calls is the position with the greatest index that was told for the client, and
/// nothing once that has expired. In these calls an index of a client always has the same position and expiry,
/// a greater index never has an earlier expiry, and no sweep has a moment after that of `find`.
pub fn finds_greatest()
    ensures { FindsGreatest }
{}
